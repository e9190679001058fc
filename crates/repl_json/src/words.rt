//! The first word of a line, and what stands behind it.

ghost use Rattle.std.specs.Prelude.{◌≡◌, ◌≤◌, not, length};
ghost use Rattle.std.specs.List.{prefix_len};
ghost use Rattle.repl_json.specs.Words.{is_blank, is_blank_line, from_word, begins_object, word_of, rest_of};

fn is_blank(b: u8) -> bool
    ensures { result ≡ is_blank b }
{
    b == b' ' || b == b'\t'
}

/// How many blanks stand at the front.
fn blanks(bytes: &[u8]) -> usize
    ensures value { result ≡ prefix_len is_blank bytes.now }
    ensures within { result ≤ length bytes.now }
{
    let mut end = 0;
    while end < bytes.len() && is_blank(bytes[end]) {
        end += 1;
    }
    end
}

/// How many bytes stand before the first blank.
fn unbroken(bytes: &[u8]) -> usize
    ensures value { result ≡ prefix_len (λ b. not (is_blank b)) bytes.now }
    ensures within { result ≤ length bytes.now }
{
    let mut end = 0;
    while end < bytes.len() && !is_blank(bytes[end]) {
        end += 1;
    }
    end
}

/// Whether a line has nothing but blanks, which are spaces and tabs. Such a line asks for nothing.
pub fn is_blank_line(line: &[u8]) -> bool
    ensures { result ≡ is_blank_line line.now }
{
    line.iter().all(|b| *b == b' ' || *b == b'\t')
}

/// A line without the blanks at its front.
pub fn from_word(line: &[u8]) -> &[u8]
    ensures { result.now ≡ from_word line.now }
{
    &line[blanks(line)..]
}

/// Whether the first byte is `{`.
pub fn begins_object(line: &[u8]) -> bool
    ensures { result ≡ begins_object line.now }
{
    match line {
        [] => false,
        [first, ..] => *first == b'{',
    }
}

/// The first word of a line that has no blanks at its front, up to a space or a tab, and what stands behind it.
pub fn split_word(front: &[u8]) -> (&[u8], &[u8])
    ensures word { result.0.now ≡ word_of front.now }
    ensures rest { result.1.now ≡ rest_of front.now }
{
    front.split_at(unbroken(front))
}
