//! Words that are refused before they are parsed.

ghost use Rattle.std.specs.Prelude.{◌≡◌, map, string_bytes};
ghost use Rattle.command_line.specs.Given.{is_word, are_words};

/// Whether no word is empty, `-` or `--`, or ends in `=`. `clap` alone would take some of these.
pub fn are_words(words: &[String]) -> bool
    ensures { result ≡ are_words (map string_bytes words.now) }
{
    for word in words {
        if !is_word(word.as_str()) {
            return false;
        }
    }
    true
}

fn is_word(word: &str) -> bool
    ensures { result ≡ is_word word.now }
{
    word != "" && word != "-" && word != "--" && !word.ends_with('=')
}
