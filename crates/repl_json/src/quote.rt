//! Texts as JSON strings.

ghost use Rattle.std.specs.Prelude.{◌≡◌, ◌++◌, ◌<◌, OnOk};
ghost use Rattle.std.specs.Char.{digit_char};
ghost use Rattle.json.specs.Print.{quoted, escape_byte, escape_letter};

use std::alloc::AllocError;

/// The letter of a byte's short escape, or 0 where it has none.
fn escape_letter(byte: u8) -> u8
    ensures { result ≡ escape_letter byte }
{
    match byte {
        34 | 92 => byte,
        8 => b'b',
        12 => b'f',
        10 => b'n',
        13 => b'r',
        9 => b't',
        _ => 0,
    }
}

/// The hexadecimal digit of a number below 16.
fn hex_digit(n: u8) -> u8
    requires { n < 16 }
    ensures { result ≡ digit_char n }
{
    if n < 10 { b'0' + n } else { b'a' + (n - 10) }
}

/// Adds what stands for a byte in a JSON string.
#[tactic(auto, unfolding(json::specs::Print::escape_byte))]
fn push_escaped(out: &mut Vec<u8>, byte: u8) -> Result<(), AllocError>
    ensures { OnOk result (out.new.items ≡ out.old.items ++ escape_byte byte) }
{
    let letter = escape_letter(byte);
    if letter > 0 {
        return out.extend_from_slice(&[b'\\', letter]);
    }
    if byte < 32 {
        let digits = [hex_digit(byte / 16), hex_digit(byte % 16)];
        return out.extend_from_slice(&[b'\\', b'u', b'0', b'0', digits[0], digits[1]]);
    }
    out.extend_from_slice(&[byte])
}

/// Adds a text as a JSON string, as `serde_json` writes it compactly. It works byte by byte, so that the text needn't be looked
/// through for UTF-8 first. Fails for want of memory alone.
#[tactic(auto, using(crate::proofs::PartLemmas::flat_map_more))]
pub fn push_quoted(out: &mut Vec<u8>, text: &[u8]) -> Result<(), AllocError>
    ensures { OnOk result (out.new.items ≡ out.old.items ++ quoted text.now) }
{
    out.push(b'"')?;
    for byte in text {
        push_escaped(out, *byte)?;
    }
    out.push(b'"')?;
    Ok(())
}
