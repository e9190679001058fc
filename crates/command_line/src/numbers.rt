//! Numbers in words.

ghost use Rattle.std.specs.Prelude.{◌≡◌, ◌<◌, ◌≤◌, option_map, IfSome};
ghost use Rattle.std.specs.List.{list_all};
ghost use Rattle.std.specs.Char.{is_ascii_digit};
ghost use Rattle.command_line.specs.Given.{number, ranged, number_or};

/// The most digits of a number, but for a seed.
pub const MAX_DIGITS: usize = 7;

/// The most digits of a seed.
pub const MAX_SEED_DIGITS: usize = 19;

/// The number that 1 to `digits` decimal digits write.
pub fn number(text: &str, digits: usize) -> Option<u64>
    requires { digits ≤ 19 }
    ensures { result ≡ number digits text.now }
{
    if text.len() > digits || !is_digits(text) {
        return None;
    }
    text.parse().ok()
}

fn is_digits(text: &str) -> bool
    ensures { result ≡ list_all is_ascii_digit text.now }
{
    text.bytes().all(|b| b.is_ascii_digit())
}

/// The number, where it lies in the range.
pub fn ranged(number: Option<u64>, least: u32, most: u32) -> Option<u32>
    ensures within { IfSome result (λ n. (least ≤ n) × (n ≤ most)) }
    ensures value { result ≡ ranged least most number }
{
    match number {
        Some(n) if least as u64 <= n && n <= most as u64 => Some(n as u32),
        _ => None,
    }
}

/// The number of an option, from 1 up, or the default where the option is missing.
pub fn number_or(text: Option<&str>, default: u32, most: u32) -> Option<u32>
    requires { (0 < default) × (default ≤ most) }
    ensures within { IfSome result (λ n. (0 < n) × (n ≤ most)) }
    ensures value { result ≡ number_or default most (option_map (λ s. s.now) text.entry) }
{
    match text {
        Some(text) => ranged(number(text, MAX_DIGITS), 1, most),
        None => Some(default),
    }
}
