//! Numbers in scripts.

ghost use Rattle.std.specs.Prelude.{◌≡◌};
ghost use Rattle.tt_calls.specs.Number.{number_within};

/// Returns the number that the word writes in decimal, if the number is at most `limit`. Leading zeros are allowed. An
/// empty word, or one with anything but digits, writes no number.
pub fn parse_number(word: &[u8], limit: u32) -> Option<u32>
    ensures { result ≡ number_within limit word.now }
{
    if word.is_empty() {
        return None;
    }
    let mut value: u64 = 0;
    for byte in word {
        if !byte.is_ascii_digit() {
            return None;
        }
        value = value * 10 + u64::from(*byte - b'0');
        if value > u64::from(limit) {
            return None;
        }
    }
    Some(value as u32)
}
