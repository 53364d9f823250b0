//! Numbers on the command line.
ghost use Rattle.std.specs.Prelude.{◌≡◌, ◌≤◌, ◌<◌, ◌^◌, ℕ, IfSome, Some, decimal};

use itoa::Buffer;

/// A number in decimal digits, without a sign and without a leading zero; none for any other text.
fn number_in(word: &str) -> Option<u64>
    ensures spelt { IfSome result (λ n. word.now ≡ decimal n) }
    ensures all { (n : ℕ) → n < 2 ^ 64 → word.now ≡ decimal n → result ≡ Some n }
{
    let Ok(n) = word.parse::<u64>() else {
        return None;
    };
    let mut digits = Buffer::new();
    if digits.format(n) == word {
        Some(n)
    } else {
        None
    }
}

/// A number from `least` to `most`, in decimal digits without a sign and without a leading zero;
/// none for any other text.
pub fn number_within(word: &str, least: u64, most: u64) -> Option<u64>
    ensures least { IfSome result (λ n. least ≤ n) }
    ensures most { IfSome result (λ n. n ≤ most) }
    ensures spelt { IfSome result (λ n. word.now ≡ decimal n) }
    ensures all { (n : ℕ) → least ≤ n → n ≤ most → word.now ≡ decimal n → result ≡ Some n }
{
    let n = number_in(word)?;
    if n < least || n > most {
        return None;
    }
    Some(n)
}
