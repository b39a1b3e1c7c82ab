//! Decimal numbers without a sign and without leading zeros.

ghost use Rattle.std.specs.Prelude.{◌≡◌, ◌≢◌, ℕ, ◌≤◌, ◌↔◌, IfSome, IfNone, IsTrue};
ghost use Rattle.std.specs.Fmt.{decimal};
ghost use Rattle.bk_decimal.specs.Number.{HasOddStart};

/// Parses a word to a number. Returns `None` if the word is not a number or the number exceeds
/// `most`. A number has 1 to 20 decimal digits and no sign; only `0` itself begins with a zero
/// (project rule).
pub fn number(word: &str, most: u64) -> Option<u64>
    ensures value { IfSome result (λ n. (n ≤ most) × (word.now ≡ decimal n)) }
    ensures none { IfNone result ((n : ℕ) → n ≤ most → word.now ≢ decimal n) }
{
    if has_odd_start(word.as_bytes()) {
        return None;
    }
    match word.parse::<u64>() {
        Ok(n) if n <= most => Some(n),
        _ => None,
    }
}

/// Returns whether the word begins with a sign, or with a zero that is not its only digit.
fn has_odd_start(word: &[u8]) -> bool
    ensures { IsTrue result ↔ HasOddStart word.now }
{
    matches!(word, [b'+', ..] | [b'0', _, ..])
}
