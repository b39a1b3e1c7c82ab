//! Small numbers in the lines of a scenario.

ghost use Rattle.std.specs.Prelude.{◌≡◌, ◌≢◌, ◌≤◌, ℕ, IfSome, IfNone};
ghost use Rattle.std.specs.Fmt.{decimal};

use bk_decimal::number;

/// Parses a number below 2^32.
pub(crate) fn small_number(word: &str) -> Option<u32>
    ensures value { IfSome result (λ n. word.now ≡ decimal n) }
    ensures none { IfNone result ((n : ℕ) → n ≤ 4_294_967_295 → word.now ≢ decimal n) }
{
    u32::try_from(number(word, 4_294_967_295)?).ok()
}
