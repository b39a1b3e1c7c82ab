//! Splits a line into words and numbers.

ghost use Rattle.std.specs.Prelude.{◌≡◌, ◌≢◌, ℕ, ◌≤◌, ◌∷◌, ◌++◌, IfSome, IfNone};
ghost use Rattle.std.specs.Option.{option_copied};
ghost use Rattle.std.specs.Fmt.{decimal};
ghost use Rattle.bk_script.specs.Line.{IsWord, followed};

use bk_decimal::number;

/// Splits a text at its first space, if it has one.
pub(crate) fn split_word(text: &str) -> (&str, Option<&str>)
    ensures whole { text.now ≡ followed result.0.now (option_copied result.1) }
    ensures word { IsWord result.0.now }
{
    match text.split_once(' ') {
        Some((word, rest)) => (word, Some(rest)),
        None => (text, None),
    }
}

/// Splits off the number before the first space of a text.
pub(crate) fn split_number(text: &str, most: u64) -> Option<(u64, &str)>
    ensures value { IfSome result (λ r. (r.0 ≤ most) × (text.now ≡ decimal r.0 ++ 32 ∷ r.1.now)) }
    ensures none { IfNone result ((n : ℕ) (rest : _) → n ≤ most → text.now ≢ decimal n ++ 32 ∷ rest) }
{
    let (word, rest) = text.split_once(' ')?;
    Some((number(word, most)?, rest))
}
