//! Answers of steps that are tried twice, because an allocation may fail.

use std::alloc::{AllocError, Global};

/// Returns whether an answer reports a failed allocation.
fn is_refused(answer: &str) -> bool {
    answer == "fault no seat" || answer.starts_with("fault memory")
}

/// Returns whether an answer fits an expected one: `|` separates alternatives, and one that ends
/// with `*` is a prefix.
fn fits(expected: &str, answer: &str) -> bool {
    for one in expected.split('|') {
        let is_fit = match one.strip_suffix('*') {
            Some(start) => answer.starts_with(start),
            None => answer == one,
        };
        if is_fit {
            return true;
        }
    }
    false
}

/// Returns an expected answer if the answer fits it, otherwise the answer.
fn line_for(alloc: Global, expected: Option<&String>, answer: &str) -> Result<String, AllocError> {
    match expected {
        Some(expected) if fits(expected.as_str(), answer) => expected.clone(),
        _ => String::from_str(alloc, answer),
    }
}

/// Returns the answer that counts of two tries: the second one if the first reports a failed
/// allocation.
fn counted<'a>(tries: &'a [String]) -> &'a str {
    match tries {
        [first, second] if is_refused(first.as_str()) => second.as_str(),
        [first, ..] => first.as_str(),
        [] => "",
    }
}

fn refused_count(answers: &[String]) -> u32 {
    let mut refused = 0u32;
    for answer in answers {
        if is_refused(answer.as_str()) {
            refused = refused.saturating_add(1);
        }
    }
    refused
}

/// Returns one answer per step, from the answers of both tries. More than one failed try adds a
/// line, since only one allocation fails.
pub(crate) fn settled(
    alloc: Global,
    expected: &[String],
    answers: &[String],
) -> Result<Vec<String>, AllocError> {
    let mut lines = Vec::new(alloc);
    let mut wanted = expected.iter();
    for tries in answers.chunks(2) {
        lines.push(line_for(alloc, wanted.next(), counted(tries))?)?;
    }
    let refused = refused_count(answers);
    if refused > 1 {
        lines.push(format!(in alloc; "refused {refused} times")?)?;
    }
    Ok(lines)
}
