//! Parses the lines of each section.

use super::Section;
use crate::asking::Asked;
use crate::hexadecimal::text_bytes;
use crate::noting::line_of;
use crate::numbers::small_number;
use crate::worked::{Failing, Other, Worked};
use bk_decimal::number;
use bk_drive::Settings;
use bk_script::{LineFault, read_step};
use std::alloc::{AllocError, Global};

/// Number of the last reader in a scenario. A script has readers up to 3, so it cannot show the
/// answer `no reader`.
const LAST_READER: u32 = u32::MAX;

/// Adds a line of a section to the scenario. Returns whether it is valid.
pub(crate) fn read_line(
    alloc: Global,
    worked: &mut Worked,
    section: Section,
    line: &str,
) -> Result<bool, AllocError> {
    match section {
        Section::Options => read_option(worked, line),
        Section::Files => read_file(alloc, worked, line),
        Section::Fault => read_fault(alloc, worked, line),
        Section::Script => read_script(alloc, worked, line),
        Section::Answers => {
            worked.answers.push(String::from_str(alloc, line)?)?;
            Ok(true)
        }
        Section::Failing => read_other(alloc, worked, line),
        Section::Calls => read_call(alloc, worked, line),
        Section::Store => read_asked(alloc, worked, line),
    }
}

/// Parses `NAME N` of an option, or `dead N` of a ledger.
fn read_option(worked: &mut Worked, line: &str) -> Result<bool, AllocError> {
    let Some((name, value)) = line.split_once(' ') else {
        return Ok(false);
    };
    if name != "dead" {
        return Ok(set_option(&mut worked.settings, name, value));
    }
    match number(value, u64::MAX) {
        Some(ledger) => {
            worked.dead.push(ledger)?;
            Ok(true)
        }
        None => Ok(false),
    }
}

/// Sets the option with this name. Returns whether the name and the value are valid.
fn set_option(settings: &mut Settings, name: &str, value: &str) -> bool {
    let Some(value) = small_number(value) else {
        return false;
    };
    match name {
        "log-limit" => settings.log_limit = value,
        "cache-limit" => settings.cache_limit = value,
        "recent" => settings.recent = value,
        "slots" => settings.slots = value,
        "leases" => settings.leases = value,
        "minor" => settings.minor = value,
        "major" => settings.major = value,
        _ => return false,
    }
    true
}

/// Parses `LOG WORD ..`: the bytes of a log.
fn read_file(alloc: Global, worked: &mut Worked, line: &str) -> Result<bool, AllocError> {
    let Some((log, bytes)) = log_bytes(alloc, line)? else {
        return Ok(false);
    };
    worked.files.push((log, bytes))?;
    Ok(true)
}

/// Returns the id of a log and the bytes of the words after it.
fn log_bytes(alloc: Global, text: &str) -> Result<Option<(u32, Vec<u8>)>, AllocError> {
    let Some((log, words)) = text.split_once(' ') else {
        return Ok(None);
    };
    let Some(log) = small_number(log) else {
        return Ok(None);
    };
    match text_bytes(alloc, words)? {
        Some(bytes) => Ok(Some((log, bytes))),
        None => Ok(None),
    }
}

/// Parses `call K KEPT`, `view J`, `each KEPT ..` or `retry`, which may occur once.
fn read_fault(alloc: Global, worked: &mut Worked, line: &str) -> Result<bool, AllocError> {
    let Failing::Nothing = &worked.failing else {
        return Ok(false);
    };
    match failing_of(alloc, line)? {
        Some(failing) => {
            worked.failing = failing;
            Ok(true)
        }
        None => Ok(false),
    }
}

fn failing_of(alloc: Global, line: &str) -> Result<Option<Failing>, AllocError> {
    Ok(match line.split_once(' ') {
        Some(("call", rest)) => failing_call(rest),
        Some(("view", rest)) => number(rest, u64::MAX).map(Failing::View),
        Some(("each", rest)) => failing_each(alloc, rest)?,
        None if line == "retry" => Some(Failing::Retry),
        _ => None,
    })
}

fn failing_call(rest: &str) -> Option<Failing> {
    let (call, kept) = rest.split_once(' ')?;
    Some(Failing::Call(number(call, u64::MAX)?, small_number(kept)? as usize))
}

fn failing_each(alloc: Global, rest: &str) -> Result<Option<Failing>, AllocError> {
    let mut leaving = Vec::new(alloc);
    for word in rest.split(' ') {
        let Some(kept) = small_number(word) else {
            return Ok(None);
        };
        leaving.push(kept as usize)?;
    }
    Ok(Some(Failing::Each(leaving)))
}

/// Parses a step of the script, and adds it once for each try.
fn read_script(alloc: Global, worked: &mut Worked, line: &str) -> Result<bool, AllocError> {
    for _ in 0..worked.failing.tries() {
        match read_step(alloc, line.as_bytes(), LAST_READER) {
            Ok(step) => worked.steps.push(step)?,
            Err(LineFault::Bad) => return Ok(false),
            Err(LineFault::Memory) => return Err(AllocError),
        }
    }
    Ok(true)
}

/// Parses `CALL LINE ANSWER`: an answer that differs if that call fails.
fn read_other(alloc: Global, worked: &mut Worked, line: &str) -> Result<bool, AllocError> {
    let Some((call, rest)) = line.split_once(' ') else {
        return Ok(false);
    };
    let Some((number_of_line, text)) = rest.split_once(' ') else {
        return Ok(false);
    };
    let (Some(call), Some(line)) = (
        number(call, u64::MAX),
        number(number_of_line, 4_294_967_295),
    ) else {
        return Ok(false);
    };
    let text = String::from_str(alloc, text)?;
    worked.others.push(Other { call, line, text })?;
    Ok(true)
}

/// Parses a call on the disk: its name, its log, and the bytes that it writes.
fn read_call(alloc: Global, worked: &mut Worked, line: &str) -> Result<bool, AllocError> {
    let Some(calls) = &mut worked.calls else {
        return Ok(false);
    };
    let text = match line.split_once(' ') {
        Some((name, rest)) if name == "append" || name == "patch" => {
            let Some((log, bytes)) = log_bytes(alloc, rest)? else {
                return Ok(false);
            };
            line_of(alloc, name, log, &bytes)?
        }
        _ => String::from_str(alloc, line)?,
    };
    calls.push(text)?;
    Ok(true)
}

/// Parses a question after N steps, with the expected reply (`Asked::of`).
fn read_asked(alloc: Global, worked: &mut Worked, line: &str) -> Result<bool, AllocError> {
    let Some(asked) = Asked::of(line) else {
        return Ok(false);
    };
    worked.asked.push(asked)?;
    worked.told.push(String::from_str(alloc, line)?)?;
    Ok(true)
}
