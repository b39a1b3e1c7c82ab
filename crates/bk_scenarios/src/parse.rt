//! Parses a scenario: sections, each after a line `== NAME`, in their order.

mod lines;
mod repeat;

use crate::RunFault;
use crate::worked::Worked;
use lines::read_line;
use repeat::{line_at, repeated};
use std::alloc::Global;

/// A section of a scenario.
#[derive(Clone, Copy)]
pub(crate) enum Section {
    Options,
    Files,
    Fault,
    Script,
    Answers,
    Failing,
    Calls,
    Store,
}

impl Section {
    /// Returns the section with this name.
    fn named(name: &str) -> Option<Section> {
        match name {
            "options" => Some(Section::Options),
            "files" => Some(Section::Files),
            "fault" => Some(Section::Fault),
            "script" => Some(Section::Script),
            "answers" => Some(Section::Answers),
            "failing" => Some(Section::Failing),
            "calls" => Some(Section::Calls),
            "store" => Some(Section::Store),
            _ => None,
        }
    }

    /// Returns its position among the sections, counted from 1.
    fn place(self) -> u8 {
        match self {
            Section::Options => 1,
            Section::Files => 2,
            Section::Fault => 3,
            Section::Script => 4,
            Section::Answers => 5,
            Section::Failing => 6,
            Section::Calls => 7,
            Section::Store => 8,
        }
    }
}

/// Parses a scenario. Empty lines and lines that begin with `#` are ignored.
///
/// # Errors
///
/// - `Section(n)`, `Line(n)`: of the first line that is not valid.
/// - `Memory`: out of memory.
pub(crate) fn parse(alloc: Global, text: &str) -> Result<Worked, RunFault> {
    let mut worked = Worked::new(alloc);
    let mut section = None;
    for (index, line) in text.lines().enumerate() {
        let number = index as u64 + 1;
        if line.is_empty() || line.starts_with('#') {
            continue;
        }
        if let Some(name) = line.strip_prefix("== ") {
            section = Some(next_section(section, name).ok_or(RunFault::Section(number))?);
            if let Some(Section::Calls) = section {
                worked.calls = Some(Vec::new(alloc));
            }
            continue;
        }
        let Some(section) = section else {
            return Err(RunFault::Section(number));
        };
        if !read_lines(alloc, &mut worked, section, line)? {
            return Err(RunFault::Line(number));
        }
    }
    Ok(worked)
}

/// Adds a line of a section to the scenario, once for each line that it expands to. Returns whether
/// all are valid.
fn read_lines(
    alloc: Global,
    worked: &mut Worked,
    section: Section,
    line: &str,
) -> Result<bool, RunFault> {
    let Some((count, line)) = repeated(line) else {
        return Ok(read_line(alloc, worked, section, line)?);
    };
    for index in 0..count {
        if !read_line(alloc, worked, section, &line_at(alloc, line, index)?)? {
            return Ok(false);
        }
    }
    Ok(true)
}

/// Returns the section with this name, if it may follow the one above it.
fn next_section(above: Option<Section>, name: &str) -> Option<Section> {
    let section = Section::named(name)?;
    match above {
        Some(above) if section.place() <= above.place() => None,
        _ => Some(section),
    }
}
