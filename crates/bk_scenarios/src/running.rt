//! Runs a scenario and finds the first difference.

ghost use Rattle.std.specs.Prelude.{◌<◌, ◌^◌};

use crate::asking::{Asked, told};
use crate::noting::NotingDisk;
use crate::retrying::settled;
use crate::worked::{Failing, Worked};
use crate::{RunFault, first_other};
use bk_disk::{DiskFault, FaultDisk, LogDisk, MemDisk};
use bk_drive::{Answer, OpenFault, Ran, drive};
use bk_script::Text;
use std::alloc::{AllocError, Global};
use std::fmt;
use std::fmt::{Display, Formatter};

/// Largest number of calls that fail one after another.
const MOST: u64 = 10_000;

/// The first difference between the results of a scenario and the expected ones.
#[derive(Drop)]
pub(crate) struct Difference {
    /// What is compared: answers, or calls on the disk.
    what: &'static str,
    /// The failing call and the number of bytes that it leaves, if calls fail one after another.
    failing: Option<(u64, usize)>,
    /// The number of the line, counted from 1.
    line: usize,
    expected: String,
    got: String,
}

impl Display for Difference {
    fn fmt<W: fmt::Write>(&self, f: &mut Formatter<W>) -> fmt::Result {
        if let Some((call, kept)) = self.failing {
            write!(f, "call {call} fails and leaves {kept}: ")?;
        }
        write!(
            f,
            "{} {}: expected '{}', got '{}'",
            self.what, self.line, self.expected, self.got
        )
    }
}

/// Results of a scenario: its answers or why the store is not opened, its calls on the disk, and
/// whether a call failed.
#[derive(Drop)]
struct Told {
    answers: Vec<String>,
    calls: Vec<String>,
    has_failed: bool,
}

/// Returns the first difference between the results of a scenario and the expected ones, or `None`.
pub(crate) fn check(alloc: Global, worked: &Worked) -> Result<Option<Difference>, RunFault> {
    let Failing::Each(leaving) = &worked.failing else {
        return check_once(alloc, worked);
    };
    for kept in leaving {
        let found = check_each(alloc, worked, *kept)?;
        if found.is_some() {
            return Ok(found);
        }
    }
    Ok(None)
}

/// Returns the disk of a scenario in which at most one call or view fails.
fn failing_disk(alloc: Global, worked: &Worked) -> Result<FaultDisk<MemDisk>, RunFault> {
    let disk = disk_of(alloc, worked)?;
    Ok(match &worked.failing {
        Failing::Nothing | Failing::Each(_) | Failing::Retry => FaultDisk::new(disk, 0, 0),
        Failing::Call(call, kept) => FaultDisk::new(disk, *call, *kept),
        Failing::View(view) => FaultDisk::broken_view(disk, *view),
    })
}

/// Returns the first difference of a scenario in which at most one call or view fails.
fn check_once(alloc: Global, worked: &Worked) -> Result<Option<Difference>, RunFault> {
    let mut told = told_by(alloc, worked, failing_disk(alloc, worked)?)?;
    if let Failing::Retry = worked.failing {
        told.answers = settled(alloc, &worked.answers, &told.answers)?;
    }
    let mut found = differ(alloc, "answer", None, &worked.answers, &told.answers)?;
    if let (Some(calls), None) = (&worked.calls, &found) {
        found = differ(alloc, "call", None, calls, &told.calls)?;
    }
    if found.is_some() {
        return Ok(found);
    }
    Ok(differ(
        alloc,
        "store",
        None,
        &worked.told,
        &asked_of(alloc, worked)?,
    )?)
}

/// Returns the replies of the store to all questions.
fn asked_of(alloc: Global, worked: &Worked) -> Result<Vec<String>, RunFault> {
    let mut lines = Vec::with_capacity(alloc, worked.asked.len())?;
    for asked in &worked.asked {
        if lines.push(asked_once(alloc, worked, *asked)?).is_err() {
            return Err(RunFault::Memory);
        }
    }
    Ok(lines)
}

/// Returns the reply to one question, from a new store that performs the first steps.
fn asked_once(alloc: Global, worked: &Worked, asked: Asked) -> Result<String, RunFault> {
    let count = worked.steps.len().min(asked.after);
    let disk = failing_disk(alloc, worked)?;
    let line = match drive(
        alloc,
        disk,
        worked.settings,
        &worked.dead,
        &worked.steps[..count],
    ) {
        Ok(ran) => told(alloc, &ran.store, count, asked.what),
        Err(fault) => not_opened(alloc, fault),
    };
    Ok(line?)
}

/// Returns the first difference of a scenario whose calls fail one after another, up to the run in
/// which none fails.
fn check_each(alloc: Global, worked: &Worked, kept: usize) -> Result<Option<Difference>, RunFault> {
    for call in 1..MOST {
        let disk = FaultDisk::new(disk_of(alloc, worked)?, call, kept);
        let told = told_by(alloc, worked, disk)?;
        let expected = expected_of(alloc, worked, call)?;
        let found = differ(
            alloc,
            "answer",
            Some((call, kept)),
            &expected,
            &told.answers,
        )?;
        if found.is_some() {
            return Ok(found);
        }
        if !told.has_failed {
            return Ok(past(alloc, worked, call, kept)?);
        }
    }
    Err(RunFault::Calls)
}

/// Returns an expected answer of a call that is never made.
fn past(
    alloc: Global,
    worked: &Worked,
    call: u64,
    kept: usize,
) -> Result<Option<Difference>, AllocError> {
    match worked.others.iter().find(|other| other.call >= call) {
        Some(other) => Ok(Some(Difference {
            what: "answer",
            failing: Some((other.call, kept)),
            line: other.line as usize,
            expected: other.text.clone()?,
            got: format!(in alloc; "no such call")?,
        })),
        None => Ok(None),
    }
}

/// Returns the expected answers if the call with this number fails.
fn expected_of(alloc: Global, worked: &Worked, call: u64) -> Result<Vec<String>, AllocError> {
    let mut expected = Vec::new(alloc);
    for (index, answer) in worked.answers.iter().enumerate() {
        let other = worked.others.iter().find(|other| other.call == call
            && other.line == index as u64 + 1);
        match other {
            Some(other) => expected.push(other.text.clone()?)?,
            None => expected.push(answer.clone()?)?,
        }
    }
    if let Some(other) = worked
        .others
        .iter()
        .find(|other| other.call == call && other.line == 0)
    {
        expected.clear();
        expected.push(other.text.clone()?)?;
    }
    Ok(expected)
}

/// Returns the first line in which two texts differ.
fn differ(
    alloc: Global,
    what: &'static str,
    failing: Option<(u64, usize)>,
    expected: &[String],
    got: &[String],
) -> Result<Option<Difference>, AllocError> {
    let Some(index) = first_other(expected, got) else {
        return Ok(None);
    };
    Ok(Some(Difference {
        what,
        failing,
        line: index.saturating_add(1),
        expected: line_at(alloc, expected, index)?,
        got: line_at(alloc, got, index)?,
    }))
}

fn line_at(alloc: Global, lines: &[String], index: usize) -> Result<String, AllocError> {
    match lines.get(index) {
        Some(line) => line.clone(),
        None => format!(in alloc; "nothing"),
    }
}

/// Returns a disk with the logs of the scenario.
fn disk_of(alloc: Global, worked: &Worked) -> Result<MemDisk, RunFault> {
    let mut disk = MemDisk::new(alloc);
    for (log, bytes) in &worked.files {
        if *log >= 2_147_483_648 {
            return Err(RunFault::Files);
        }
        match disk.create(alloc, *log) {
            Ok(()) => {}
            Err(DiskFault::Memory) => return Err(RunFault::Memory),
            Err(_) => return Err(RunFault::Files),
        }
        if disk.append(alloc, *log, bytes).is_err() {
            return Err(RunFault::Memory);
        }
    }
    Ok(disk)
}

/// Runs a scenario on this disk.
fn told_by(alloc: Global, worked: &Worked, disk: FaultDisk<MemDisk>) -> Result<Told, RunFault> {
    let disk = NotingDisk::new(alloc, disk);
    match drive(alloc, disk, worked.settings, &worked.dead, &worked.steps) {
        Ok(ran) => told_of(alloc, &ran),
        Err(fault) => Ok(refused(alloc, fault)?),
    }
}

/// Returns the line of a store that could not be opened. Fails if an allocation for the store
/// failed.
fn not_opened(alloc: Global, fault: OpenFault) -> Result<String, AllocError> {
    if fault == OpenFault::Memory {
        return Err(AllocError);
    }
    format!(in alloc; "not opened: {fault}")
}

/// Returns the result of a store that could not be opened.
fn refused(alloc: Global, fault: OpenFault) -> Result<Told, AllocError> {
    let mut answers = Vec::new(alloc);
    answers.push(not_opened(alloc, fault)?)?;
    Ok(Told {
        answers,
        calls: Vec::new(alloc),
        has_failed: fault == OpenFault::Disk,
    })
}

/// Returns the results of a run.
fn told_of(alloc: Global, ran: &Ran<NotingDisk<FaultDisk<MemDisk>>>) -> Result<Told, RunFault> {
    let disk = ran.store.disk();
    let Some(noted) = disk.noted() else {
        return Err(RunFault::Memory);
    };
    Ok(Told {
        answers: lines_of(alloc, &ran.answers)?,
        calls: copies_of(alloc, noted)?,
        has_failed: disk.inner().has_failed(),
    })
}

fn lines_of(alloc: Global, answers: &[Answer]) -> Result<Vec<String>, AllocError> {
    let mut lines = Vec::with_capacity(alloc, answers.len())?;
    for answer in answers {
        lines.push(format!(in alloc; "{}", Text(answer))?)?;
    }
    Ok(lines)
}

fn copies_of(alloc: Global, lines: &[String]) -> Result<Vec<String>, AllocError> {
    let mut copies = Vec::with_capacity(alloc, lines.len())?;
    for line in lines {
        copies.push(line.clone()?)?;
    }
    Ok(copies)
}
