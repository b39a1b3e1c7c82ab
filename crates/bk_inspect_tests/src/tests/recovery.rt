//! The states in which a crash may leave a log: what an opening answers, what `check` reports, that
//! `seal --cut-torn` is a way on, and that the published entry is there after it.

use super::cut_mem::{CutMem, LOG, Left, MemAside, NONE, cut, cut_on, file_of};
use super::states::{EMPTY, KILLED, STATES, State, TAKEN, Told, Way};
use super::{HELLO, find, run};
use bk_disk::{LogDisk, MemDisk};
use bk_inspect::DirCommand;
use std::alloc::Global;
use std::process::Abort;
use std::test::Fail;

/// A disk with the log alone.
fn disk_with(alloc: Global, bytes: &[u8]) -> Result<MemDisk, Fail> {
    let mut disk = MemDisk::new(alloc);
    disk.create(alloc, LOG)?;
    disk.append(alloc, LOG, bytes)?;
    Ok(disk)
}

/// Whether an opening reports this. It reads the header of a log that is not short, and scans it.
fn is_opened(alloc: Global, bytes: &[u8], text: &str) -> Result<bool, Fail> {
    let mut disk = disk_with(alloc, bytes)?;
    let header = run(alloc, &mut disk, DirCommand::Header(LOG));
    let scan = run(alloc, &mut disk, DirCommand::Scan(LOG));
    let told = if header.status == 0 { scan } else { header };
    Ok(told.errors.as_slice() == text.as_bytes() && told.status == u8::from(!text.is_empty()))
}

/// Whether a command shows this of the log.
fn is_shown(alloc: Global, bytes: &[u8], command: DirCommand, text: &str) -> Result<bool, Fail> {
    let mut disk = disk_with(alloc, bytes)?;
    Ok(run(alloc, &mut disk, command).output.as_slice() == text.as_bytes())
}

/// Whether an opening and `check` report this of a log.
fn is_told(alloc: Global, bytes: &[u8], told: Told) -> Result<bool, Fail> {
    let (opening, row) = match told {
        Told::Refused(fault) => (
            format!(in alloc; "fault {fault}\n")?,
            format!(in alloc; "3 fault {fault}\n")?,
        ),
        Told::Opens(word) => (String::new(alloc), format!(in alloc; "3 {word}\n")?),
    };
    Ok(is_opened(alloc, bytes, &opening)? && is_shown(alloc, bytes, DirCommand::Check, &row)?)
}

/// Whether the entry is found in a log.
fn is_found(rt: &impl Abort, alloc: Global, bytes: &[u8]) -> Result<bool, Fail> {
    is_shown(alloc, bytes, find(rt, 1, 0), "3 1028 68656c6c6f\n")
}

/// What a repair of a state is to report; the log has this length.
fn repair_of(alloc: Global, state: &State, length: usize) -> Result<String, Fail> {
    let (head, _, _, _, at, way) = state;
    let mut text = match way {
        Way::Whole => String::from_str(
            alloc,
            "fault log 3: sealed already\nhelp: if './bookie check' finds its map wrong, './bookie seal --cut-torn' writes the map anew\n",
        )?,
        Way::Old => String::from_str(alloc, "fault log 3: no map in version 0\n")?,
        Way::Sealed | Way::Cleared | Way::Cut => String::new(alloc),
    };
    if *at < length {
        let bytes = length - *at;
        text.push_str(&format!(in alloc; "cut 3 at {at} bytes {bytes} copy aside/3\n")?)?;
    }
    if *way == Way::Cleared {
        let (place, count) = (head.place, head.count);
        text.push_str(&format!(in alloc; "cleared 3 map {place} count {count} copy aside/3\n")?)?;
    }
    if *way == Way::Cleared || *way == Way::Sealed {
        text.push_str(&format!(in alloc; "sealed 3 map {at} count 1\n")?)?;
    }
    Ok(text)
}

/// What is to be reported of a log of this version after its repair.
fn after(version: u8) -> Told {
    if version == 0 {
        Told::Opens("unsealed")
    } else {
        Told::Opens("ok")
    }
}

/// Whether a repair reported this, with its status, and has a copy of these bytes where it reported
/// one.
fn is_left(left: &Left, bytes: &[u8], way: &str) -> bool {
    left.told.as_slice() == way.as_bytes()
        && left.status == u8::from(way.starts_with("fault"))
        && if way.contains("copy") {
            left.copy.as_slice() == bytes
        } else {
            left.copy.is_empty() && (left.log.as_slice() == bytes || way.starts_with("sealed"))
        }
}

/// Repairs a log of these bytes that has this copy.
fn cut_beside(alloc: Global, bytes: &[u8], copy: &[u8]) -> Result<Left, Fail> {
    let disk = CutMem::of(alloc, bytes, NONE)?;
    cut_on(alloc, disk, MemAside::with(alloc, copy, NONE)?)
}

/// Whether a repair that copies the log reports this too if an earlier one was killed while it
/// copied the log, or before it cut the log.
fn is_gone_on_with(alloc: Global, bytes: &[u8], way: &str) -> Result<bool, Fail> {
    if !way.contains("copy") {
        return Ok(true);
    }
    for length in [0, bytes.len() / 2, bytes.len()] {
        let copy = bytes.get(..length).unwrap_or(bytes);
        if !is_left(&cut_beside(alloc, bytes, copy)?, bytes, way) {
            return Ok(false);
        }
    }
    Ok(true)
}

/// The bytes of a state.
fn bytes_of(alloc: Global, state: &State) -> Result<Vec<u8>, Fail> {
    let (head, map, end, _, _, _) = state;
    let mut bytes = file_of(alloc, head.begins, HELLO, map)?;
    bytes.extend_from_slice(end)?;
    Ok(bytes)
}

/// Whether a log of this version has its published entry after its repair, and is reported as it is
/// to be.
fn is_whole(rt: &impl Abort, alloc: Global, version: u8, bytes: &[u8]) -> Result<bool, Fail> {
    Ok(is_told(alloc, bytes, after(version))? && is_found(rt, alloc, bytes)?)
}

/// Whether a repair of a state reports what it is to, also if an earlier one was killed, and leaves
/// a whole log.
fn has_way_on(rt: &impl Abort, alloc: Global, state: &State, bytes: &[u8]) -> Result<bool, Fail> {
    let repair = repair_of(alloc, state, bytes.len())?;
    let left = cut(alloc, bytes, NONE, NONE)?;
    Ok(
        is_left(&left, bytes, &repair)
            && is_gone_on_with(alloc, bytes, &repair)?
            && is_whole(rt, alloc, state.0.version, &left.log)?,
    )
}

#[test]
fn each_state_opens_or_has_a_way_on(rt: HostRuntime) -> Result<(), Fail> {
    let alloc = rt.alloc();
    for (number, state) in STATES.iter().enumerate() {
        let bytes = bytes_of(alloc, state)?;
        assert!(rt; is_told(alloc, &bytes, state.3)?, "state {number}");
        assert!(rt;
            has_way_on(&rt, alloc, state, &bytes)?,
            "the way on of state {number}"
        );
    }
    Ok(())
}

#[test]
fn a_repair_that_was_killed_is_gone_on_with(rt: HostRuntime) -> Result<(), Fail> {
    let alloc = rt.alloc();
    for (number, (head, end, copy_head, copy_end, way)) in KILLED.iter().enumerate() {
        let bytes = file_of(alloc, head.begins, HELLO, end)?;
        let copy = file_of(alloc, copy_head.begins, HELLO, copy_end)?;
        let left = cut_beside(alloc, &bytes, &copy)?;
        assert!(rt; left.told.as_slice() == way.as_bytes(), "state {number}");
        assert!(rt; left.copy == copy, "the copy of state {number}");
        // The way on of a refusal: the copy is moved away.
        let last = if *way == TAKEN {
            assert!(rt; left.log == bytes, "state {number}");
            cut(alloc, &bytes, NONE, NONE)?
        } else {
            left
        };
        assert!(rt; last.status == 0, "state {number}");
        assert!(rt;
            is_told(alloc, &last.log, Told::Opens("ok"))?,
            "after state {number}"
        );
        assert!(rt;
            is_found(&rt, alloc, &last.log)?,
            "the entry after state {number}"
        );
    }
    Ok(())
}

#[test]
fn a_log_without_an_entry_opens_or_has_a_way_on(rt: HostRuntime) -> Result<(), Fail> {
    let alloc = rt.alloc();
    for (head, length, end, told, way, after) in &EMPTY {
        let mut bytes = file_of(alloc, head, b"", b"")?;
        bytes.truncate(*length);
        bytes.extend_from_slice(end)?;
        assert!(rt; is_told(alloc, &bytes, *told)?, "{way}");
        let left = cut(alloc, &bytes, NONE, NONE)?;
        assert!(rt; is_left(&left, &bytes, way), "{way}");
        assert!(rt; is_told(alloc, &left.log, *after)?, "{way}");
        // A log that is still refused has a line that names the way on: it may be moved away.
        let is_way = matches!(after, Told::Opens(_)) || way.contains("moved away");
        assert!(rt; is_way, "{way}");
    }
    Ok(())
}
