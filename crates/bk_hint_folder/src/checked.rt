//! Compares the hints of a directory with its logs.

use crate::names::Names;
use crate::{HintState, HintingFault, LogFault, LogReason, compare_hint};
use bk_disk::{DirDisk, DiskFault, LogDisk};
use bk_hint_disk::DirHints;

/// Sees the hints of a directory, log by log.
pub trait SeesStates {
    /// Is called with what the hint of a log is. Returns whether to go on.
    fn see(&mut self, log: u32, state: HintState) -> bool;

    /// Is called with the fault of a log that cannot be read.
    fn fail(&mut self, fault: &LogFault);
}

/// Compares the hint of each log of the directory at a path with the one that a scan of the log makes,
/// and shows what it is; then each hint of a log that does not exist, as `NoLog`. Logs without a hint are
/// not read. Writes nothing and takes no lock. Ends early if this is asked for.
///
/// # Errors
///
/// - `Folder` if the directory cannot be opened or listed, or memory for the reports is refused.
pub fn check_hints<S: SeesStates>(
    rt: &HostRuntime,
    path: &str,
    sees: &mut S,
) -> Result<(), HintingFault> {
    let alloc = rt.alloc();
    let mut disk = DirDisk::open_to_read(rt, path)?;
    let watch = disk.fault_watch(alloc)?;
    let mut hints = DirHints::new(rt, path)?;
    let names = Names::of(rt, path)?;
    for log in &names.logs {
        match compare_hint(alloc, &mut disk, &mut hints, *log) {
            // The log was removed meanwhile.
            Ok(HintState::NoLog) => {}
            Ok(state) => {
                if !sees.see(*log, state) {
                    return Ok(());
                }
            }
            Err(fault) => {
                let why = LogReason::of(alloc, fault, &watch, None)?;
                sees.fail(&LogFault { log: *log, why });
            }
        }
    }
    for log in &names.hints {
        if matches!(disk.length(alloc, *log), Err(DiskFault::NoLog))
            && !sees.see(*log, HintState::NoLog)
        {
            return Ok(());
        }
    }
    Ok(())
}
