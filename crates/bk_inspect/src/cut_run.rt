//! The command `seal --cut-torn`: on any disk, and on a directory of the system.

ghost use Rattle.std.specs.Prelude.{◌≡◌, ◌≤◌, IsTrue};
ghost use Rattle.bk_log.specs.Sealing.{KeepsEntries};
ghost use Rattle.bk_inspect.specs.Cutting.{CutsAndSeals, EndsAs, LosesNothing};
ghost use Rattle.bk_inspect.specs.Sealing.{SealLeaves};

use crate::Form;
use crate::aside_folder::AsideFolder;
use crate::cut::{NamedMap, cut_log};
use crate::cut_folder::CutFolder;
use crate::cut_told::{show_cut, tell_uncut};
use crate::cutting::{Aside, CutDisk};
use crate::fault::tell_fault;
use crate::folder::{open_to_seal, tell_folder, watch_of};
use crate::seal_run::run_seal_watched;
use bk_disk::{FaultWatch, LogDisk};
use std::alloc::Global;
use std::io::Write;

/// Repairs a log: cuts off what follows its last whole record, clears its header if the ledgers map
/// that it names is not there then, and seals the log. First all its bytes are copied aside. If a
/// call was killed after that, the next one goes on with its copy.
///
/// Writes `cut LOG at AT bytes N copy PLACE` if bytes are cut, and `cleared LOG map OFFSET count
/// COUNT copy PLACE` if the header is cleared. Then it does as `run_seal`, unless the log was cut
/// and its header is of version 0 or names a map that is there. If there is nothing to cut or to
/// clear, it does only as `run_seal`. Returns the program's status, as `run_seal` does.
///
/// # Errors
///
/// Those of `run_seal` but `torn N at AT` and `bad length AT N`. And:
///
/// - `copy exists: PLACE: it is no copy of FILE`: something else is at the place of the copy, or of
///   its draft. It stays, and the log is unchanged. The next line has the way on, `help: TEXT`.
/// - `disk: FILE: OPERATION: REASON`, the system's, `disk`, `memory`, `odd disk`: the log has all
///   its bytes, or its copy has them.
/// - `output`, `no room for a map`: the log may be cut and not sealed.
pub fn run_cut_and_seal<D: CutDisk, A: Aside, W: Write, E: Write>(
    alloc: Global,
    form: Form,
    disk: &mut D,
    aside: &mut A,
    log: u32,
    writer: &mut W,
    errors: &mut E,
) -> u8
    ensures status { result ≤ 1 }
    ensures honest { D.honest disk.new ≡ D.honest disk.old }
    ensures honest_aside { A.honest aside.new ≡ A.honest aside.old }
    ensures done { IsTrue (D.honest disk.old) → IsTrue (A.honest aside.old) → result ≡ 0
        → CutsAndSeals (D.files disk.old) (A.copies aside.old) log (D.files disk.new) (A.copies aside.new) (A.synced aside.new) }
    ensures leaves { IsTrue (D.honest disk.old) → IsTrue (A.honest aside.old)
        → LosesNothing (D.files disk.old) (A.copies aside.old) log (D.files disk.new) (A.copies aside.new) (A.synced aside.new) }
    ensures entries { IsTrue (D.honest disk.old) → IsTrue (A.honest aside.old)
        → KeepsEntries (D.files disk.old) (D.files disk.new) }
{
    run_cut_watched(alloc, form, None, disk, aside, log, writer, errors)
}

/// The same, with a watch that has the reason if a call of the system fails.
pub fn run_cut_watched<D: CutDisk, A: Aside, W: Write, E: Write>(
    alloc: Global,
    form: Form,
    watch: Option<&FaultWatch>,
    disk: &mut D,
    aside: &mut A,
    log: u32,
    writer: &mut W,
    errors: &mut E,
) -> u8
    ensures status { result ≤ 1 }
    ensures honest { D.honest disk.new ≡ D.honest disk.old }
    ensures honest_aside { A.honest aside.new ≡ A.honest aside.old }
    ensures done { IsTrue (D.honest disk.old) → IsTrue (A.honest aside.old) → result ≡ 0
        → CutsAndSeals (D.files disk.old) (A.copies aside.old) log (D.files disk.new) (A.copies aside.new) (A.synced aside.new) }
    ensures leaves { IsTrue (D.honest disk.old) → IsTrue (A.honest aside.old)
        → LosesNothing (D.files disk.old) (A.copies aside.old) log (D.files disk.new) (A.copies aside.new) (A.synced aside.new) }
{
    match cut_log(alloc, disk, aside, log) {
        Ok(None) => run_seal_watched(alloc, form, watch, disk, log, writer, errors),
        Ok(Some(cut)) => match show_cut(alloc, form, aside, log, &cut, writer) {
            Ok(()) => seal_cut(alloc, form, watch, disk, log, cut.map, writer, errors),
            Err(fault) => {
                tell_fault(alloc, form, Some(log), fault, errors);
                1
            }
        },
        Err(fault) => {
            tell_uncut(alloc, form, watch, disk, aside, log, fault, errors);
            1
        }
    }
}

/// Seals a log that was cut. Nothing is left to do if its header has no place for a map, or names
/// one that is there. Returns the status.
fn seal_cut<D: LogDisk, W: Write, E: Write>(
    alloc: Global,
    form: Form,
    watch: Option<&FaultWatch>,
    disk: &mut D,
    log: u32,
    map: NamedMap,
    writer: &mut W,
    errors: &mut E,
) -> u8
    ensures status { result ≤ 1 }
    ensures honest { D.honest disk.new ≡ D.honest disk.old }
    ensures done { IsTrue (D.honest disk.old) → result ≡ 0 → EndsAs map (D.files disk.old) log (D.files disk.new) }
    ensures leaves { IsTrue (D.honest disk.old) → SealLeaves (D.files disk.old) log (D.files disk.new) }
{
    match map {
        NamedMap::Old | NamedMap::Whole => 0,
        NamedMap::Unnamed | NamedMap::Lost => {
            run_seal_watched(alloc, form, watch, disk, log, writer, errors)
        }
    }
}

/// Cuts and seals a log of the directory at a path, as `run_cut_and_seal` does on a disk. The copy
/// of log 31 is the file `1f.log.torn` in the directory, its draft `1f.log.torn.new`. It takes the
/// writer lock and refuses a log with two names, as `run_seal_folder`.
pub fn run_cut_and_seal_folder<W: Write, E: Write>(
    rt: &HostRuntime,
    form: Form,
    path: &str,
    log: u32,
    writer: &mut W,
    errors: &mut E,
) -> u8
    ensures { result ≤ 1 }
{
    match open_to_seal(rt, path, log) {
        Ok(disk) => {
            let alloc = rt.alloc();
            let watch = watch_of(alloc, &disk);
            let watch = watch.as_ref();
            let mut disk = CutFolder::new(rt, path, disk);
            let mut aside = AsideFolder::new(rt, path);
            run_cut_watched(
                alloc, form, watch, &mut disk, &mut aside, log, writer, errors,
            )
        }
        Err(fault) => {
            let _ = tell_folder(rt.alloc(), form, &fault, errors);
            1
        }
    }
}
