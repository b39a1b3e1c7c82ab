//! Records whose heads the view knows, as entries that a scan passes at once.

ghost use Rattle.std.specs.Prelude.{IfSome};
ghost use Rattle.bk_log.specs.Fronts.{HasWholeFirst, IsWholeRun};

use bk_disk::RecordRun;

/// Number of entry ids.
const IDS: u64 = 1 << 63;

/// Returns the size of all records of a run in bytes, if they are within `left` bytes and each has
/// an entry id of at most 2^63 - 1.
pub(crate) fn size_of_run(run: &RecordRun, left: u64) -> Option<u64>
    requires { HasWholeFirst left run.now }
    ensures { IfSome result (IsWholeRun left run.now) }
{
    let count = u64::from(run.count);
    let size = count * u64::from(run.size);
    (size <= left && run.first.entry() <= IDS - count).then_some(size)
}
