//! Theorems about a crash of any store, each as a function that does nothing.

ghost use Rattle.std.specs.Prelude.{◌≡◌, ◌++◌, ℕ, List, take, true};
ghost use Rattle.std.specs.FinMap as map;
ghost use Rattle.bk_record.specs.Files.{Files, file_of};
ghost use Rattle.bk_record.specs.Scan.{Payloads};
ghost use Rattle.bk_crash.specs.Remaining.{MayRemain};
ghost use Rattle.bk_manifest.specs.Fact.{Fact};
ghost use Rattle.bk_manifest_disk.specs.declared.lack.Lack.{Lack};
ghost use Rattle.bk_manifest_disk.specs.Limiting.{LogLimits, shown_files};
ghost use Rattle.bk_manifest_disk.specs.Recording.{AreRecorded, durable_fronts};
ghost use Rattle.bk_manifest_disk.specs.Opening.{AreOpened, LacksBy};
ghost use Rattle.bk_store.specs.Representation.{Represents};
ghost use Rattle.bk_store.specs.Published.{IndexIsPublished};
ghost use Rattle.bk_store.specs.Logs.{open_parts};
ghost use Rattle.bk_store.specs.State.{State};
ghost use Rattle.bk_store.specs.Contents.{IsContents, written_at};
ghost use Rattle.bk_store.specs.Opening.{IsOpened};
ghost use Rattle.bk_store.specs.declared.settings.Settings.{Settings};
ghost use Rattle.bk_store.specs.Crash.{IsCut, OpensAs, MayLeave, AreSynced, RemovedFilesAreHarmless, StayDead, IsBetween};

/// What a crash leaves of a file opens as the file does. It is not longer. If it is as long as a
/// header, it has the same first eight bytes. If the file has no bad length, it has none.
pub fn a_cut_opens()
    ensures { (file left : List ℕ) → IsCut file left → OpensAs file left }
{}

/// A store that is opened after a crash has every published entry of a live ledger, and no entry
/// that the store before did not have.
///
/// Premises: the published part of the logs was synced, deleted ledgers stay deleted, and removed
/// files that are back are harmless.
pub fn a_crash_loses_nothing()
    ensures { (s t : State) (map : Payloads) (gone kept left : Files) (settings : Settings) (dead : List ℕ)
        → Represents (file_of s.files) s.index (written_at s) s.ledgers.dead map → IndexIsPublished (file_of s.files) (open_parts s.logs) s.index
        → RemovedFilesAreHarmless (file_of gone) s.index (written_at s) s.ledgers.dead map → AreSynced kept (open_parts s.logs)
        → MayLeave s.files gone kept left → IsOpened true left settings dead t → StayDead s.ledgers.dead t.ledgers.dead
        → (found : Payloads) × (IsContents found t × IsBetween s.index map t.ledgers.dead found) }
{}

/// What a second crash leaves of the files that a first one left, the first one may have left. So
/// crash safety holds as well if the opening after a crash is interrupted, any number of times: an
/// opening changes no file, and what was durable stays so.
pub fn a_second_crash_leaves_no_more()
    ensures { (files gone kept left again : Files)
        → MayLeave files gone kept left → MayLeave left map.empty kept again → MayLeave files gone kept again }
{}

/// On a device that may leave any bytes after the synced ones, opening the logs of a `KeptDisk` by
/// their manifest gives files that a crash may leave of that disk. So crash safety holds on such a
/// device too. And no such opening finds that durable bytes of a log are missing. Both hold also if
/// the manifest has some records that were noted and not yet durable.
pub fn a_manifest_makes_a_cut()
    ensures leaves { (files gone kept left seen : Files) (limits : LogLimits) (records noted : List Fact) (k : ℕ)
        → AreRecorded (shown_files limits files) (shown_files limits kept) gone records noted
        → MayRemain files gone kept (records ++ take k noted) left → AreOpened left (records ++ take k noted) seen
        → MayLeave (shown_files limits files) gone (durable_fronts (shown_files limits files) records (shown_files limits kept)) seen }
    ensures whole { (files gone kept left : Files) (limits : LogLimits) (records noted : List Fact) (k : ℕ)
        → AreRecorded (shown_files limits files) (shown_files limits kept) gone records noted
        → MayRemain files gone kept (records ++ take k noted) left → (lack : Lack) → ¬ (LacksBy (records ++ take k noted) left lack) }
{}
