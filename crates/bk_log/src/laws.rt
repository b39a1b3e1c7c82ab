//! Theorems about the definitions, each as a function that does nothing.

ghost use Rattle.std.specs.Prelude.{ℕ, List, [], Result};
ghost use Rattle.bk_record.specs.Files.{Files};
ghost use Rattle.bk_record.specs.Location.{Place};
ghost use Rattle.bk_record.specs.Record.{IsPayload};
ghost use Rattle.bk_log.specs.declared.fault.CreateFault.{CreateFault};
ghost use Rattle.bk_log.specs.declared.fault.LogFault.{LogFault};
ghost use Rattle.bk_log.specs.Growing.{Gains, PutGains};
ghost use Rattle.bk_log.specs.Places.{StandsOnce};
ghost use Rattle.bk_log.specs.Ranges.{GoesOn, IsPassed, IsWholePart, part};
ghost use Rattle.bk_log.specs.Sizes.{AddsUp};
ghost use Rattle.bk_log.specs.Writing.{WriterCreateTransition, WriterPutTransition, Writes, Writing};

/// A scan from the header's end to a log's end is a scan of the log: the same entries, foreign
/// records and rest.
pub fn whole_log_is_one_part()
    ensures { (file : List ℕ) → IsWholePart file }
{}

/// A scan that begins after an entry that another scan gave, with the same end, gives the entries
/// after it and has the same end or bad length. (`next` states of each entry that all before it and
/// itself are passed.)
pub fn a_scan_goes_on()
    ensures { (file : List ℕ) (from end at given foreign : ℕ)
        → IsPassed from (part file from end) at (part file at end) given foreign → GoesOn file from end at given foreign }
{}

/// At each position of a log there is at most one record, so a fetch has one result. A record of
/// the log's list with its payload there is that record; also of the computed list, if the log's
/// numbers are bytes.
pub fn one_record_at_a_place()
    ensures { (file : List ℕ) (at : ℕ) → StandsOnce file at }
{}

/// The sizes of a ledgers map are, for each ledger, the sum of the bytes of its records, with their
/// length fields.
pub fn sizes_are_sums()
    ensures { (records : List (ℕ × List ℕ)) (ledger : ℕ) → AddsUp records ledger }
{}

/// Creating a log and appending a record change no other log and add no record before an existing
/// one. With any result, a new log has no record, and the log written has at most one more, the one
/// appended.
pub fn logs_only_grow()
    ensures created { (files files' : Files) (log : ℕ) (result : Result Writing CreateFault)
        → WriterCreateTransition files log result files' → Gains files log [] files' }
    ensures put { (files files' : Files) (w : Writing) (payload : List ℕ) (result : Result Place LogFault) → Writes files w
        → IsPayload payload → WriterPutTransition files w payload result files' → PutGains files w payload result files' }
{}
