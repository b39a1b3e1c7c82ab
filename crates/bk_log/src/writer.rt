//! Writer of a log. Records are only appended, so the writer knows the length without a call of the
//! disk. A failed write may have left a part of a record, so nothing is appended after it.

ghost use Rattle.std.specs.Prelude.{◌≡◌, ◌<◌, ◌^◌, IsTrue, IfOk, IsErrAnd};
ghost use Rattle.bk_head.specs.Header.{empty_header};
ghost use Rattle.bk_disk.specs.Disk.{FailsExactlyIf};
ghost use Rattle.bk_disk.specs.Durable.{DurableGrows};

mod put;
mod seal;

use crate::calls::append;
use crate::fault::log_fault;
use crate::sizes::LedgerSizes;
use crate::{CreateFault, LogFault};
use bk_disk::LogDisk;
use bk_head::new_header;
use bk_record::HEADER_LENGTH;
use std::alloc::Global;
use std::marker::Model;

/// Length of a log's header in bytes.
const HEADER: u32 = HEADER_LENGTH as u32;

/// Writer of one log. Contracts see its id, its length, the number and the sizes of its records,
/// and whether a write failed (`specs/Writing.antt`). `buffer` has room for one record, so that a
/// `put` of a record of the same size does not allocate.
#[derive(Drop)]
pub struct LogWriter {
    log: u32,
    end: u32,
    count: u32,
    sizes: LedgerSizes,
    failed: bool,
    buffer: Vec<u8>,
}

impl Model for LogWriter {
    ghost use Rattle.bk_log.specs.Writing.{Writing, writing_code, IsCounted};

    ghost Value = { Writing };

    ghost coded = { writing_code };

    ghost view = { λ w. record { log = w.log; end = w.end; count = w.count; sizes = w.sizes.sizes; failed = w.failed } };

    ghost invariant = { λ w. IsCounted w.log w.end w.count w.sizes.sizes };
}

impl LogWriter {
    ghost use Rattle.bk_log.specs.Writing.{new_writing, WriterCreateTransition, Writes};

    /// Creates the log's file and writes its header. Requires an id of at most 2^31 - 1.
    ///
    /// # Errors
    ///
    /// Each with `made`, whether this call created the file. If so, it has a part of the header or
    /// none of it; otherwise the files are unchanged. `Disk` can occur at any point, the others in
    /// this order:
    ///
    /// - `Odd` if a file of this id exists.
    /// - `Memory`, only if none exists.
    /// - `Disk` if the device failed.
    #[tactic(auto, using(bk_disk::proofs::DurableGrows::kept_rules))]
    pub fn create<D: LogDisk>(
        disk: &mut D,
        alloc: Global,
        log: u32,
    ) -> Result<LogWriter, CreateFault>
        requires { log < 2 ^ 31 }
        ensures honest { D.honest disk.new ≡ D.honest disk.old }
        ensures durable { IsTrue (D.honest disk.old) → DurableGrows (D.synced disk.old) (D.gone disk.old) (D.synced disk.new) (D.gone disk.new) }
        ensures cause { FailsExactlyIf (D.failures disk.old) (D.failures disk.new)
            (IsErrAnd result (λ f. f.fault ≡ LogFault.Disk)) }
        ensures ok { IfOk result (λ w. w ≡ new_writing log) }
        ensures transition { IsTrue (D.honest disk.old) → WriterCreateTransition (D.files disk.old) log result (D.files disk.new) }
        ensures writes { IsTrue (D.honest disk.old) → IfOk result (λ w. Writes (D.files disk.new) w) }
    {
        if let Err(fault) = disk.create(alloc, log) {
            return Err(CreateFault {
                made: false,
                fault: log_fault(fault),
            });
        }
        if let Err(fault) = append(disk, alloc, log, &header_bytes()) {
            return Err(CreateFault { made: true, fault });
        }
        Ok(LogWriter {
            log,
            end: HEADER,
            count: 0,
            sizes: LedgerSizes::new(alloc),
            failed: false,
            buffer: Vec::new(alloc),
        })
    }

    /// Returns the log's id.
    pub fn log(&self) -> u32
        ensures value { result ≡ self.now.log }
        ensures bound { result < 2 ^ 31 }
    {
        self.log
    }

    /// Returns the log's length in bytes, as far as records were written: at most 2^32 - 1.
    pub fn length(&self) -> u64
        ensures value { result ≡ self.now.end }
        ensures bound { result < 2 ^ 32 }
    {
        u64::from(self.end)
    }

    /// Returns the number of records written.
    pub fn records(&self) -> u32
        ensures { result ≡ self.now.count }
    {
        self.count
    }

    /// Returns whether a write failed, so that the log takes no further record.
    pub fn failed(&self) -> bool
        ensures { result ≡ self.now.failed }
    {
        self.failed
    }
}

/// Returns the header of a new log.
fn header_bytes() -> [u8; HEADER_LENGTH]
    ensures { result ≡ empty_header }
{
    new_header()
}
