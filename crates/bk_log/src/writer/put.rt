//! Appending one record. All steps that can fail without the disk precede its call, so such an
//! error leaves the writer unchanged.

ghost use Rattle.std.specs.Prelude.{◌≡◌, ◌+◌, ◌<◌, ◌^◌, false, IsTrue, IsSome, IsErrOf, OnOk, length};
ghost use Rattle.bk_record.specs.Record.{IsPayload, key_of as payload_key, ledger_field, record_of};
ghost use Rattle.bk_disk.specs.Disk.{FailsExactlyIf};
ghost use Rattle.bk_disk.specs.Durable.{DurableGrows};

use crate::calls::append;
use crate::{LogFault, LogWriter};
use bk_disk::LogDisk;
use bk_record::{Location, RecordFault, key_of, write_record};
use std::alloc::Global;

impl LogWriter {
    ghost use Rattle.bk_log.specs.Writing.{Puts, WriterPutTransition, Writes};

    /// Appends the record of a payload and returns the location of the payload, which is after its
    /// length field.
    ///
    /// Requires a payload of 16 to 2^31 - 1 bytes that has a key, and a log of at most 2^32 - 1
    /// bytes after the call.
    ///
    /// # Errors
    ///
    /// In this order:
    ///
    /// - `Failed` if an earlier write failed; the disk is not called.
    /// - `Memory`; writer and files are unchanged. Also possible from the disk.
    /// - `Disk`; a prefix of the record may be written, and every further call fails with `Failed`.
    /// - `Odd`, not on an honest disk; every further call fails with `Failed`.
    #[tactic(auto, using(bk_disk::proofs::DurableGrows::kept_rules))]
    pub fn put<D: LogDisk>(
        &mut self,
        disk: &mut D,
        alloc: Global,
        payload: &[u8],
    ) -> Result<Location, LogFault>
        requires payload { IsPayload payload.now }
        requires keyed { IsSome (payload_key payload.now) }
        requires fits { self.old.end + 4 + length payload.now < 2 ^ 32 }
        requires writes { IsTrue (D.honest disk.old) → self.old.failed ≡ false → Writes (D.files disk.old) self.old }
        ensures honest { D.honest disk.new ≡ D.honest disk.old }
        ensures durable { IsTrue (D.honest disk.old) → DurableGrows (D.synced disk.old) (D.gone disk.old) (D.synced disk.new) (D.gone disk.new) }
        ensures cause { FailsExactlyIf (D.failures disk.old) (D.failures disk.new) (IsErrOf result LogFault.Disk) }
        ensures writer { Puts self.old payload.now result self.new }
        ensures untouched { IsErrOf result LogFault.Failed → disk.new ≡ disk.old }
        ensures transition { IsTrue (D.honest disk.old)
            → WriterPutTransition (D.files disk.old) self.old payload.now result (D.files disk.new) }
        ensures writes { IsTrue (D.honest disk.old) → self.new.failed ≡ false → Writes (D.files disk.new) self.new }
    {
        if self.failed {
            return Err(LogFault::Failed);
        }
        let size = payload.len() as u32 + 4;
        let location = Location::pack(self.log, self.end + 4).unwrap();
        let ledger = ledger_of(payload);
        let Ok(()) = set_record(&mut self.buffer, payload) else {
            return Err(LogFault::Memory);
        };
        let Ok(()) = self.sizes.turn_to(ledger) else {
            return Err(LogFault::Memory);
        };
        if let Err(fault) = append(disk, alloc, self.log, &self.buffer) {
            self.failed = fault.is_lasting();
            return Err(fault);
        }
        self.sizes.add(u64::from(size));
        self.end += size;
        self.count += 1;
        Ok(location)
    }
}

/// Returns the ledger of a payload that has a key.
fn ledger_of(payload: &[u8]) -> u64
    requires payload { IsPayload payload.now }
    requires keyed { IsSome (payload_key payload.now) }
    ensures value { result ≡ ledger_field payload.now }
    ensures bound { result < 2 ^ 63 }
{
    key_of(payload).unwrap().ledger()
}

/// Replaces the contents of the buffer by the record of a payload.
fn set_record(buffer: &mut Vec<u8>, payload: &[u8]) -> Result<(), RecordFault>
    requires { IsPayload payload.now }
    ensures { OnOk result (buffer.new.items ≡ record_of payload.now) }
{
    buffer.clear();
    write_record(payload, buffer)
}
