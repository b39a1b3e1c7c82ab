//! View of a log of a `SimDisk`.

ghost use Rattle.std.specs.Prelude.{[], false};

use crate::sim_log::SimLog;
use bk_disk::{DiskFault, LogView};
use bk_record::HEADER_LENGTH;

/// The position at which a view begins.
const HEADER: u64 = HEADER_LENGTH as u64;

/// A view of a log of a `SimDisk`. Its bytes stay while the log changes or is removed. It claims no
/// honesty.
#[derive(Drop)]
pub struct SimView {
    log: SimLog,
}

impl SimView {
    pub(crate) fn new(log: SimLog) -> SimView {
        SimView { log }
    }
}

impl LogView for SimView {
    ghost bytes = { λ _. [] };

    ghost honest = { λ _. false };

    ghost sound = { λ _. false };

    fn bounds(&self) {}

    fn end(&self) -> u64 {
        self.log.len().max(HEADER)
    }

    fn read_into(&self, at: u64, out: &mut [u8]) -> Result<(), DiskFault> {
        let end = self.end();
        if at < HEADER || end < at || end - at < out.len() as u64 {
            return Err(DiskFault::PastEnd);
        }
        self.log.read_into(at, out);
        Ok(())
    }
}
