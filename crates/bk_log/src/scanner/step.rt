//! One step of a scan.

ghost use Rattle.std.specs.Prelude.{IsTrue, IfSome};

use crate::front::Front;
use crate::{Found, ScanFault, Scanner};
use bk_disk::LogView;

impl<'a, V: LogView> Scanner<'a, V> {
    ghost use Rattle.bk_log.specs.Scanning.{is_going, IsGiven, StepMoves};

    /// Parses the piece at the position: returns an entry, or passes a piece, or ends the scan.
    pub(super) fn step(&mut self) -> Option<Found>
        requires { IsTrue (is_going self.old) }
        ensures moves { StepMoves self.old result self.new }
        ensures transition { IsTrue self.old.honest → IfSome result (λ found. IsGiven self.old found self.new.foreign) }
    {
        let at = self.window.at();
        let left = self.end - at;
        match self.window.front(left) {
            Ok(Front::Record { size, key }) => {
                self.window.skip(u64::from(size));
                let Some(key) = key else {
                    self.foreign += 1;
                    return None;
                };
                self.given += 1;
                Some(Found {
                    key,
                    at: at + 4,
                    size,
                })
            }
            Ok(Front::Rest) => {
                self.torn = left;
                self.ended = true;
                None
            }
            Ok(Front::Bad(length)) => {
                self.fault = Some(ScanFault::BadLength { at, length });
                None
            }
            Err(fault) => {
                self.fault = Some(fault);
                None
            }
        }
    }
}
