//! The log of all locations of a page, if it is known.

ghost use Rattle.std.specs.Prelude.{◌≡◌, ◌<◌, ◌^◌};

use bk_record::Location;

/// Stands for a log that is not known: no log has this id.
pub(crate) const UNKNOWN: u32 = u32::MAX;

/// Returns the log of locations that are in this one, and of a further one: the same or `UNKNOWN`.
#[inline]
pub(crate) fn joint(log: u32, location: &Location) -> u32
    ensures { result < 2 ^ 31 → (result ≡ log) × (location.now.log ≡ log) }
{
    if location.log() == log { log } else { UNKNOWN }
}
