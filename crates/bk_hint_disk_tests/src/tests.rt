//! Openings of entry logs with hints, without them, and with hints that must not be believed.
//!
//! Bytes of logs are written by hand (`logs.rt`).

mod crash;
mod damaged;
mod drive;
mod earlier;
mod failing;
mod folder;
mod logs;
mod loose;
mod meter;
mod opened;
mod random;
mod reasons;
mod refused;
mod runs;
