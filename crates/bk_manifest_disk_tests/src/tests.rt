//! Disks that are opened by their manifest: in memory, with failures, and on a directory.

mod cut;
mod failing;
mod folder;
mod kit;
mod refused;
mod table;
mod truncated;
