//! Hints of logs in memory and in a directory.

mod folder;
mod logs;
mod memory;
