//! A bookie's own index in a directory: a compaction removes logs that it points into.

use bk_messages::CommandFault;
use std::fs;
use std::io::ErrorKind;

/// The names that a stock bookie gives its index files and its marks, in the directory of its logs.
const NAMES: [&str; 4] = ["VERSION", "lastMark", "locations", "ledgers"];

/// Returns the path of the first such name in the directory at a path; `None` if there is none.
///
/// # Errors
///
/// - `Name`: the system does not tell whether one of the names is there.
/// - `Memory`.
pub(crate) fn index_in(rt: &HostRuntime, path: &str) -> Result<Option<String>, CommandFault> {
    for name in NAMES {
        let path = format!(in rt.alloc(); "{path}/{name}")?;
        match fs::symlink_metadata(rt, path.as_str()) {
            Ok(_) => return Ok(Some(path)),
            Err(reason) if reason.kind() == ErrorKind::NotFound => {}
            Err(reason) => return Err(CommandFault::Name { path, reason }),
        }
    }
    Ok(None)
}
