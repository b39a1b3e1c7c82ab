//! The names of logs' files.

use bk_disk::{log_of, name_of};
use std::alloc::Global;

const NAMES: [(u32, &str); 5] = [
    (0, "0.log"),
    (9, "9.log"),
    (10, "a.log"),
    (31, "1f.log"),
    (2_147_483_647, "7fffffff.log"),
];

const OTHERS: [&str; 9] = [
    "01f.log",
    "80000000.log",
    "1F.log",
    "+1.log",
    ".log",
    "0.log.compacted",
    "0",
    "g.log",
    "100000000.log",
];

// Whether a log's file has this name, and the name is that log's.
fn is_named(alloc: Global, log: u32, name: &str) -> bool {
    if log >= 2_147_483_648 {
        return false;
    }
    match name_of(alloc, log) {
        Ok(named) => named.as_str() == name && log_of(name) == Some(log),
        Err(_) => false,
    }
}

#[test]
fn names_and_logs(rt: HostRuntime) {
    for (log, name) in &NAMES {
        assert!(rt; is_named(rt.alloc(), *log, name), "{name}");
    }
    for other in &OTHERS {
        assert!(rt; log_of(other).is_none(), "{other}");
    }
}
