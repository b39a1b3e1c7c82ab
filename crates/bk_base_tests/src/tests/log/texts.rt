//! The texts of errors.

use bk_log::{FetchFault, LogFault, ScanFault};
use std::alloc::Global;
use std::fmt::Display;
use std::process::Abort;

fn check<T: Display>(rt: &impl Abort, alloc: Global, fault: &T, text: &str) {
    let shown = fault.to_string(alloc).expect(rt, "a text");
    assert_eq!(rt; shown.as_str(), text);
}

#[test]
fn faults_have_their_texts(rt: HostRuntime) {
    for (fault, text) in [
        (LogFault::Disk, "disk"),
        (LogFault::Failed, "failed"),
        (LogFault::Memory, "memory"),
        (LogFault::Odd, "odd disk"),
    ] {
        check(&rt, rt.alloc(), &fault, text);
    }
    for (fault, text) in [
        (FetchFault::Disk, "disk"),
        (FetchFault::NotThere, "not there"),
        (FetchFault::Memory, "memory"),
        (FetchFault::Odd, "odd disk"),
    ] {
        check(&rt, rt.alloc(), &fault, text);
    }
    let bad = ScanFault::BadLength {
        at: 1049,
        length: -7,
    };
    for (fault, text) in [
        (bad, "bad length 1049 -7"),
        (ScanFault::Disk, "disk"),
        (ScanFault::Memory, "memory"),
        (ScanFault::Odd, "odd disk"),
    ] {
        check(&rt, rt.alloc(), &fault, text);
    }
}
