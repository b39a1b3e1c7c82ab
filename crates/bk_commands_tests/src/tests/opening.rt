//! The line that tells how far the opening of a folder is.

use bk_commands::Opened;
use std::test::Fail;

/// Logs, how many of them are done, how many by hints, the bytes of the others, whole seconds, and the
/// line.
const LINES: [(u64, u64, u64, u64, u64, &str); 6] = [
    (10, 0, 0, 0, 1, "opening: 0 of 10 logs, 0 MB read, 0 MB/s"),
    (
        10,
        3,
        0,
        1_234_999_999,
        2,
        "opening: 3 of 10 logs, 1234 MB read, 617 MB/s",
    ),
    (
        2,
        1,
        0,
        999_999,
        1,
        "opening: 1 of 2 logs, 0 MB read, 0 MB/s",
    ),
    (1, 1, 0, 7_000_000, 0, "opening: 1 of 1 logs, 7 MB read"),
    (
        9,
        8,
        7,
        3_000_000,
        1,
        "opening: 8 of 9 logs, 7 by hints, 3 MB read, 3 MB/s",
    ),
    (
        65_536,
        65_535,
        0,
        u64::MAX,
        86_400,
        "opening: 65535 of 65536 logs, 18446744073709 MB read, 213503982 MB/s",
    ),
];

#[test]
fn the_line_tells_what_was_read_and_how_fast(rt: HostRuntime) -> Result<(), Fail> {
    for (logs, done, hinted, bytes, seconds, line) in &LINES {
        let opened = Opened {
            logs: *logs,
            done: *done,
            hinted: *hinted,
            bytes: *bytes,
            seconds: *seconds,
        };
        let told = format!(in rt.alloc(); "{opened}")?;
        assert_eq!(rt; told.as_str(), *line);
    }
    Ok(())
}
