//! Wrong command lines, and calls for help.

use bk_commands::script_call;
use std::alloc::Global;

/// Words that are no call of `script`, and the status that they end with.
const LINES: [(&[&str], i32); 50] = [
    (&["bk_shell"], 2),
    (&["bk_shell", "frob"], 2),
    (&["bk_shell", "--slots", "5"], 2),
    (&["bk_shell", "--log-limit=2048", "script"], 2),
    (&["bk_shell", "script", "script"], 2),
    (&["bk_shell", "script", "1", "x"], 2),
    (&["bk_shell", "script", "05"], 2),
    (&["bk_shell", "script", "+5"], 2),
    (&["bk_shell", "script", "-5"], 2),
    (&["bk_shell", "script", ""], 2),
    (&["bk_shell", "script", "1", "9223372036854775808"], 2),
    (&["bk_shell", "script", "18446744073709551617"], 2),
    (&["bk_shell", "script", "--slots", "5", "--", "--slots"], 2),
    (&["bk_shell", "script", "--slot", "5"], 2),
    (&["bk_shell", "script", "-s", "5"], 2),
    (&["bk_shell", "script", "--minor", "1001"], 2),
    (&["bk_shell", "script", "--minor", "-1"], 2),
    (&["bk_shell", "script", "--minor="], 2),
    (&["bk_shell", "script", "--minor=1", "--minor=1"], 2),
    (&["bk_shell", "script", "--major=1001"], 2),
    (&["bk_shell", "script", "--major", "0x1"], 2),
    (&["bk_shell", "script", "--major", "01"], 2),
    (&["bk_shell", "script", "--major"], 2),
    (&["bk_shell", "script", "--slots"], 2),
    (&["bk_shell", "script", "--slots="], 2),
    (&["bk_shell", "script", "--slots", ""], 2),
    (&["bk_shell", "script", "--slots", "0"], 2),
    (&["bk_shell", "script", "--slots", "65537"], 2),
    (&["bk_shell", "script", "--leases", "0"], 2),
    (&["bk_shell", "script", "--leases", "65536"], 2),
    (
        &["bk_shell", "script", "--slots", "18446744073709551617"],
        2,
    ),
    (&["bk_shell", "script", "--slots", "+5"], 2),
    (&["bk_shell", "script", "--slots", "-5"], 2),
    (&["bk_shell", "script", "--slots", "05"], 2),
    (&["bk_shell", "script", "--slots", "5 "], 2),
    (&["bk_shell", "script", "--slots", "5", "--slots", "5"], 2),
    (&["bk_shell", "script", "--cache-limit", "15"], 2),
    (&["bk_shell", "script", "--cache-limit", "1073741825"], 2),
    (&["bk_shell", "script", "--recent", "65537"], 2),
    (&["bk_shell", "script", "--recent", "00"], 2),
    (&["bk_shell", "script", "--recent", "1", "--recent", "1"], 2),
    (&["bk_shell", "script", "--log-limit", "2047"], 2),
    (&["bk_shell", "script", "--log-limit", "4000000001"], 2),
    (
        &["bk_shell", "script", "--log-limit=2048", "--log-limit=2048"],
        2,
    ),
    (&["bk_shell", "script", "--folder"], 2),
    (&["bk_shell", "script", "--folder", "a", "--folder", "a"], 2),
    (&["bk_shell", "help"], 0),
    (&["bk_shell", "--help"], 0),
    (&["bk_shell", "help", "script"], 0),
    (&["bk_shell", "script", "--help"], 0),
];

/// Returns the status of words; `None` if they are a call of `script`.
fn status_of(alloc: Global, words: &[&str]) -> Option<i32> {
    match script_call(alloc, words) {
        Ok(_) => None,
        Err(error) => Some(error.exit_code()),
    }
}

#[test]
fn a_wrong_command_line_has_status_2_and_help_has_0(rt: HostRuntime) {
    for (words, status) in LINES.iter() {
        assert!(rt; status_of(rt.alloc(), words) == Some(*status), "{words:?}");
    }
}
