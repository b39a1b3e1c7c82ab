//! Calls of `script`.

use bk_commands::{DEFAULTS, script_call};
use bk_drive::Settings;
use std::alloc::Global;
use std::test::Fail;

/// Words behind the program's name, and the folder that they ask for.
const FOLDERS: [(&[&str], Option<&str>); 4] = [
    (&["script"], None),
    (&["script", "--folder", "logs"], Some("logs")),
    (&["script", "4", "--folder=a b", "--minor=0"], Some("a b")),
    (&["script", "--", "4"], None),
];

/// Whether words behind the program's name ask for this folder.
fn is_folder(alloc: Global, behind: &[&str], folder: Option<&str>) -> Result<bool, Fail> {
    let mut words = vec![in alloc; "any name"]?;
    words.extend_from_slice(behind)?;
    match script_call(alloc, &words) {
        Ok(call) => Ok(call.folder == folder),
        Err(_) => Ok(false),
    }
}

#[test]
fn words_give_the_folder(rt: HostRuntime) -> Result<(), Fail> {
    for (behind, folder) in FOLDERS.iter() {
        assert!(rt; is_folder(rt.alloc(), behind, *folder)?, "{behind:?}");
    }
    Ok(())
}

/// Words behind the program's name, the settings that they ask for, and the ledgers.
const CALLS: [(&[&str], Settings, &[u64]); 12] = [
    (&["script"], DEFAULTS, &[]),
    (
        &["script", "--slots", "1"],
        Settings {
            slots: 1,
            ..DEFAULTS
        },
        &[],
    ),
    (
        &[
            "script",
            "--slots=65536",
            "--recent=65536",
            "--leases=65535",
        ],
        Settings {
            slots: 65_536,
            leases: 65_535,
            recent: 65_536,
            ..DEFAULTS
        },
        &[],
    ),
    (
        &["script", "--log-limit", "2048", "--cache-limit", "16"],
        Settings {
            log_limit: 2048,
            cache_limit: 16,
            ..DEFAULTS
        },
        &[],
    ),
    (
        &[
            "script",
            "--cache-limit=1073741824",
            "--log-limit=4000000000",
        ],
        Settings {
            cache_limit: 1_073_741_824,
            log_limit: 4_000_000_000,
            ..DEFAULTS
        },
        &[],
    ),
    (
        &[
            "script",
            "--recent",
            "1",
            "--log-limit=2049",
            "--slots",
            "7",
        ],
        Settings {
            recent: 1,
            log_limit: 2049,
            slots: 7,
            ..DEFAULTS
        },
        &[],
    ),
    (
        &["script", "--minor=0", "--major", "0"],
        Settings {
            minor: 0,
            major: 0,
            ..DEFAULTS
        },
        &[],
    ),
    (
        &["script", "--major=1000", "4", "--minor", "1000"],
        Settings {
            minor: 1000,
            major: 1000,
            ..DEFAULTS
        },
        &[4],
    ),
    (&["script", "--recent", "0", "9"], DEFAULTS, &[9]),
    (
        &["script", "0", "9223372036854775807", "0"],
        DEFAULTS,
        &[0, 9_223_372_036_854_775_807, 0],
    ),
    (
        &["script", "3", "--slots", "7", "2"],
        Settings {
            slots: 7,
            ..DEFAULTS
        },
        &[3, 2],
    ),
    (&["script", "--", "3", "2"], DEFAULTS, &[3, 2]),
];

/// Whether words behind the program's name ask for these settings and ledgers.
fn is_asked(
    alloc: Global,
    behind: &[&str],
    settings: &Settings,
    dead: &[u64],
) -> Result<bool, Fail> {
    let mut words = vec![in alloc; "any name"]?;
    words.extend_from_slice(behind)?;
    match script_call(alloc, &words) {
        Ok(call) => Ok(call.settings == *settings && call.dead.as_slice() == dead),
        Err(_) => Ok(false),
    }
}

#[test]
fn words_give_the_settings_and_the_dead_ledgers(rt: HostRuntime) -> Result<(), Fail> {
    for (behind, settings, dead) in CALLS.iter() {
        assert!(rt; is_asked(rt.alloc(), behind, settings, dead)?, "{behind:?}");
    }
    Ok(())
}
