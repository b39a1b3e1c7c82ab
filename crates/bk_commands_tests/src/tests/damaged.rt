//! What is told of a manifest that is damaged or does not fit: each fault by its kind, and the way on
//! that fits the manifest, as text and as an object.

use super::durable::{FIRST, fill, flip};
use super::folder::{Row, TOLD, check};
use super::run;
use std::fs;
use std::test::Fail;

/// Makes a directory by a script that writes two batches to each manifest, damages the first batch of
/// one, and makes a file of no entries beside the directory.
fn hurt(rt: &HostRuntime, folder: &str, name: &str) -> Result<(), Fail> {
    fill(rt, folder, FIRST)?;
    for step in ["delete 2\n", "fence 1\n"] {
        let _ = run(rt, &["bk_shell", "script", "--folder", folder], step);
    }
    let path = format!(in rt.alloc(); "{folder}/{name}")?;
    let mut bytes = fs::read(rt, path.as_str())?;
    flip(&mut bytes, 30, 1);
    fs::write(rt, path.as_str(), &bytes)?;
    let empty = format!(in rt.alloc(); "{folder}.records")?;
    fs::write(rt, empty.as_str(), b"".as_slice())?;
    Ok(())
}

/// Removes both.
fn clear(rt: &HostRuntime, folder: &str) -> Result<(), Fail> {
    let empty = format!(in rt.alloc(); "{folder}.records")?;
    fs::remove_file(rt, empty.as_str())?;
    fs::remove_dir_all(rt, folder)?;
    Ok(())
}

/// Calls on a directory whose manifest of ledgers is damaged.
const LEDGERS: [Row<'static>; 5] = [
    Row {
        words: &["bk_shell", "--json", "stat", "bk_shell_bad_ledgers"],
        errors: "{\"fault\":\"manifest\",\"reason\":\"damaged manifest 24 in bk_shell_bad_ledgers/ledgers.manifest\",\"help\":\"'./bookie manifest --rebuild' makes a new one of the records before the damage, and keeps the old file\"}\n",
        ..TOLD
    },
    Row {
        words: &["bk_shell", "--json", "compact", "bk_shell_bad_ledgers"],
        errors: "{\"fault\":\"manifest\",\"reason\":\"damaged manifest 24 in bk_shell_bad_ledgers/ledgers.manifest\",\"help\":\"'./bookie manifest --rebuild' makes a new one of the records before the damage, and keeps the old file\"}\n",
        ..TOLD
    },
    Row {
        words: &[
            "bk_shell",
            "--json",
            "import",
            "bk_shell_bad_ledgers",
            "bk_shell_bad_ledgers.records",
        ],
        errors: "{\"fault\":\"manifest\",\"reason\":\"damaged manifest 24 in bk_shell_bad_ledgers/ledgers.manifest\",\"help\":\"'./bookie manifest --rebuild' makes a new one of the records before the damage, and keeps the old file\"}\n",
        ..TOLD
    },
    Row {
        words: &["bk_shell", "stat", "bk_shell_bad_ledgers"],
        errors: "fault damaged manifest 24 in bk_shell_bad_ledgers/ledgers.manifest\nhelp: './bookie manifest --rebuild' makes a new one of the records before the damage, and keeps the old file\n",
        ..TOLD
    },
    Row {
        words: &[
            "bk_shell",
            "--json",
            "manifest",
            "--check",
            "bk_shell_bad_ledgers",
        ],
        output: "{\"manifest\":\"logs.manifest\",\"generation\":0,\"records\":2,\"standing\":1,\"torn\":0}\n",
        errors: "{\"fault\":\"bad manifest\",\"reason\":\"damaged manifest 24 in bk_shell_bad_ledgers/ledgers.manifest\",\"help\":\"'./bookie manifest --rebuild' makes a new one of the records before the damage, and keeps the old file\"}\n",
        ..TOLD
    },
];

#[test]
fn a_damaged_manifest_of_ledgers_has_its_way_on_in_each_form(rt: HostRuntime) -> Result<(), Fail> {
    hurt(&rt, "bk_shell_bad_ledgers", "ledgers.manifest")?;
    check(&rt, &rt, &LEDGERS);
    clear(&rt, "bk_shell_bad_ledgers")
}

/// Calls on a directory whose manifest of logs is damaged.
const LOGS: [Row<'static>; 4] = [
    Row {
        words: &["bk_shell", "manifest", "--check", "bk_shell_bad_logs"],
        output: "ledgers.manifest generation 0 records 0 standing 0 torn 0\n",
        errors: "fault damaged manifest 24 in bk_shell_bad_logs/logs.manifest\nhelp: './bookie manifest --rebuild' makes a new one that takes all logs as they are, and keeps the old file\n",
        ..TOLD
    },
    Row {
        words: &["bk_shell", "--json", "manifest", "bk_shell_bad_logs"],
        output: "{\"manifest\":\"ledgers.manifest\",\"generation\":0,\"records\":0,\"standing\":0,\"torn\":0}\n",
        errors: "{\"fault\":\"bad manifest\",\"reason\":\"damaged manifest 24 in bk_shell_bad_logs/logs.manifest\",\"help\":\"'./bookie manifest --rebuild' makes a new one that takes all logs as they are, and keeps the old file\"}\n",
        ..TOLD
    },
    Row {
        words: &[
            "bk_shell",
            "--json",
            "compact",
            "--dry-run",
            "bk_shell_bad_logs",
        ],
        errors: "{\"fault\":\"manifest\",\"reason\":\"damaged manifest 24 in bk_shell_bad_logs/logs.manifest\",\"help\":\"'./bookie manifest --rebuild' makes a new one that takes all logs as they are, and keeps the old file\"}\n",
        ..TOLD
    },
    Row {
        words: &[
            "bk_shell",
            "--json",
            "import",
            "bk_shell_bad_logs",
            "bk_shell_bad_logs.records",
        ],
        errors: "{\"fault\":\"manifest\",\"reason\":\"logs.manifest: damaged manifest 24\",\"help\":\"'./bookie manifest --rebuild' makes a new one that takes all logs as they are, and keeps the old file\"}\n",
        ..TOLD
    },
];

#[test]
fn a_damaged_manifest_of_logs_has_its_own_way_on(rt: HostRuntime) -> Result<(), Fail> {
    fill(&rt, "bk_shell_bad_logs", FIRST)?;
    let path = "bk_shell_bad_logs/logs.manifest";
    let mut bytes = fs::read(&rt, path)?;
    flip(&mut bytes, 30, 1);
    fs::write(&rt, path, &bytes)?;
    fs::write(&rt, "bk_shell_bad_logs.records", b"".as_slice())?;
    check(&rt, &rt, &LOGS);
    clear(&rt, "bk_shell_bad_logs")
}

/// Calls on a directory with a directory in the manifest's place.
const NOT_PLAIN: [Row<'static>; 2] = [
    Row {
        words: &["bk_shell", "--json", "stat", "bk_shell_no_plain"],
        errors: "{\"fault\":\"disk\",\"file\":\"bk_shell_no_plain/ledgers.manifest\",\"reason\":\"no plain file\"}\n",
        ..TOLD
    },
    Row {
        words: &["bk_shell", "--json", "compact", "bk_shell_no_plain"],
        errors: "{\"fault\":\"disk\",\"file\":\"bk_shell_no_plain/ledgers.manifest\",\"reason\":\"no plain file\"}\n",
        ..TOLD
    },
];

#[test]
fn a_manifest_that_cannot_be_read_is_a_fault_of_the_disk(rt: HostRuntime) -> Result<(), Fail> {
    fill(&rt, "bk_shell_no_plain", FIRST)?;
    fs::remove_file(&rt, "bk_shell_no_plain/ledgers.manifest")?;
    fs::create_dir(&rt, "bk_shell_no_plain/ledgers.manifest")?;
    check(&rt, &rt, &NOT_PLAIN);
    fs::remove_dir_all(&rt, "bk_shell_no_plain")?;
    Ok(())
}
