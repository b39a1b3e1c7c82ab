//! The manifest of a directory: deletions and fences that survive, lists of live ledgers, damage.

use super::durable::flip;
use super::folder::{DONE, Row, TOLD, anew, check};
use super::run;
use std::fs;
use std::process::Abort;
use std::test::Fail;

/// Two entries in a sealed log. Then ledger 2 is deleted, and ledger 1 fenced.
const FIRST: &str =
    "add 1 0 hello\npad 2 0 200\nswap\nwrite\nwrite\npublish\nroll\ndelete 2\nfence 1\n";

/// What the next scripts find: ledger 2 is deleted and stays so, ledger 1 is fenced.
const NEXT: &str = "take 0 2 0\nadd 2 1 x\nadd 1 1 y\nradd 1 2 z\ndelete 2\nfence 1\n";

/// Makes a directory with these logs and records.
fn fill(rt: &HostRuntime, folder: &str) -> Result<(), Fail> {
    anew(rt, folder)?;
    let shown = run(rt, &["bk_shell", "script", "--folder", folder], FIRST);
    if shown.status == 0 && shown.output.ends_with(b"dropped 1\nfenced\n") {
        Ok(())
    } else {
        Err(Fail::new("the directory was not filled"))
    }
}

/// Commands on it, and what each is to leave.
const SURVIVING: [Row<'static>; 9] = [
    Row {
        words: &["bk_shell", "entries", "bk_shell_kept", "2"],
        output: "0 0 1053 220\n",
        errors: "note ledger 2 is deleted\n",
        ..DONE
    },
    Row {
        words: &["bk_shell", "find", "bk_shell_kept", "1", "0"],
        output: "0 1028 68656c6c6f\n",
        ..DONE
    },
    Row {
        words: &["bk_shell", "manifest", "bk_shell_kept"],
        output: "ledgers.manifest generation 0 records 2 standing 2 torn 0\ndeleted 2\nfenced 1\nlogs.manifest generation 0 records 3 standing 1 torn 0\ndurable 0 length 1325\n",
        ..DONE
    },
    Row {
        words: &["bk_shell", "--json", "manifest", "bk_shell_kept"],
        output: "{\"manifest\":\"ledgers.manifest\",\"generation\":0,\"records\":2,\"standing\":2,\"torn\":0}\n{\"record\":\"deleted\",\"ledger\":2}\n{\"record\":\"fenced\",\"ledger\":1}\n{\"manifest\":\"logs.manifest\",\"generation\":0,\"records\":3,\"standing\":1,\"torn\":0}\n{\"record\":\"durable\",\"log\":0,\"length\":1325}\n",
        ..DONE
    },
    Row {
        words: &["bk_shell", "manifest", "--check", "bk_shell_kept"],
        output: "ledgers.manifest generation 0 records 2 standing 2 torn 0\nlogs.manifest generation 0 records 3 standing 1 torn 0\n",
        ..DONE
    },
    // 25 of the 245 bytes of entries are of a live ledger.
    Row {
        words: &["bk_shell", "stat", "bk_shell_kept"],
        output: "0 1325 2 245 25 102 sealed\nlogs 1 length 1325 entries 2 bytes 245 live 25 share 102\n",
        ..DONE
    },
    Row {
        words: &["bk_shell", "stat", "--no-manifest", "bk_shell_kept"],
        output: "0 1325 2 245 245 1000 sealed\nlogs 1 length 1325 entries 2 bytes 245 live 245 share 1000\n",
        ..DONE
    },
    Row {
        words: &[
            "bk_shell",
            "compact",
            "--dry-run",
            "--no-manifest",
            "bk_shell_kept",
        ],
        output: "before 1 after 1 freed 0 moved 0\n",
        ..DONE
    },
    Row {
        words: &["bk_shell", "compact", "--dry-run", "bk_shell_kept"],
        output: "0 1325 compact 1\nbefore 1 after 1 freed 236 moved 1\n",
        ..DONE
    },
];

#[test]
fn deletions_and_fences_survive(rt: HostRuntime) -> Result<(), Fail> {
    let folder = "bk_shell_kept";
    fill(&rt, folder)?;
    check(&rt, &rt, &SURVIVING);
    let shown = run(&rt, &["bk_shell", "script", "--folder", folder], NEXT);
    assert_eq!(rt;
        shown.output.as_slice(),
        b"deleted\nfault deleted\nfault fenced\naccepted\nfault already deleted\nalready fenced\n".as_slice()
    );
    fs::remove_dir_all(&rt, folder)?;
    Ok(())
}

/// A compaction that names a ledger, and then none.
const NAMED: [Row<'static>; 4] = [
    Row {
        words: &["bk_shell", "compact", "--dead", "2", "bk_shell_named"],
        output: "before 1 after 1 freed 236 moved 1\n",
        ..DONE
    },
    Row {
        words: &["bk_shell", "manifest", "bk_shell_named"],
        output: "ledgers.manifest generation 0 records 1 standing 1 torn 0\ndeleted 2\nlogs.manifest generation 1 records 4 standing 2 torn 0\nremoved 0 length 1325\ndurable 1 length 1089\n",
        ..DONE
    },
    // It is recorded once.
    Row {
        words: &["bk_shell", "compact", "--dead", "2", "bk_shell_named"],
        output: "before 1 after 1 freed 0 moved 0\n",
        ..DONE
    },
    Row {
        words: &["bk_shell", "manifest", "--check", "bk_shell_named"],
        output: "ledgers.manifest generation 0 records 1 standing 1 torn 0\nlogs.manifest generation 1 records 4 standing 2 torn 0\n",
        ..DONE
    },
];

/// Two entries in a sealed log, of which no ledger is deleted.
const PLAIN: &str = "add 1 0 hello\npad 2 0 200\nswap\nwrite\nwrite\npublish\nroll\n";

#[test]
fn a_compaction_records_the_ledgers_that_it_is_told(rt: HostRuntime) -> Result<(), Fail> {
    let folder = "bk_shell_named";
    anew(&rt, folder)?;
    let _ = run(&rt, &["bk_shell", "script", "--folder", folder], PLAIN);
    check(&rt, &rt, &NAMED);
    let shown = run(
        &rt,
        &["bk_shell", "script", "--folder", folder],
        "add 2 5 x\n",
    );
    assert_eq!(rt; shown.output.as_slice(), b"fault deleted\n".as_slice());
    fs::remove_dir_all(&rt, folder)?;
    Ok(())
}

/// Lists of live ledgers.
const LISTS: [(&str, &str); 3] = [
    ("bk_shell_live_one", "ledgerID: 1\n\n7\n"),
    ("bk_shell_live_empty", "\n"),
    ("bk_shell_live_bad", "1\nledgerID: 2x\n"),
];

/// Calls with them, and what each is to leave.
const LIVE: [Row<'static>; 6] = [
    Row {
        words: &[
            "bk_shell",
            "compact",
            "--dry-run",
            "--live-file",
            "bk_shell_live_one",
            "bk_shell_live",
        ],
        output: "0 1325 compact 1\nledger 2 entries 1 bytes 220\nbefore 1 after 1 freed 236 moved 1\n",
        ..DONE
    },
    Row {
        words: &[
            "bk_shell",
            "stat",
            "--live-file=bk_shell_live_one",
            "bk_shell_live",
        ],
        output: "0 1325 2 245 25 102 sealed\nlogs 1 length 1325 entries 2 bytes 245 live 25 share 102\n",
        ..DONE
    },
    Row {
        words: &[
            "bk_shell",
            "compact",
            "--live-file=bk_shell_live_empty",
            "bk_shell_live",
        ],
        errors: "fault no live ledger is named\nhelp: --live-none says that each ledger of the directory is deleted\n",
        ..TOLD
    },
    Row {
        words: &[
            "bk_shell",
            "compact",
            "--dry-run",
            "--live-none",
            "bk_shell_live",
        ],
        output: "0 1325 remove\nledger 1 entries 1 bytes 25\nledger 2 entries 1 bytes 220\nbefore 1 after 0 freed 1325 moved 0\n",
        ..DONE
    },
    Row {
        words: &[
            "bk_shell",
            "stat",
            "--live-file=bk_shell_live_bad",
            "bk_shell_live",
        ],
        errors: "fault bk_shell_live_bad: line 2: no number from 0 to 9223372036854775807 in plain digits\n",
        ..TOLD
    },
    // Nothing was recorded so far.
    Row {
        words: &["bk_shell", "manifest", "bk_shell_live"],
        output: "ledgers.manifest generation 0 records 0 standing 0 torn 0\nlogs.manifest generation 0 records 3 standing 1 torn 0\ndurable 0 length 1325\n",
        ..DONE
    },
];

#[test]
fn a_file_lists_the_live_ledgers(rt: HostRuntime) -> Result<(), Fail> {
    let folder = "bk_shell_live";
    anew(&rt, folder)?;
    let _ = run(&rt, &["bk_shell", "script", "--folder", folder], PLAIN);
    for (path, text) in LISTS.iter() {
        fs::write(&rt, *path, text.as_bytes())?;
    }
    check(&rt, &rt, &LIVE);
    for (path, _) in LISTS.iter() {
        fs::remove_file(&rt, *path)?;
    }
    fs::remove_dir_all(&rt, folder)?;
    Ok(())
}

/// A directory without a manifest, and one that is damaged at byte 30, in its first of two batches.
const DAMAGED: [Row<'static>; 8] = [
    Row {
        words: &["bk_shell", "manifest", "bk_shell_hurt_none"],
        errors: "no manifest in bk_shell_hurt_none\n",
        ..DONE
    },
    Row {
        words: &["bk_shell", "manifest", "bk_shell_hurt"],
        output: "logs.manifest generation 0 records 3 standing 1 torn 0\ndurable 0 length 1325\n",
        errors: "fault damaged manifest 24 in bk_shell_hurt/ledgers.manifest\nhelp: './bookie manifest --rebuild' makes a new one of the records before the damage, and keeps the old file\n",
        ..TOLD
    },
    Row {
        words: &["bk_shell", "stat", "bk_shell_hurt"],
        errors: "fault damaged manifest 24 in bk_shell_hurt/ledgers.manifest\nhelp: './bookie manifest --rebuild' makes a new one of the records before the damage, and keeps the old file\n",
        ..TOLD
    },
    Row {
        words: &["bk_shell", "script", "--folder", "bk_shell_hurt"],
        errors: "fault ledgers.manifest: damaged manifest 24\nhelp: './bookie manifest --rebuild' makes a new one of the records before the damage, and keeps the old file\n",
        ..TOLD
    },
    Row {
        words: &["bk_shell", "compact", "--dead", "1", "bk_shell_hurt"],
        errors: "fault damaged manifest 24 in bk_shell_hurt/ledgers.manifest\nhelp: './bookie manifest --rebuild' makes a new one of the records before the damage, and keeps the old file\n",
        ..TOLD
    },
    // The header has 24 bytes, a batch of one record 8, 9 and 4.
    Row {
        words: &["bk_shell", "manifest", "--rebuild", "bk_shell_hurt"],
        output: "rebuilt ledgers.manifest records 0 unread 42 kept ledgers.manifest.damaged\nwhole logs.manifest\n",
        ..DONE
    },
    Row {
        words: &["bk_shell", "manifest", "--rebuild", "bk_shell_hurt"],
        output: "whole ledgers.manifest\nwhole logs.manifest\n",
        ..DONE
    },
    Row {
        words: &["bk_shell", "manifest", "bk_shell_hurt"],
        output: "ledgers.manifest generation 1 records 0 standing 0 torn 0\nlogs.manifest generation 0 records 3 standing 1 torn 0\ndurable 0 length 1325\n",
        ..DONE
    },
];

#[test]
fn a_damaged_manifest_is_refused_and_made_anew(rt: HostRuntime) -> Result<(), Fail> {
    let folder = "bk_shell_hurt";
    fill(&rt, folder)?;
    anew(&rt, "bk_shell_hurt_none")?;
    let mut bytes = fs::read(&rt, "bk_shell_hurt/ledgers.manifest")?;
    flip(&mut bytes, 30, 1);
    fs::write(&rt, "bk_shell_hurt/ledgers.manifest", &bytes)?;
    check(&rt, &rt, &DAMAGED);
    let kept = fs::read(&rt, "bk_shell_hurt/ledgers.manifest.damaged")?;
    assert!(rt; kept == bytes);
    fs::remove_dir_all(&rt, folder)?;
    fs::remove_dir_all(&rt, "bk_shell_hurt_none")?;
    Ok(())
}

#[test]
fn a_torn_manifest_is_told_and_copied(rt: HostRuntime) -> Result<(), Fail> {
    let folder = "bk_shell_torn";
    fill(&rt, folder)?;
    let path = "bk_shell_torn/ledgers.manifest";
    let bytes = fs::read(&rt, path)?;
    // The fence is the last batch of 21 bytes.
    let front = front_of(&bytes)?;
    fs::write(&rt, path, front)?;
    let shown = run(
        &rt,
        &["bk_shell", "script", "--folder", folder],
        "add 1 1 y\ndelete 1\n",
    );
    assert_eq!(rt;
        shown.output.as_slice(),
        b"accepted\ndropped 2\n".as_slice()
    );
    assert_eq!(rt;
        shown.errors.as_slice(),
        b"torn manifest: the last 20 bytes of ledgers.manifest are no record; ledgers.manifest.torn is a copy\n".as_slice()
    );
    let copy = fs::read(&rt, "bk_shell_torn/ledgers.manifest.torn")?;
    assert!(rt; copy.as_slice() == front);
    tear_again(&rt, &rt, folder)?;
    let first = fs::read(&rt, "bk_shell_torn/ledgers.manifest.torn")?;
    assert!(rt; first == copy);
    fs::remove_dir_all(&rt, folder)?;
    Ok(())
}

/// Returns all but the last of these bytes.
fn front_of(bytes: &[u8]) -> Result<&[u8], Fail> {
    match bytes.get(..bytes.len().saturating_sub(1)) {
        Some(front) => Ok(front),
        None => Err(Fail::new("no bytes")),
    }
}

/// Cuts the last byte of the manifest of a directory again, and runs a script there twice: the second
/// copy has another name, and is made once.
fn tear_again(rt: &HostRuntime, aborting: &impl Abort, folder: &str) -> Result<(), Fail> {
    let path = "bk_shell_torn/ledgers.manifest";
    let bytes = fs::read(rt, path)?;
    let torn = front_of(&bytes)?;
    for _ in 0..2u8 {
        fs::write(rt, path, torn)?;
        let shown = run(rt, &["bk_shell", "script", "--folder", folder], "");
        assert_eq!(aborting;
            shown.errors.as_slice(),
            b"torn manifest: the last 20 bytes of ledgers.manifest are no record; ledgers.manifest.torn.2 is a copy\n".as_slice()
        );
    }
    let copy = fs::read(rt, "bk_shell_torn/ledgers.manifest.torn.2")?;
    assert!(aborting; copy.as_slice() == torn);
    assert!(aborting; fs::metadata(rt, "bk_shell_torn/ledgers.manifest.torn.3").is_err());
    Ok(())
}

/// A directory in the manifest's place.
const NOT_PLAIN: [Row<'static>; 3] = [
    Row {
        words: &["bk_shell", "stat", "bk_shell_odd"],
        errors: "fault disk: bk_shell_odd/ledgers.manifest: no plain file\n",
        ..TOLD
    },
    Row {
        words: &["bk_shell", "manifest", "bk_shell_odd"],
        errors: "fault disk: bk_shell_odd/ledgers.manifest: no plain file\n",
        ..TOLD
    },
    Row {
        words: &["bk_shell", "script", "--folder", "bk_shell_odd"],
        errors: "fault disk: bk_shell_odd/ledgers.manifest: open: a directory is no plain file: move it away\n",
        ..TOLD
    },
];

#[test]
fn a_manifest_is_a_plain_file(rt: HostRuntime) -> Result<(), Fail> {
    let folder = "bk_shell_odd";
    anew(&rt, folder)?;
    fs::create_dir(&rt, "bk_shell_odd/ledgers.manifest")?;
    check(&rt, &rt, &NOT_PLAIN);
    fs::remove_dir_all(&rt, folder)?;
    Ok(())
}

/// Each bit of a manifest of two batches is flipped. A call finds that the manifest is damaged, or that
/// its last batch is torn, and then the ledger of the first batch is deleted; never less in silence.
#[test]
fn no_flipped_bit_brings_a_ledger_back_in_silence(rt: HostRuntime) -> Result<(), Fail> {
    let folder = "bk_shell_flip";
    fill(&rt, folder)?;
    let path = "bk_shell_flip/ledgers.manifest";
    let whole = fs::read(&rt, path)?;
    let words = ["bk_shell", "script", "--folder", folder];
    for at in 0..whole.len() {
        let mut bytes = Vec::from_slice(rt.alloc(), &whole)?;
        flip(&mut bytes, at, 16);
        fs::write(&rt, path, &bytes)?;
        let shown = run(&rt, &words, "take 0 2 0\n");
        let is_refused = shown.status == 1 && shown.output.is_empty();
        let is_told = shown.output.as_slice() == b"deleted\n".as_slice()
            && shown.errors.starts_with(b"torn manifest");
        assert!(rt; is_refused || is_told, "byte {at}");
        let _ = fs::remove_file(&rt, "bk_shell_flip/ledgers.manifest.torn");
    }
    fs::remove_dir_all(&rt, folder)?;
    Ok(())
}
