//! What a compaction keeps or refuses: short files, a bookie's index, copies without an id.

use super::compact::fill;
use super::folder::{DONE, Row, anew, check};
use super::{holds, run};
use std::fs;
use std::test::Fail;

/// What is reported of a short file that is kept.
const KEPT: &str =
    "kept 5.log: 500 bytes, less than a header; look at it, and remove it if it is of no use\n";

/// Compactions of a directory with a short file, and what each is to leave.
const SHORT: [Row<'static>; 3] = [
    Row {
        words: &["bk_shell", "compact", "--dry-run", "bk_shell_short"],
        status: 0,
        output: "6 0 remove\nbefore 5 after 4 freed 0 moved 0\n",
        errors: KEPT,
    },
    Row {
        words: &["bk_shell", "compact", "bk_shell_short"],
        status: 0,
        output: "before 5 after 4 freed 0 moved 0\n",
        errors: KEPT,
    },
    Row {
        words: &["bk_shell", "compact", "--json", "bk_shell_short"],
        status: 0,
        output: "{\"before\":4,\"after\":4,\"freed\":0,\"moved\":0}\n",
        errors: "{\"note\":\"kept\",\"log\":5,\"length\":500,\"file\":\"5.log\"}\n",
    },
];

/// A compaction of that directory when the file has a copy aside.
const COPIED: [Row<'static>; 1] = [Row {
    words: &["bk_shell", "compact", "bk_shell_short"],
    output: "before 4 after 3 freed 500 moved 0\n",
    ..DONE
}];

#[test]
fn a_short_file_is_kept_and_reported(rt: HostRuntime) -> Result<(), Fail> {
    fill(&rt, "bk_shell_short")?;
    fs::write(&rt, "bk_shell_short/5.log", [7; 500].as_slice())?;
    fs::write(&rt, "bk_shell_short/6.log", [0; 0].as_slice())?;
    check(&rt, &rt, &SHORT);
    let kept = fs::read(&rt, "bk_shell_short/5.log")?;
    assert!(rt; kept.as_slice() == [7; 500].as_slice());
    // Its copy is aside: the file is removed, and the copy stays.
    fs::write(&rt, "bk_shell_short/5.log.torn", [7; 500].as_slice())?;
    check(&rt, &rt, &COPIED);
    assert!(rt; fs::metadata(&rt, "bk_shell_short/5.log").is_err());
    assert!(rt; fs::metadata(&rt, "bk_shell_short/5.log.torn").is_ok());
    fs::remove_dir_all(&rt, "bk_shell_short")?;
    Ok(())
}

/// A name of a bookie's index, its path in a directory, and whether it is a directory.
struct Named {
    path: &'static str,
    is_dir: bool,
}

/// The names of a bookie's index.
const INDEX: [Named; 4] = [
    Named {
        path: "bk_shell_index/VERSION",
        is_dir: false,
    },
    Named {
        path: "bk_shell_index/lastMark",
        is_dir: false,
    },
    Named {
        path: "bk_shell_index/locations",
        is_dir: true,
    },
    Named {
        path: "bk_shell_index/ledgers",
        is_dir: false,
    },
];

/// Makes a directory with the logs, and a name of a bookie's index.
fn fill_beside(rt: &HostRuntime, named: &Named) -> Result<(), Fail> {
    fill(rt, "bk_shell_index")?;
    if named.is_dir {
        fs::create_dir(rt, named.path)?;
    } else {
        fs::write(rt, named.path, b"4\n".as_slice())?;
    }
    Ok(())
}

/// Whether a compaction is refused that names the path and the way on, and leaves the logs.
fn is_refused(rt: &HostRuntime, path: &str) -> Result<bool, Fail> {
    let told = format!(in rt.alloc(); "fault bookie index: {path}\nhelp: ")?;
    let shown = run(
        rt,
        &["bk_shell", "compact", "--dead=2", "bk_shell_index"],
        "",
    );
    let logs = run(rt, &["bk_shell", "logs", "bk_shell_index"], "");
    Ok(
        shown.status == 1
            && shown.output.is_empty()
            && holds(&shown.errors, &told)
            && holds(&shown.errors, "--index-is-rebuilt")
            && holds(&shown.errors, "rebuild-db-ledger-locations-index")
            && logs.output.as_slice() == b"0 1325 sealed\n1 1085 sealed\n2 1048 open\n".as_slice(),
    )
}

/// Whether it is refused with an object.
fn is_refused_as_object(rt: &HostRuntime, path: &str) -> Result<bool, Fail> {
    let object = format!(in rt.alloc();
        "{{\"fault\":\"bookie index\",\"file\":\"{path}\",\"help\":\""
    )?;
    let shown = run(rt, &["bk_shell", "--json", "compact", "bk_shell_index"], "");
    Ok(shown.status == 1 && holds(&shown.errors, &object))
}

/// A compaction beside an index that the operator rebuilds.
const REBUILT: [Row<'static>; 1] = [Row {
    words: &[
        "bk_shell",
        "compact",
        "--dead=2",
        "--index-is-rebuilt",
        "bk_shell_index",
    ],
    output: "before 3 after 2 freed 1321 moved 1\n",
    ..DONE
}];

#[test]
fn a_bookies_index_is_not_left_behind(rt: HostRuntime) -> Result<(), Fail> {
    for named in INDEX.iter() {
        fill_beside(&rt, named)?;
        assert!(rt; is_refused(&rt, named.path)?, "{}", named.path);
        assert!(rt; is_refused_as_object(&rt, named.path)?, "{}", named.path);
        check(&rt, &rt, &REBUILT);
    }
    fs::remove_dir_all(&rt, "bk_shell_index")?;
    Ok(())
}

/// A path of a directory at which the name `lastMark` is longer than a path may be, and `VERSION` is
/// not.
fn long_path(rt: &HostRuntime) -> Result<String, Fail> {
    let mut path = String::from_str(rt.alloc(), "bk_shell_long")?;
    for _ in 0..2037 {
        path.push_str("/.")?;
    }
    Ok(path)
}

#[test]
fn an_index_that_cannot_be_looked_for_is_not_taken_for_absent(rt: HostRuntime) -> Result<(), Fail> {
    fill(&rt, "bk_shell_long")?;
    let path = long_path(&rt)?;
    let shown = run(
        &rt,
        &[
            "bk_shell",
            "compact",
            "--no-manifest",
            "--dead=2",
            path.as_str(),
        ],
        "",
    );
    assert!(rt; shown.status == 1 && shown.output.is_empty());
    assert!(rt; shown.errors.starts_with(b"fault disk: bk_shell_long/."));
    assert!(rt;
        shown
            .errors
            .ends_with(b"/lastMark: File name too long (os error 36)\n")
    );
    fs::remove_dir_all(&rt, "bk_shell_long")?;
    Ok(())
}

/// Calls on a directory with the last log, and what each is to leave.
const NO_IDS: [Row<'static>; 3] = [
    Row {
        words: &[
            "bk_shell",
            "compact",
            "--dead=2",
            "--dry-run",
            "bk_shell_ids",
        ],
        status: 1,
        output: "1 1085 remove\n",
        errors: "fault no more ids\n",
    },
    Row {
        words: &["bk_shell", "compact", "--dead=2", "bk_shell_ids"],
        status: 1,
        output: "",
        errors: "fault no more ids\n",
    },
    Row {
        words: &["bk_shell", "logs", "bk_shell_ids"],
        output: "0 1325 sealed\n2147483647 1048 open\n",
        ..DONE
    },
];

#[test]
fn no_copy_is_planned_without_an_id(rt: HostRuntime) -> Result<(), Fail> {
    let folder = "bk_shell_ids";
    anew(&rt, folder)?;
    fill(&rt, folder)?;
    fs::rename(&rt, "bk_shell_ids/2.log", "bk_shell_ids/7fffffff.log")?;
    fs::remove_file(&rt, "bk_shell_ids/logs.manifest")?;
    check(&rt, &rt, &NO_IDS);
    fs::remove_dir_all(&rt, folder)?;
    Ok(())
}
