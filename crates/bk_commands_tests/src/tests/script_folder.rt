//! Scripts over real folders.

use super::folder::{anew, in_use};
use super::run;
use bk_disk::DirDisk;
use std::fs;
use std::process::Abort;
use std::test::Fail;

/// A flush of one entry, and then a read of it.
const FLUSHED: &str = "add 1 0 hello\nswap\nwrite\npublish\ntake 0 1 0\nfetch 0\n";

/// What that prints over an empty folder.
const FLUSHED_OUTPUT: &str =
    "accepted\nswapped 1\nwrote 1028\npublished 1\nleased 1028\nbytes 68656c6c6f\n";

/// A call of `script` over a folder, its input, and what it is to leave.
#[derive(Clone, Copy)]
struct Call<'a> {
    words: &'a [&'a str],
    input: &'a str,
    status: u8,
    output: &'a str,
    errors: &'a str,
}

/// Whether a call leaves just this.
fn is_left(rt: &HostRuntime, call: &Call<'_>) -> bool {
    let shown = run(rt, call.words, call.input);
    shown.status == call.status
        && shown.output.as_slice() == call.output.as_bytes()
        && shown.errors.as_slice() == call.errors.as_bytes()
}

/// Calls the program as a table says, and compares what it leaves.
fn check_scripts(rt: &impl Abort, host: &HostRuntime, calls: &[Call<'_>]) {
    for (number, call) in calls.iter().enumerate() {
        assert!(rt; is_left(host, call), "call {number}");
    }
}

/// The words of a script over a folder.
const SCRIPT: &[&str] = &["bk_shell", "script", "--folder", "bk_shell_script"];

/// Scripts over a folder, of which the first makes it.
const SCRIPTS: [Call<'static>; 4] = [
    Call {
        words: SCRIPT,
        input: FLUSHED,
        status: 0,
        output: FLUSHED_OUTPUT,
        errors: "",
    },
    Call {
        words: SCRIPT,
        input: "take 0 1 0\nfetch 0\nadd 1 0 again\n",
        status: 0,
        output: "leased 1028\nbytes 68656c6c6f\nheld\n",
        errors: "",
    },
    Call {
        words: &["bk_shell", "script", "1", "--folder=bk_shell_script"],
        input: "take 0 1 0\n",
        status: 0,
        output: "deleted\n",
        errors: "",
    },
    Call {
        words: SCRIPT,
        input: "frob\n",
        status: 1,
        output: "",
        errors: "line 1: bad command\n",
    },
];

#[test]
fn a_script_goes_on_in_its_folder(rt: HostRuntime) -> Result<(), Fail> {
    let _ = fs::remove_dir_all(&rt, "bk_shell_script");
    check_scripts(&rt, &rt, &SCRIPTS);
    fs::remove_dir_all(&rt, "bk_shell_script")?;
    Ok(())
}

/// The words of a script over a folder whose logs are damaged.
const DAMAGED: &[&str] = &["bk_shell", "script", "--folder", "bk_shell_zeros"];

/// What a script over a folder tells where a log of it ends in zeros.
const ENDS_IN_ZEROS: Call<'static> = Call {
    words: DAMAGED,
    input: "take 0 1 0\n",
    status: 1,
    output: "",
    errors: "fault log 0: bad length 1049 0\nhelp: './bookie check' lists all such logs, './bookie seal --cut-torn' cuts one there and keeps a copy\n",
};

/// What it tells where a log has no header.
const HAS_NO_HEADER: Call<'static> = Call {
    words: DAMAGED,
    input: "take 0 1 0\n",
    status: 1,
    output: "",
    errors: "fault log 1: bad magic\nhelp: if './bookie scan' shows no entry in the log, a crash may have left it so, and its file can be moved away\n",
};

/// What it shows at last.
const MENDED: Call<'static> = Call {
    words: DAMAGED,
    input: "take 0 1 0\nfetch 0\n",
    status: 0,
    output: "leased 1028\nbytes 68656c6c6f\n",
    errors: "",
};

/// Puts zeros behind the records of log 0, and for log 1.
fn put_zeros(rt: &HostRuntime) -> Result<(), Fail> {
    let mut log = fs::read(rt, "bk_shell_zeros/0.log")?;
    log.extend_from_slice(&[0; 4000])?;
    fs::write(rt, "bk_shell_zeros/0.log", log.as_slice())?;
    fs::write(rt, "bk_shell_zeros/1.log", [0; 4096].as_slice())?;
    // The next call takes the logs as they are.
    fs::remove_file(rt, "bk_shell_zeros/logs.manifest")?;
    Ok(())
}

#[test]
fn the_way_on_behind_a_refused_opening_leads_on(rt: HostRuntime) -> Result<(), Fail> {
    let _ = fs::remove_dir_all(&rt, "bk_shell_zeros");
    assert!(rt; run(&rt, DAMAGED, FLUSHED).status == 0);
    put_zeros(&rt)?;
    assert!(rt; is_left(&rt, &ENDS_IN_ZEROS));
    let cut = ["bk_shell", "seal", "--cut-torn", "bk_shell_zeros", "0"];
    assert!(rt; run(&rt, &cut, "").status == 0);
    assert!(rt; is_left(&rt, &HAS_NO_HEADER));
    fs::remove_file(&rt, "bk_shell_zeros/1.log")?;
    let rebuild = ["bk_shell", "manifest", "--rebuild", "bk_shell_zeros"];
    assert!(rt; run(&rt, &rebuild, "").status == 0);
    assert!(rt; is_left(&rt, &MENDED));
    fs::remove_dir_all(&rt, "bk_shell_zeros")?;
    Ok(())
}

/// Scripts where no folder can be.
const NO_PLACE: [Call<'static>; 3] = [
    Call {
        words: &["bk_shell", "script", "--folder", "bk_shell_place"],
        input: FLUSHED,
        status: 1,
        output: "",
        errors: "fault disk: bk_shell_place: Not a directory (os error 20)\n",
    },
    Call {
        words: &["bk_shell", "script", "--folder", "bk_shell_place/in"],
        input: FLUSHED,
        status: 1,
        output: "",
        errors: "fault disk: bk_shell_place/in: Not a directory (os error 20)\n",
    },
    Call {
        words: &["bk_shell", "script", "--folder", "bk_shell_no/folder"],
        input: FLUSHED,
        status: 1,
        output: "",
        errors: "fault disk: bk_shell_no/folder: No such file or directory (os error 2)\n",
    },
];

#[test]
fn a_script_is_not_run_where_no_folder_can_be_written(rt: HostRuntime) -> Result<(), Fail> {
    fs::write(&rt, "bk_shell_place", b"bytes".as_slice())?;
    check_scripts(&rt, &rt, &NO_PLACE);
    assert!(rt; fs::read_to_string(&rt, "bk_shell_place")?.as_str() == "bytes");
    fs::remove_file(&rt, "bk_shell_place")?;
    Ok(())
}

/// The words of a script over a folder that two programs want.
const TWO: &[&str] = &["bk_shell", "script", "--folder", "bk_shell_two"];

/// The first script there.
const FIRST: Call<'static> = Call {
    words: TWO,
    input: FLUSHED,
    status: 0,
    output: FLUSHED_OUTPUT,
    errors: "",
};

/// The script after the other program has ended.
const LAST: Call<'static> = Call {
    words: TWO,
    input: "take 0 1 0\n",
    status: 0,
    output: "leased 1028\n",
    errors: "",
};

/// A command that reads there.
const READER: Call<'static> = Call {
    words: &["bk_shell", "find", "bk_shell_two", "1", "0"],
    input: "",
    status: 0,
    output: "0 1028 68656c6c6f\n",
    errors: "",
};

/// Whether a script is refused, since this process writes in its folder.
fn is_kept_out(rt: &HostRuntime) -> Result<bool, Fail> {
    let shown = run(rt, TWO, FLUSHED);
    let busy = in_use(rt, "bk_shell_two")?;
    let is_told = shown.errors.as_slice() == busy.as_bytes();
    Ok(is_told && shown.status == 1 && shown.output.is_empty())
}

#[test]
fn one_program_writes_in_a_folder(rt: HostRuntime) -> Result<(), Fail> {
    anew(&rt, "bk_shell_two")?;
    assert!(rt; is_left(&rt, &FIRST));
    let first = DirDisk::open_to_write(&rt, "bk_shell_two")?;
    assert!(rt; is_kept_out(&rt)?);
    // Readers are not hindered.
    assert!(rt; is_left(&rt, &READER));
    drop(first);
    assert!(rt; is_left(&rt, &LAST));
    fs::remove_dir_all(&rt, "bk_shell_two")?;
    Ok(())
}
