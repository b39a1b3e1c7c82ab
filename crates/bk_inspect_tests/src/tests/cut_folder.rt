//! Logs of a folder of the system whose torn end is cut.

use super::{HELLO, OPEN, Shown, check, done};
use bk_disk::DirDisk;
use bk_inspect::{DirCommand, Form, run_cut_and_seal_folder};
use std::fs::{self, Permissions};
use std::os::unix::fs::{PermissionsExt, symlink};
use std::process::Abort;
use std::test::Fail;

/// Makes a folder with log 31, which has one record and these bytes behind it.
fn anew(rt: &HostRuntime, folder: &str, end: &[u8]) -> Result<Vec<u8>, Fail> {
    let alloc = rt.alloc();
    let mut bytes = Vec::from_slice(alloc, OPEN)?;
    bytes.resize(1024, 0)?;
    bytes.extend_from_slice(HELLO)?;
    bytes.extend_from_slice(end)?;
    let _ = fs::remove_dir_all(rt, folder);
    fs::create_dir(rt, folder)?;
    fs::write(
        rt,
        format!(in alloc; "{folder}/1f.log")?.as_str(),
        bytes.as_slice(),
    )?;
    Ok(bytes)
}

/// Cuts and seals log 31 of a folder.
fn cut(rt: &HostRuntime, form: Form, folder: &str) -> Shown {
    let mut output = Vec::new(rt.alloc());
    let mut errors = Vec::new(rt.alloc());
    let status = run_cut_and_seal_folder(rt, form, folder, 31, &mut output, &mut errors);
    Shown {
        status,
        output,
        errors,
    }
}

/// Compares what was shown, and the status.
fn expect(rt: &impl Abort, shown: &Shown, status: u8, output: &str, errors: &str) {
    assert_eq!(rt; shown.errors.as_slice(), errors.as_bytes());
    assert_eq!(rt; shown.output.as_slice(), output.as_bytes());
    assert_eq!(rt; shown.status, status);
}

#[test]
fn a_log_is_copied_aside_and_cut(rt: HostRuntime) -> Result<(), Fail> {
    let bytes = anew(&rt, "bk_dir_cut", b"\0\0\0\x15\0\0\0")?;
    fs::set_permissions(&rt, "bk_dir_cut/1f.log", Permissions::from_mode(0o640))?;
    let shown = cut(&rt, Form::Text, "bk_dir_cut");
    expect(
        &rt,
        &shown,
        0,
        "cut 31 at 1049 bytes 7 copy bk_dir_cut/1f.log.torn\nsealed 31 map 1049 count 1\n",
        "",
    );
    let copy = fs::read(&rt, "bk_dir_cut/1f.log.torn")?;
    assert_eq!(rt; copy, bytes);
    let rights = fs::metadata(&rt, "bk_dir_cut/1f.log.torn")?.permissions();
    assert_eq!(rt; rights.mode() & 0o777, 0o640);
    let rows = [
        done(DirCommand::Logs, "31 1089 sealed\n"),
        done(DirCommand::Check, "31 ok\n"),
        done(DirCommand::Map(31), "1 25\n"),
    ];
    let mut disk = DirDisk::open(&rt, "bk_dir_cut")?;
    check(&rt, rt.alloc(), &mut disk, &rows, "a cut log and its copy");
    let again = cut(&rt, Form::Text, "bk_dir_cut");
    expect(
        &rt,
        &again,
        1,
        "",
        "fault log 31: sealed already\nhelp: if './bookie check' finds its map wrong, './bookie seal --cut-torn' writes the map anew\n",
    );
    fs::remove_dir_all(&rt, "bk_dir_cut")?;
    Ok(())
}

#[test]
fn the_copy_is_told_as_json(rt: HostRuntime) -> Result<(), Fail> {
    let _bytes = anew(&rt, "bk_dir_cut_json", &[0; 12])?;
    let shown = cut(&rt, Form::Json, "bk_dir_cut_json");
    expect(
        &rt,
        &shown,
        0,
        "{\"log\":31,\"state\":\"cut\",\"at\":1049,\"bytes\":12,\"copy\":\"bk_dir_cut_json/1f.log.torn\"}\n\
{\"log\":31,\"state\":\"sealed\",\"map\":1049,\"count\":1}\n",
        "",
    );
    fs::remove_dir_all(&rt, "bk_dir_cut_json")?;
    Ok(())
}

#[test]
fn a_name_that_is_taken_is_left(rt: HostRuntime) -> Result<(), Fail> {
    let bytes = anew(&rt, "bk_dir_cut_taken", b"\0\0")?;
    fs::create_dir(&rt, "bk_dir_cut_taken/1f.log.torn")?;
    let shown = cut(&rt, Form::Text, "bk_dir_cut_taken");
    expect(
        &rt,
        &shown,
        1,
        "",
        "fault copy exists: bk_dir_cut_taken/1f.log.torn: it is no copy of bk_dir_cut_taken/1f.log\n\
help: move bk_dir_cut_taken/1f.log.torn to another name and call './bookie seal --cut-torn' again: it copies the log first\n",
    );
    assert_eq!(rt; fs::read(&rt, "bk_dir_cut_taken/1f.log")?, bytes);
    fs::remove_dir_all(&rt, "bk_dir_cut_taken")?;
    Ok(())
}

/// The texts of a log that is cut, whatever a killed call left.
const CUT: &str =
    "cut 31 at 1049 bytes 7 copy bk_dir_cut_again/1f.log.torn\nsealed 31 map 1049 count 1\n";

/// How many bytes of the log a killed call left under the name of the copy, and of its draft.
const LEFT: [(Option<usize>, Option<usize>); 7] = [
    (Some(0), None),
    (Some(1030), None),
    (Some(1056), None),
    (None, Some(0)),
    (None, Some(1030)),
    (None, Some(1056)),
    (Some(1030), Some(20)),
];

/// Writes the first bytes of a log to a file.
fn write_front(
    rt: &HostRuntime,
    path: &str,
    bytes: &[u8],
    length: Option<usize>,
) -> Result<(), Fail> {
    if let Some(length) = length {
        fs::write(rt, path, bytes.get(..length).unwrap_or(bytes))?;
    }
    Ok(())
}

#[test]
fn a_call_that_was_killed_is_gone_on_with(rt: HostRuntime) -> Result<(), Fail> {
    for (copy, draft) in &LEFT {
        let bytes = anew(&rt, "bk_dir_cut_again", b"\0\0\0\x15\0\0\0")?;
        write_front(&rt, "bk_dir_cut_again/1f.log.torn", &bytes, *copy)?;
        write_front(&rt, "bk_dir_cut_again/1f.log.torn.new", &bytes, *draft)?;
        let shown = cut(&rt, Form::Text, "bk_dir_cut_again");
        expect(&rt, &shown, 0, CUT, "");
        assert!(rt; fs::read(&rt, "bk_dir_cut_again/1f.log.torn")? == bytes);
        assert!(rt; fs::metadata(&rt, "bk_dir_cut_again/1f.log.torn.new").is_err());
    }
    fs::remove_dir_all(&rt, "bk_dir_cut_again")?;
    Ok(())
}

/// What is told if something else has the name of the draft.
const BLOCKED: &str =
    "fault copy exists: bk_dir_cut_draft/1f.log.torn.new: it is no copy of bk_dir_cut_draft/1f.log\n\
help: move bk_dir_cut_draft/1f.log.torn.new to another name and call './bookie seal --cut-torn' again: it copies the log first\n";

/// Whether the call is refused, and leaves the log and what has the name of the draft.
fn is_blocked(rt: &HostRuntime, bytes: &[u8]) -> Result<bool, Fail> {
    let shown = cut(rt, Form::Text, "bk_dir_cut_draft");
    let is_told = shown.status == 1 && shown.errors.as_slice() == BLOCKED.as_bytes();
    let log = fs::read(rt, "bk_dir_cut_draft/1f.log")?;
    let is_there = fs::symlink_metadata(rt, "bk_dir_cut_draft/1f.log.torn.new").is_ok();
    Ok(is_told && is_there && log.as_slice() == bytes)
}

#[test]
fn a_draft_of_something_else_is_left(rt: HostRuntime) -> Result<(), Fail> {
    let bytes = anew(&rt, "bk_dir_cut_draft", b"\0\0")?;
    let draft = "bk_dir_cut_draft/1f.log.torn.new";
    // Other bytes, more than the log has, a link to the log.
    fs::write(&rt, draft, b"BKLX".as_slice())?;
    assert!(rt; is_blocked(&rt, &bytes)?);
    fs::write(&rt, draft, [0; 3000].as_slice())?;
    assert!(rt; is_blocked(&rt, &bytes)?);
    fs::remove_file(&rt, draft)?;
    symlink(&rt, "1f.log", draft)?;
    assert!(rt; is_blocked(&rt, &bytes)?);
    // The way on.
    fs::rename(&rt, draft, "bk_dir_cut_draft/away")?;
    let shown = cut(&rt, Form::Text, "bk_dir_cut_draft");
    assert!(rt; shown.status == 0);
    assert!(rt; fs::read(&rt, "bk_dir_cut_draft/1f.log.torn")? == bytes);
    fs::remove_dir_all(&rt, "bk_dir_cut_draft")?;
    Ok(())
}

#[test]
fn a_copy_of_something_else_is_moved_away(rt: HostRuntime) -> Result<(), Fail> {
    let bytes = anew(&rt, "bk_dir_cut_other", b"\0\0")?;
    fs::write(&rt, "bk_dir_cut_other/1f.log.torn", b"another".as_slice())?;
    let shown = cut(&rt, Form::Json, "bk_dir_cut_other");
    expect(
        &rt,
        &shown,
        1,
        "",
        "{\"fault\":\"copy exists\",\"log\":31,\"file\":\"bk_dir_cut_other/1f.log\",\"copy\":\"bk_dir_cut_other/1f.log.torn\",\
\"help\":\"move bk_dir_cut_other/1f.log.torn to another name and call './bookie seal --cut-torn' again: it copies the log first\"}\n",
    );
    assert!(rt; fs::read(&rt, "bk_dir_cut_other/1f.log")? == bytes);
    fs::rename(
        &rt,
        "bk_dir_cut_other/1f.log.torn",
        "bk_dir_cut_other/1f.log.torn.1",
    )?;
    let shown = cut(&rt, Form::Text, "bk_dir_cut_other");
    assert!(rt; shown.status == 0);
    assert!(rt; fs::read(&rt, "bk_dir_cut_other/1f.log.torn")? == bytes);
    assert!(rt;
        fs::read(&rt, "bk_dir_cut_other/1f.log.torn.1")?.as_slice() == b"another".as_slice()
    );
    fs::remove_dir_all(&rt, "bk_dir_cut_other")?;
    Ok(())
}

#[test]
fn a_folder_that_another_one_writes_is_left(rt: HostRuntime) -> Result<(), Fail> {
    let bytes = anew(&rt, "bk_dir_cut_held", b"\0\0")?;
    let held = DirDisk::open_to_write(&rt, "bk_dir_cut_held")?;
    let shown = cut(&rt, Form::Text, "bk_dir_cut_held");
    assert!(rt; shown.errors.starts_with(b"fault in use: "));
    assert_eq!(rt; shown.status, 1);
    drop(held);
    assert_eq!(rt; fs::read(&rt, "bk_dir_cut_held/1f.log")?, bytes);
    fs::remove_dir_all(&rt, "bk_dir_cut_held")?;
    Ok(())
}

#[test]
fn a_folder_that_is_not_there(rt: HostRuntime) -> Result<(), Fail> {
    let shown = cut(&rt, Form::Text, "bk_dir_cut_nowhere");
    expect(
        &rt,
        &shown,
        1,
        "",
        "fault disk: bk_dir_cut_nowhere: No such file or directory (os error 2)\n",
    );
    Ok(())
}
