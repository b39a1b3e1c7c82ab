//! Commands of which an allocation is refused, by `rt try --test --fail-alloc N`: whichever it is, a
//! fault that is told as an object is told as `memory`.

use super::durable::FIRST;
use super::folder::anew;
use super::run;
use std::fs;

/// A record of entry 5 of ledger 3.
const RECORD: &[u8] = b"\0\0\0\x12\0\0\0\0\0\0\0\x03\0\0\0\0\0\0\0\x05hi";

/// Makes a directory with a log, and a file with an entry. Does it once more if an allocation is
/// refused.
fn lay(rt: &HostRuntime, folder: &str, file: &str) {
    for _ in 0..2u8 {
        let is_empty = anew(rt, folder).is_ok();
        let shown = run(rt, &["bk_shell", "script", "--folder", folder], FIRST);
        let is_filled = shown.status == 0 && shown.errors.is_empty();
        if fs::write(rt, file, RECORD).is_ok() && is_empty && is_filled {
            return;
        }
    }
}

/// Whether each fault among these lines is that of refused memory.
fn tells_memory_only(lines: &[u8]) -> bool {
    match str::from_utf8(lines) {
        Ok(text) => text
            .split("{\"fault\":\"")
            .skip(1)
            .all(|rest| rest.starts_with("memory\"")),
        Err(_) => false,
    }
}

/// Whether a call on a directory is done, or is told to have no memory.
fn is_done_or_memory(rt: &HostRuntime, folder: &str, words: &[&str]) -> bool {
    let file = "bk_shell_memory.records";
    lay(rt, folder, file);
    let shown = run(rt, words, "");
    let _ = fs::remove_dir_all(rt, folder);
    let _ = fs::remove_file(rt, file);
    shown.status == 0 || tells_memory_only(&shown.errors)
}

#[test]
fn an_import_without_memory_is_told_so(rt: HostRuntime) {
    let words = [
        "bk_shell",
        "--json",
        "import",
        "bk_shell_memory",
        "bk_shell_memory.records",
    ];
    let is = is_done_or_memory(&rt, "bk_shell_memory", &words);
    assert!(rt; is);
}

#[test]
fn a_shown_manifest_without_memory_is_told_so(rt: HostRuntime) {
    let words = ["bk_shell", "--json", "manifest", "bk_shell_memory"];
    let is = is_done_or_memory(&rt, "bk_shell_memory", &words);
    assert!(rt; is);
}

#[test]
fn a_compaction_without_memory_is_told_so(rt: HostRuntime) {
    let words = [
        "bk_shell",
        "--json",
        "compact",
        "--dead=1",
        "bk_shell_memory",
    ];
    let is = is_done_or_memory(&rt, "bk_shell_memory", &words);
    assert!(rt; is);
}
