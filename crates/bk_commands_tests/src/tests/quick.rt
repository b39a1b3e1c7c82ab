//! `check --quick` on a real folder, and the options that it excludes.

use super::compact::fill;
use super::durable::put;
use super::folder::{DONE, Row, check};
use super::{holds, run};
use std::fs;
use std::test::Fail;

/// Checks of a folder without a fault, and what each is to leave.
const WHOLE: [Row<'static>; 2] = [
    Row {
        words: &["bk_shell", "check", "--quick", "bk_shell_quick"],
        output: "0 sealed\n1 sealed\n2 unsealed\n",
        ..DONE
    },
    Row {
        words: &["bk_shell", "check", "bk_shell_quick", "--quick", "--json"],
        output: "{\"log\":0,\"health\":\"sealed\"}\n{\"log\":1,\"health\":\"sealed\"}\n{\"log\":2,\"health\":\"unsealed\"}\n",
        ..DONE
    },
];

/// Checks of damaged files as they are. With `--quick` neither the invalid record of log 0 is seen nor
/// the torn end of log 2.
const DAMAGED: [Row<'static>; 3] = [
    Row {
        words: &[
            "bk_shell",
            "check",
            "--quick",
            "--no-manifest",
            "bk_shell_quick",
        ],
        status: 1,
        output: "0 sealed\n1 fault not a map 1045\n2 unsealed\n3 short\n4 fault bad magic\n",
        ..DONE
    },
    Row {
        words: &[
            "bk_shell",
            "--json",
            "check",
            "--quick",
            "--no-manifest",
            "bk_shell_quick",
        ],
        status: 1,
        output: "{\"log\":0,\"health\":\"sealed\"}\n{\"log\":1,\"health\":\"fault\",\"fault\":\"not a map\",\"at\":1045}\n{\"log\":2,\"health\":\"unsealed\"}\n{\"log\":3,\"health\":\"short\"}\n{\"log\":4,\"health\":\"fault\",\"fault\":\"bad magic\"}\n",
        ..DONE
    },
    Row {
        words: &[
            "bk_shell",
            "--json",
            "check",
            "--no-manifest",
            "bk_shell_quick",
        ],
        status: 1,
        output: "{\"log\":0,\"health\":\"fault\",\"fault\":\"bad length\",\"at\":1024,\"length\":7}\n{\"log\":1,\"health\":\"fault\",\"fault\":\"not a map\",\"at\":1045}\n{\"log\":2,\"health\":\"unsealed\",\"torn\":3}\n{\"log\":3,\"health\":\"short\"}\n{\"log\":4,\"health\":\"fault\",\"fault\":\"bad magic\"}\n",
        ..DONE
    },
];

/// The same files by their manifest.
const BY_MANIFEST: [Row<'static>; 1] = [Row {
    words: &["bk_shell", "check", "--quick", "bk_shell_quick"],
    status: 1,
    output: "0 sealed\n1 fault not a map 1045\n2 unsealed\n3 short\n4 fault bad magic\n",
    errors: "note log 2: 3 bytes ignored from position 1048: not durable\nnote durable bytes missing: log 1 has 1084 of 1085 durable bytes\n",
}];

/// Damages the files of the folder: a record, a map, and the end of the unsealed log. Then adds a
/// file that is short and one with an invalid header.
fn damage(rt: &HostRuntime) -> Result<(), Fail> {
    put(rt, "bk_shell_quick/0.log", 1024, &[0, 0, 0, 7])?;
    let mut second = fs::read(rt, "bk_shell_quick/1.log")?;
    second.truncate(1084);
    fs::write(rt, "bk_shell_quick/1.log", second.as_slice())?;
    let mut third = fs::read(rt, "bk_shell_quick/2.log")?;
    third.extend_from_slice(b"\0\0\0")?;
    fs::write(rt, "bk_shell_quick/2.log", third.as_slice())?;
    fs::write(rt, "bk_shell_quick/3.log", b"BKLO".as_slice())?;
    fs::write(rt, "bk_shell_quick/4.log", [7; 1024].as_slice())?;
    Ok(())
}

#[test]
fn headers_and_maps_of_a_folder_are_checked(rt: HostRuntime) -> Result<(), Fail> {
    fill(&rt, "bk_shell_quick")?;
    check(&rt, &rt, &WHOLE);
    damage(&rt)?;
    check(&rt, &rt, &DAMAGED);
    check(&rt, &rt, &BY_MANIFEST);
    fs::remove_dir_all(&rt, "bk_shell_quick")?;
    Ok(())
}

/// Checks with options that exclude each other.
const EXCLUDED: [&[&str]; 3] = [
    &["bk_shell", "check", "--quick", "--long", "folder"],
    &["bk_shell", "check", "--digest=auto", "--quick", "folder"],
    &["bk_shell", "check", "folder", "--quick", "--quick"],
];

#[test]
fn a_quick_check_has_no_options_on_entries(rt: HostRuntime) {
    for words in EXCLUDED {
        let shown = run(&rt, words, "");
        assert!(rt; shown.status == 2 && shown.output.is_empty(), "{words:?}");
        assert!(rt; holds(&shown.errors, "--quick"), "{words:?}");
    }
}
