//! Pages on directories of the system. Each test makes its directory and removes it.

use super::{THRESHOLDS, damaged, sealed};
use bk_inspect::{Ends, Form};
use bk_survey::report_folder;
use std::io::{ErrorKind, Write};
use std::os::unix::fs::symlink;
use std::test::Fail;
use std::{fs, io};

/// What a call leaves.
#[derive(Drop)]
pub(super) struct Shown {
    pub(super) status: u8,
    pub(super) output: Vec<u8>,
    pub(super) errors: Vec<u8>,
}

/// Writes the page on a directory.
pub(super) fn report(rt: &HostRuntime, form: Form, path: &str) -> Shown {
    let mut output = Vec::new(rt.alloc());
    let mut errors = Vec::new(rt.alloc());
    let status = report_folder(
        rt,
        form,
        path,
        Ends::Durable,
        &[],
        THRESHOLDS,
        &mut output,
        &mut errors,
    );
    Shown {
        status,
        output,
        errors,
    }
}

/// Makes a directory with one sealed log.
pub(super) fn anew(rt: &HostRuntime, folder: &str) -> Result<(), Fail> {
    let _ = fs::remove_dir_all(rt, folder);
    fs::create_dir(rt, folder)?;
    let log = sealed(rt.alloc())?;
    fs::write(rt, format!(in rt.alloc(); "{folder}/0.log")?.as_str(), log)?;
    Ok(())
}

#[test]
fn a_directory_without_a_fault(rt: HostRuntime) -> Result<(), Fail> {
    anew(&rt, "bk_survey_<good>")?;
    let shown = report(&rt, Form::Text, "bk_survey_<good>");
    fs::remove_dir_all(&rt, "bk_survey_<good>")?;
    let page = str::from_utf8(&shown.output)?;
    assert_eq!(rt; shown.status, 0);
    assert_eq!(rt; shown.errors.len(), 0);
    assert!(rt; page.starts_with("<!doctype html>") && page.ends_with("</html>\n"));
    assert!(rt; page.contains("bk_survey_&lt;good&gt;") && !page.contains("<good>"));
    Ok(())
}

/// What is reported of a damaged log and of a link to nothing, as text and as objects.
const TOLD: &str = "fault log 4: bad length 1064 7\n\
fault log 5: disk: No such file or directory (os error 2)\n";

const OBJECTS: &str = "{\"fault\":\"bad length\",\"at\":1064,\"length\":7,\"log\":4}\n\
{\"fault\":\"disk\",\"log\":5,\"reason\":\"No such file or directory (os error 2)\"}\n";

/// What the page says of them.
const NAMED: [&str; 2] = [
    "<li>log 4 (4.log): bad length 1064 7</li>",
    "<li>log 5 (5.log), left out: open: No such file or directory (os error 2)</li>",
];

#[test]
fn what_can_not_be_read_is_named(rt: HostRuntime) -> Result<(), Fail> {
    anew(&rt, "bk_survey_bad")?;
    let bad = damaged(rt.alloc(), b"BKLO\0\0\0\x01")?;
    fs::write(&rt, "bk_survey_bad/4.log", bad)?;
    symlink(&rt, "nothing", "bk_survey_bad/5.log")?;
    let shown = report(&rt, Form::Text, "bk_survey_bad");
    let object = report(&rt, Form::Json, "bk_survey_bad");
    fs::remove_dir_all(&rt, "bk_survey_bad")?;
    assert_eq!(rt; shown.status, 1);
    assert_eq!(rt; shown.errors.as_slice(), TOLD.as_bytes());
    assert_eq!(rt; object.errors.as_slice(), OBJECTS.as_bytes());
    let page = str::from_utf8(&shown.output)?;
    for line in NAMED.iter() {
        assert!(rt; page.contains(line), "{line}");
    }
    Ok(())
}

#[test]
fn no_page_on_a_directory_that_is_missing(rt: HostRuntime) {
    let shown = report(&rt, Form::Text, "bk_survey_missing");
    assert_eq!(rt; shown.status, 1);
    assert_eq!(rt; shown.output.len(), 0);
    assert!(rt; shown.errors.starts_with(b"fault disk: bk_survey_missing: "));
}

/// Fails at each call, in this way.
#[derive(Drop)]
struct Failing(ErrorKind);

impl Write for Failing {
    fn write(&mut self, _buf: &[u8]) -> io::Result<usize> {
        Err(io::Error::from(self.0))
    }

    fn flush(&mut self) -> io::Result<()> {
        Err(io::Error::from(self.0))
    }
}

#[test]
fn a_page_that_can_not_be_written(rt: HostRuntime) -> Result<(), Fail> {
    anew(&rt, "bk_survey_full")?;
    for (kind, is_told) in [(ErrorKind::Other, true), (ErrorKind::BrokenPipe, false)] {
        let mut errors = Vec::new(rt.alloc());
        let mut writer = Failing(kind);
        let status = report_folder(
            &rt,
            Form::Text,
            "bk_survey_full",
            Ends::Durable,
            &[],
            THRESHOLDS,
            &mut writer,
            &mut errors,
        );
        assert_eq!(rt; status, 1);
        assert_eq!(rt; errors.starts_with(b"fault output: "), is_told);
    }
    fs::remove_dir_all(&rt, "bk_survey_full")?;
    Ok(())
}
