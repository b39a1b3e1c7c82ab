//! What a page shows of the manifests of a directory. Each test makes its directory and removes it.

use super::folders::{anew, report};
use bk_inspect::Form;
use bk_manifest::{Record, State, rewritten};
use std::fs;
use std::test::Fail;

/// Writes a manifest of one record.
fn write_record(rt: &HostRuntime, path: &str, one: Record) -> Result<(), Fail> {
    let mut state = State::new(rt.alloc());
    state.apply(one)?;
    let bytes = rewritten(rt.alloc(), 0, &state)?;
    fs::write(rt, path, bytes)?;
    Ok(())
}

/// Writes a manifest by which log 0 has this many durable bytes. The log of `anew` has 1,164.
fn promise(rt: &HostRuntime, path: &str, length: u64) -> Result<(), Fail> {
    write_record(rt, path, Record::DurableLog { log: 0, length })
}

/// What the page shows of a whole log and a deleted ledger.
const WHOLE: [&str; 3] = [
    "<td class=\"text\">durable</td><td><span title=\"1,164 bytes\">1.1 KiB</span></td>\
    <td><span title=\"1,164 bytes\">1.1 KiB</span></td></tr>",
    "<p>Deleted ledgers: 1 (7).</p>",
    "<p>Fenced ledgers: 0.</p>",
];

#[test]
fn the_manifests_are_on_the_page(rt: HostRuntime) -> Result<(), Fail> {
    anew(&rt, "bk_survey_kept")?;
    promise(&rt, "bk_survey_kept/logs.manifest", 1164)?;
    let deletion = Record::DeletedLedger(7);
    write_record(&rt, "bk_survey_kept/ledgers.manifest", deletion)?;
    let shown = report(&rt, Form::Text, "bk_survey_kept");
    fs::remove_dir_all(&rt, "bk_survey_kept")?;
    assert!(rt; shown.status == 0 && shown.errors.is_empty());
    let page = str::from_utf8(&shown.output)?;
    for part in WHOLE.iter() {
        assert!(rt; page.contains(part), "{part}");
    }
    Ok(())
}

/// What the page shows of a log that lacks durable bytes.
const LACKING: &str =
    "<td class=\"text\">durable</td><td><span title=\"2,048 bytes\">2.0 KiB</span></td>\
<td class=\"bad\"><span title=\"1,164 bytes\">1.1 KiB</span></td></tr>";

#[test]
fn a_log_that_lacks_durable_bytes(rt: HostRuntime) -> Result<(), Fail> {
    anew(&rt, "bk_survey_lacking")?;
    promise(&rt, "bk_survey_lacking/logs.manifest", 2048)?;
    let shown = report(&rt, Form::Text, "bk_survey_lacking");
    fs::remove_dir_all(&rt, "bk_survey_lacking")?;
    let page = str::from_utf8(&shown.output)?;
    assert!(rt; page.contains(LACKING));
    assert!(rt; page.contains("<p>Deleted ledgers: 0.</p>"));
    Ok(())
}

/// What is reported of a manifest that is too short, and how the page names it.
const TOLD: &str =
    "note logs are read to their ends: short manifest 4 in bk_survey_hurt/logs.manifest\n\
fault manifest: short manifest 4 in bk_survey_hurt/logs.manifest\n";

const OBJECT: &str =
    "{\"fault\":\"manifest\",\"reason\":\"short manifest 4 in bk_survey_hurt/logs.manifest\"}\n";

const NAMED: &str = "<li>manifest: short manifest 4 in bk_survey_hurt/logs.manifest</li>";

#[test]
fn a_damaged_manifest_is_named(rt: HostRuntime) -> Result<(), Fail> {
    anew(&rt, "bk_survey_hurt")?;
    fs::write(&rt, "bk_survey_hurt/logs.manifest", b"none".as_slice())?;
    let shown = report(&rt, Form::Text, "bk_survey_hurt");
    let object = report(&rt, Form::Json, "bk_survey_hurt");
    fs::remove_dir_all(&rt, "bk_survey_hurt")?;
    assert!(rt; shown.status == 1 && object.status == 1);
    assert_eq!(rt; shown.errors.as_slice(), TOLD.as_bytes());
    assert!(rt; object.errors.ends_with(OBJECT.as_bytes()));
    let page = str::from_utf8(&shown.output)?;
    assert!(rt; page.contains(NAMED) && !page.contains("<h2>Manifest</h2>"));
    Ok(())
}
