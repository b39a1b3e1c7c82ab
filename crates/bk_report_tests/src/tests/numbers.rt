//! Texts, numbers, classes of sizes, sums, and what a compaction frees.

use super::{ESCAPED, HOSTILE, faulty, log, mixed};
use bk_report::{LogRow, effect_of, size_class, totals_of, write_number, write_text};
use std::io::Write;
use std::process::Abort;
use std::test::Fail;

#[test]
fn writes_text_with_entities(rt: HostRuntime) -> Result<(), Fail> {
    let mut out = Vec::new(rt.alloc());
    write_text(&mut out, HOSTILE)?;
    write_text(&mut out, "é &lt;")?;
    let expected = format!(in rt.alloc(); "{ESCAPED}é &amp;lt;")?;
    assert_eq!(rt; out.as_slice(), expected.as_bytes());
    Ok(())
}

#[test]
fn writes_numbers_with_commas(rt: HostRuntime) -> Result<(), Fail> {
    let mut out = Vec::new(rt.alloc());
    for number in [0, 999, 1000, 1_002_030, u64::MAX] {
        write_number(&mut out, number)?;
        out.write_all(b" ")?;
    }
    let expected = "0 999 1,000 1,002,030 18,446,744,073,709,551,615 ";
    assert_eq!(rt; out.as_slice(), expected.as_bytes());
    Ok(())
}

#[test]
fn classes_are_powers_of_two(rt: HostRuntime) {
    let sizes = [0, 1, 2, 3, 4, 1023, 1024, u64::MAX];
    let classes = [0, 0, 1, 1, 2, 9, 10, 63];
    for (size, class) in sizes.iter().zip(classes.iter()) {
        assert_eq!(rt; size_class(*size), *class, "of {size}");
    }
}

#[test]
fn compaction_frees_what_the_copies_do_not_need(rt: HostRuntime) -> Result<(), Fail> {
    let mut logs = Vec::new(rt.alloc());
    logs.push(log(0, 0, 700))?;
    logs.push(log(1, 200, 800))?;
    logs.push(log(2, 600, 400))?;
    logs.push(log(3, 1000, 0))?;
    logs.push(faulty(rt.alloc(), 4)?)?;
    logs.push(LogRow {
        is_kept: true,
        ..log(5, 0, 900)
    })?;
    let thresholds = [0, 200, 201, 601, 1000, 1001];
    let effects = [
        (1, 0, 830),
        (1, 0, 830),
        (2, 200, 1660),
        (3, 800, 2090),
        (3, 800, 2090),
        (4, 1800, 2120),
    ];
    for (threshold, expected) in thresholds.iter().zip(effects.iter()) {
        let found = effect_of(&logs, *threshold);
        assert_eq!(rt;
            (found.logs, found.copied, found.freed),
            *expected,
            "below {threshold}"
        );
    }
    Ok(())
}

#[test]
fn sums_over_logs_stop_at_the_greatest_number(rt: HostRuntime) -> Result<(), Fail> {
    let mut logs = Vec::new(rt.alloc());
    logs.push(log(0, u64::MAX, 1))?;
    logs.push(mixed(1))?;
    let totals = totals_of(&logs);
    assert_eq!(rt;
        (totals.bytes, totals.live, totals.dead),
        (u64::MAX, u64::MAX, 501)
    );
    assert_eq!(rt;
        (totals.entries, totals.largest, totals.sealed),
        (14, u64::MAX, 1)
    );
    assert_eq!(rt; effect_of(&logs, 1000).freed, 0);
    Ok(())
}
