//! A script with thousands of lines.

use super::{is_shown, run};
use std::alloc::AllocError;
use std::test::Fail;

/// Number of entries added, flushed and read, of the ledger with the largest id.
const ENTRIES: u64 = 500;

/// Returns the position of the record of an entry, which takes 20 bytes.
fn place(entry: u64) -> u64 {
    entry.saturating_mul(20).saturating_add(1028)
}

/// Appends a text and a number to a text.
fn push(text: &mut String, before: &str, number: u64, after: &str) -> Result<(), AllocError> {
    write!(text, "{before}{number}{after}")
}

/// Adds each entry.
fn push_adds(script: &mut String, output: &mut String) -> Result<(), AllocError> {
    for entry in 0..ENTRIES {
        push(script, "add 9223372036854775807 ", entry, "\n")?;
        output.push_str("accepted\n")?;
    }
    Ok(())
}

/// Flushes each entry.
fn push_flush(script: &mut String, output: &mut String) -> Result<(), AllocError> {
    script.push_str("swap\n")?;
    push(output, "swapped ", ENTRIES, "\n")?;
    for entry in 0..ENTRIES {
        script.push_str("write\n")?;
        push(output, "wrote ", place(entry), "\n")?;
    }
    script.push_str("publish\n")?;
    push(output, "published ", ENTRIES, "\n")
}

/// Reads each entry by a lease.
fn push_reads(script: &mut String, output: &mut String) -> Result<(), AllocError> {
    for entry in 0..ENTRIES {
        push(
            script,
            "take 0 9223372036854775807 ",
            entry,
            "\nfetch 0\nrelease 0\n",
        )?;
        push(output, "leased ", place(entry), "\nbytes -\nreleased\n")?;
    }
    Ok(())
}

#[test]
fn each_of_thousands_of_lines_is_answered(rt: HostRuntime) -> Result<(), Fail> {
    let mut script = String::new(rt.alloc());
    let mut output = String::new(rt.alloc());
    push_adds(&mut script, &mut output)?;
    push_flush(&mut script, &mut output)?;
    push_reads(&mut script, &mut output)?;
    let shown = run(rt.alloc(), &script);
    assert!(rt; is_shown(&shown, 0, &output, ""));
    Ok(())
}
