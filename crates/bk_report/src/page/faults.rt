//! The faults.

use crate::write_text;
use std::io;
use std::io::Write;

/// Writes a list of the faults; nothing if there are none.
pub(super) fn write_section<W: Write>(faults: &[String], out: &mut W) -> io::Result<()> {
    if faults.is_empty() {
        return Ok(());
    }
    out.write_all(b"<section id=\"faults\">\n<h2>Faults</h2>\n<ul class=\"bad\">\n")?;
    for fault in faults {
        out.write_all(b"<li>")?;
        write_text(out, fault.as_str())?;
        out.write_all(b"</li>\n")?;
    }
    out.write_all(b"</ul>\n</section>\n")
}
