//! Text from outside, written as HTML.

ghost use Rattle.std.specs.Prelude.{◌≡◌, OnOk};
ghost use Rattle.std.specs.Io.KnownBytes.{Appends};
ghost use Rattle.bk_report.specs.Html.{ShowsText, entity_of};

use std::io;
use std::io::Write;

/// Writes a text as HTML, for an element or a quoted attribute.
pub fn write_text<W: Write>(out: &mut W, text: &str) -> io::Result<()>
    ensures { OnOk result (ShowsText (W.contents out.old) (W.contents out.new) text.now) }
{
    for byte in text.as_bytes() {
        write_byte(out, *byte)?;
    }
    Ok(())
}

/// Writes a byte of a text as HTML.
fn write_byte<W: Write>(out: &mut W, byte: u8) -> io::Result<()>
    ensures { OnOk result (Appends (W.contents out.old) (W.contents out.new) (entity_of byte)) }
{
    match byte {
        b'&' => out.write_all(b"&amp;"),
        b'<' => out.write_all(b"&lt;"),
        b'>' => out.write_all(b"&gt;"),
        b'"' => out.write_all(b"&quot;"),
        b'\'' => out.write_all(b"&#39;"),
        _ => out.write_all(&[byte]),
    }
}
