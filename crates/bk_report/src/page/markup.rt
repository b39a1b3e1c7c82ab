//! Fixed parts of the page.

pub(super) static HEAD: &str = "<!doctype html>
<html lang=\"en\">
<head>
<meta charset=\"utf-8\">
<meta name=\"viewport\" content=\"width=device-width, initial-scale=1\">
<meta name=\"color-scheme\" content=\"light dark\">
<meta http-equiv=\"Content-Security-Policy\" content=\"default-src 'none'; style-src 'unsafe-inline'\">
";

pub(super) static INTRO: &str =
    "<p>A bookie writes the entries of many ledgers, one after another, to files called entry
logs. When a ledger is deleted, its entries stay in the logs as dead bytes until a compaction copies
the live entries of a log to a new log and removes the old one. This page shows what the bytes of
each log are, and what a compaction would free.</p>
";

pub(super) static NONE_DELETED: &str =
    "<p>No deleted ledger was named or read from the manifest of the directory when this page was made, so
every entry counts as live.</p>
";

pub(super) static SOME_DELETED: &str =
    "<p>Dead are the entries of the ledgers that were deleted when this page was made: by the manifest of
the directory, by name, or since no list of live ledgers has them. All others count as live.</p>
";

pub(super) static FOOT: &str = "</main>
<footer class=\"quiet\">
<p>1 KiB is 1,024 bytes. Sizes are rounded down; the exact number is in the title of each size
and bar: rest the pointer on it. This page loads nothing and runs no script.</p>
</footer>
</body>
</html>
";

pub(super) static LEGEND: &str = "<ul class=\"legend\">
<li><b class=\"live\"></b><span><strong>live</strong> entries of ledgers that exist</span></li>
<li><b class=\"dead\"></b><span><strong>dead</strong> entries of deleted ledgers</span></li>
<li><b class=\"foreign\"></b><span><strong>foreign</strong> whole records without an entry, such as the ledgers map</span></li>
<li><b class=\"torn\"></b><span><strong>torn</strong> the end after the last whole record</span></li>
<li><b class=\"doubtful\"></b><span><strong>doubtful</strong> what follows a fault and cannot be read</span></li>
<li><b class=\"rest\"></b><span><strong>rest</strong> the header of 1,024 bytes</span></li>
</ul>
";
