//! Fixed parts of the page.

pub(crate) static HEAD: &str = "<!doctype html>
<html lang=\"en\">
<head>
<meta charset=\"utf-8\">
<meta name=\"viewport\" content=\"width=device-width, initial-scale=1\">
<meta name=\"color-scheme\" content=\"light dark\">
<meta http-equiv=\"Content-Security-Policy\" content=\"default-src 'none'; style-src 'unsafe-inline'\">
<title>Simulation of a bookie</title>
<style>
";

pub(crate) static STYLE: &str = "
:root { --paper: #fff; --ink: #1c2430; --quiet: #5c6675; --line: #d9dee5; --live: #0072b2; --disk: #c8371b; --logs: #0a7d4f; }
@media screen and (prefers-color-scheme: dark) {
  :root { --paper: #14181d; --ink: #e4e8ed; --quiet: #9aa5b3; --line: #333b45; --live: #4fa8dc; --disk: #f2694b; --logs: #4cc38a; }
}
* { box-sizing: border-box; }
html { background: var(--paper); color: var(--ink); }
body { max-width: 72rem; margin: 0 auto; padding: 1.5rem; font: 15px/1.45 system-ui, sans-serif; }
h1 { font-size: 1.6rem; margin: 0; }
h2 { font-size: 1.15rem; margin: 2.2rem 0 .4rem; }
.quiet { color: var(--quiet); }
.scroll { overflow-x: auto; }
table { border-collapse: collapse; width: 100%; font-variant-numeric: tabular-nums; font-size: .9rem; }
th, td { padding: .25rem .42rem; text-align: right; border-bottom: 1px solid var(--line); white-space: nowrap; }
th { font-weight: 600; color: var(--quiet); white-space: normal; vertical-align: bottom; }
th[colspan] { text-align: center; white-space: nowrap; }
th.text, td.text { text-align: left; }
th.name, td.name { text-align: left; position: sticky; left: 0; background: var(--paper); }
svg { display: block; width: 100%; max-width: 52rem; margin: .4rem 0 .8rem; }
svg text { fill: var(--quiet); font: 12px system-ui, sans-serif; }
.grid { stroke: var(--line); }
.grid, polyline { vector-effect: non-scaling-stroke; }
polyline { fill: none; stroke-width: 1.8; stroke-linejoin: round; }
.live { stroke: var(--live); color: var(--live); }
.disk { stroke: var(--disk); color: var(--disk); }
.logs { stroke: var(--logs); color: var(--logs); }
span.live, span.disk, span.logs { font-weight: 600; margin-right: 1em; white-space: nowrap; }
span.live::before, span.disk::before, span.logs::before {
  content: \"\"; display: inline-block; width: 1.4em; margin-right: .35em; border-top: 3px solid; vertical-align: .25em;
}
@media (max-width: 40rem) {
  body { padding: 1rem; }
  svg text { font-size: 24px; }
}
";

pub(crate) static BEGIN: &str = "</style>
</head>
<body>
<header>
<h1>Simulation of a bookie</h1>
<p class=\"quiet\">The store ran over a disk that keeps lengths and keys of records, and no data. Each
simulated record represents as many entries of one ledger as the last column says. A log whose live
part is below a threshold is compacted. Means, and the peak of the amplification of space, are those
of the second half of a run. A hold of the lock is counted in instructions; one in a thousand takes
more than the first of the two numbers.</p>
</header>
<main>
";

pub(crate) static KEY_BYTES: &str =
    "<span class=\"disk\">all logs</span> <span class=\"live\">live records</span></p>
";

pub(crate) static KEY_LOGS: &str = "<p>Number: <span class=\"logs\">logs that are held</span></p>
";

pub(crate) static FOOT: &str = "</main>
<footer class=\"quiet\">
<p>1 KiB is 1,024 bytes, 1 MiB 1,024 KiB, 1 GiB 1,024 MiB. This page loads nothing and runs no script.</p>
</footer>
</body>
</html>
";
