//! The style of the page, in pieces.

pub(super) static PIECES: [&str; 5] = [
    "
:root {
  --paper: #fff; --ink: #1c2430; --quiet: #5c6675; --line: #d9dee5; --panel: #f5f7f9;
  --live: #0072b2; --dead: #e69f00; --foreign: #8a63b3; --torn: #303a47; --doubtful: #c8371b;
  --rest: #b4bcc6; --good: #0a7d4f; --track: #e9edf1;
}
@media screen and (prefers-color-scheme: dark) {
  :root {
    --paper: #14181d; --ink: #e4e8ed; --quiet: #9aa5b3; --line: #333b45; --panel: #1c2229;
    --live: #4fa8dc; --dead: #f0b13c; --foreign: #b493d6; --torn: #e9eef4; --doubtful: #f2694b;
    --rest: #5a6572; --good: #4cc38a; --track: #262d36;
  }
}
",
    "
* { box-sizing: border-box; }
html { background: var(--paper); color: var(--ink); -webkit-print-color-adjust: exact; print-color-adjust: exact; }
body { max-width: 72rem; margin: 0 auto; padding: 1.5rem; font: 15px/1.45 system-ui, sans-serif; }
h1 { font-size: 1.6rem; margin: 0; overflow-wrap: anywhere; }
h2 { font-size: 1.15rem; margin: 2.2rem 0 .4rem; }
p { margin: .3rem 0 .8rem; max-width: 46rem; }
code { font: .92em ui-monospace, monospace; }
.quiet { color: var(--quiet); }
.bad { color: var(--doubtful); }
.good { color: var(--good); }
.tiles { display: grid; grid-template-columns: repeat(auto-fit, minmax(9.4rem, 1fr)); gap: .6rem; margin: 1.2rem 0; padding: 0; }
.tiles li { list-style: none; background: var(--panel); border: 1px solid var(--line); border-radius: 6px; padding: .5rem .75rem; color: var(--quiet); }
.tiles b { display: block; font-size: 1.15rem; font-weight: 600; color: var(--ink); }
.tiles b.bad { color: var(--doubtful); }
.tiles b.good { color: var(--good); }
a { color: inherit; }
",
    "
.legend { display: grid; grid-template-columns: repeat(auto-fit, minmax(19rem, 1fr)); gap: .15rem 1.2rem; margin: .4rem 0 1rem; padding: 0; font-size: .9rem; }
.legend li { list-style: none; display: flex; gap: .5rem; align-items: baseline; color: var(--quiet); }
.legend b { flex: none; width: .8rem; height: .8rem; border-radius: 2px; }
.legend strong { color: var(--ink); }
.live { background: var(--live); fill: var(--live); }
.dead { background: var(--dead); fill: var(--dead); }
.foreign { background: var(--foreign); fill: var(--foreign); }
.torn { background: var(--torn); fill: var(--torn); }
.doubtful { background: var(--doubtful); fill: var(--doubtful); }
.rest { background: var(--rest); fill: var(--rest); }
",
    "
.scroll { overflow-x: auto; }
table { border-collapse: collapse; width: 100%; font-variant-numeric: tabular-nums; font-size: .9rem; }
th, td { padding: .25rem .42rem; text-align: right; border-bottom: 1px solid var(--line); white-space: nowrap; }
th { font-weight: 600; color: var(--quiet); }
th:first-child, td:first-child { padding-left: 0; }
td.text, th.text { text-align: left; white-space: normal; overflow-wrap: break-word; min-width: 6.2rem; }
th.text { white-space: nowrap; }
th.id, td.id { text-align: left; width: 1%; padding-right: 1.2rem; }
td.chart { width: 30%; min-width: 7rem; }
table.narrow { max-width: 52rem; }
tr.mark td { font-weight: 600; }
svg { display: block; width: 100%; }
svg.bar { height: .85rem; }
svg text { fill: var(--quiet); font: 12px system-ui, sans-serif; }
.strip { margin: 0 0 .7rem; }
.strip p { margin: 0; font-size: .8rem; }
.grid { stroke: var(--line); }
.freed { fill: none; stroke: var(--good); stroke-width: 2.5; }
.copied { fill: none; stroke: var(--live); stroke-width: 2; stroke-dasharray: 6 4; }
.mark { stroke: var(--quiet); stroke-dasharray: 2 4; }
.key { flex: none; width: 1.9rem; height: .6rem; align-self: center; }
.curve { max-width: 52rem; margin-bottom: .8rem; }
.dot { fill: transparent; }
.dot:hover { fill: var(--ink); }
summary { cursor: pointer; color: var(--quiet); margin: .6rem 0; }
",
    "
@media (max-width: 40rem) { body { padding: .8rem; } }
@media print {
  body { max-width: none; padding: 0; font-size: 10pt; }
  h2, section > p { break-after: avoid; }
  tr, .strip, .tiles li, svg, table.narrow { break-inside: avoid; }
  .tiles { grid-template-columns: repeat(6, 1fr); }
  .legend { grid-template-columns: repeat(2, 1fr); break-after: avoid; }
  thead { display: table-header-group; }
  .scroll { overflow: visible; }
}
",
];
