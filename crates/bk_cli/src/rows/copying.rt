//! The commands that copy logs to new ones, or read them to their ends for their hints.

use crate::row::CommandRow;
use crate::words::{
    BELOW, CHECK_HINTS, DEAD, DEAD_FILE, DRY_RUN, INDEX_IS_REBUILT, LIVE_FILE, LIVE_NONE, MAJOR,
    MINOR, NO_HINTS, NO_MANIFEST,
};

/// In the order of the help.
pub static COPYING: &[CommandRow] = &[
    CommandRow {
        name: "compact",
        operands: &[],
        options: &[
            MINOR,
            MAJOR,
            BELOW,
            DEAD,
            DEAD_FILE,
            LIVE_FILE,
            LIVE_NONE,
            NO_MANIFEST,
            NO_HINTS,
            DRY_RUN,
            INDEX_IS_REBUILT,
        ],
        summary: "Compact logs with few live bytes, and remove logs that no entry needs",
        help: "\
Opens a store on the logs of DIR and removes each log that no index entry points into. Then it
compacts one log after another, the one with the smallest live share first, until no log has a live
share below the threshold. The live bytes of a log are the records of ledgers that are not deleted.
Live entries are copied to a new log; the old log is removed after the new one is
sealed and synced. The last line is `before N after N freed BYTES moved ENTRIES`: the number of logs
before and after, the number of bytes by which the files are shorter (`-BYTES` if they are longer),
and the number of entries copied.

Deleted are the ledgers that the directory's manifest records, those that --dead and --dead-file
name, and with --live-file or --live-none each ledger of DIR that no such file lists. The deletion of
those that are named is recorded, durably, before anything is removed: they stay deleted. With
--no-manifest nothing is recorded, and what is recorded does not count. The entries of a deleted ledger
are lost for good when their log is removed. A FILE has one ledger per line, in plain digits; empty
lines are ignored. A FILE of live ledgers may also have lines as `ledgerID: 12`; one that lists none is
refused, unless --live-none says that none is live.

A stock bookie has an index of its own, which points into logs that a compaction removes. If DIR has
`VERSION`, `lastMark`, `locations` or `ledgers`, the command is refused without --index-is-rebuilt. With
it, stop the bookie, compact, and rebuild its index before it starts: `bookkeeper shell
rebuild-db-ledger-locations-index`.

A file with a log's name that is shorter than a header (1024 bytes) and not empty is kept, and reported
on the error stream, unless its copy FILE.torn has the same bytes: it may be what a crash left of a log.

With --dry-run the directory is only read. One line per log to be taken is printed, by rising id:
`ID LENGTH remove` or `ID LENGTH compact ENTRIES`. Then one per ledger that is named, or not listed as
live, rising: `ledger LEDGER entries N bytes N`, the records that it has in all logs; 0 if no log has
one. The last line is the one that the compaction would print. If there are not enough free ids or slots for all copies, the logs to be removed are printed, and
then the fault. With --json a log has `log`, `length`, `fate` and `entries`, a ledger
`ledger`, `entries` and `bytes`, and the last line `before`, `after`, `freed` and `moved`.

One program at a time writes to a directory. If another one does, the command is refused and names
its process. A bookie that runs on the directory does not take the lock: stop it first. The command
may be killed at any moment: every entry of a ledger that is not named is still found, and the next
call goes on. If the error stream is a terminal, a line there shows the progress.

A sealed log that has a hint is opened by it and not read. A hint that may not be used is noted on the
error stream, `note hint not used: log ID: REASON`. The hint of a log that is removed is removed; none
is made: `bookie hint` does that.

Exit status: 0 if all was done; 1 on a fault, `fault TEXT` on the error stream, and what was done
before stays done; 2 if the command line is wrong.

Examples:
  $ ./bookie compact --dead 2 --dry-run /var/bookie/current
  0 1325 compact 1
  1 1085 remove
  ledger 2 entries 2 bytes 241
  before 3 after 2 freed 1321 moved 1
  $ ./bookie compact --dead 2 /var/bookie/current
  before 3 after 2 freed 1321 moved 1
",
    },
    CommandRow {
        name: "hint",
        operands: &[],
        options: &[CHECK_HINTS],
        summary: "Make the hints by which sealed logs are opened",
        help: "\
Makes a hint of each sealed log that has none that may be used: a small file beside the log, 1f.hint of
1f.log, which lists the log's entries. A store that is opened on DIR, and find, entries, ledgers, stat
and export then read the hint and not the log's records. A bookie ignores the file, and DIR may be
copied or moved without it. Prints one line per hint that was made, by rising id, as soon as it is
there: `ID bytes N`, the size of the file. The last line has the numbers of logs: `made N kept N
unsealed N unfit N removed N`.
  made      whose hint was made
  kept      that have a hint that may be used
  unsealed  that are not sealed and get none: they may still be written
  unfit     that are sealed, and `check` reports: a record has a bad length, or the map is another one
  removed   that do not exist, and whose hint was removed

Each log is read to its end, and synced before its hint is written. The command takes no lock: a bookie
may work in DIR. It may be killed at any moment, and the next call goes on.

A hint is used only if it is whole and fits the log's length, header and ledgers map. One that does not
fit is noted by the command that reads the log, `note hint not used: log ID: REASON`, and made again by
the next call of this one. With --no-hints a command uses none. check and scan use none.

With --check nothing is written. Prints one line per log, by rising id: `ID STATE`. STATE is
  right           it may be used, and is the one that a scan of the log makes; the log is read for it
  wrong REASON    it may not be used, or a scan of the log makes another one or none
  none            the log is sealed, and has no hint
  unsealed        the log is not sealed, and has no hint
  no log          there is a hint and no log. Nothing reads it

Exit status: 0; 1 on a fault, `fault log ID: TEXT` on the error stream if a log cannot be read or its
hint not be written, and the next log is taken, or if --check finds a wrong hint; 2 if the command line
is wrong.

Examples:
  $ ./bookie hint /var/bookie/current
  0 bytes 64
  made 1 kept 0 unsealed 1 unfit 0 removed 0
  $ ./bookie hint --check /var/bookie/current
  0 right
  3 unsealed
",
    },
];
