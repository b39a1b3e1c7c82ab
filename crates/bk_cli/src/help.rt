//! The help of the program and of `script`, and the list of commands.

use crate::row::{CommandRow, Listed};
use crate::rows::{reading_tables, writing_tables};
use std::fmt;
use std::fmt::{Display, Formatter};

/// The program's name in its texts, whatever its file is called.
pub(crate) const PROGRAM: &str = "bookie";

/// Summary of `script` in one line.
pub(crate) const ABOUT_SCRIPT: &str =
    "Run steps from standard input on a store in memory or on a directory, and print each answer";

/// Summary of the program in one line.
pub const ABOUT: &str = "Entry log storage of a bookie\n\n";

/// Usage of the program.
const CALLED: &str = "\
Usage: bookie COMMAND [OPTIONS] [WORDS]

";

/// The commands that do not work on a directory alone, and notes on all commands.
const OTHERS: &str = "
Run a store, in memory or on a directory:
  script                                Run steps from standard input, and print each answer
  load                                  Load a bookie from many threads, and check its files

General:
  help COMMAND                          Show the help of a command, with examples
  --help, --version

With --json, after ./bookie or after the command, each line about a directory is a JSON object.

";

/// Usage of the program and the list of its commands, including `load`. The text ends with an empty
/// line.
#[derive(Clone, Copy, Debug)]
pub struct Commands;

impl Display for Commands {
    fn fmt<W: fmt::Write>(&self, f: &mut Formatter<W>) -> fmt::Result {
        f.write_str(CALLED)?;
        f.write_str("Inspect a directory of entry logs:\n")?;
        for rows in reading_tables() {
            write!(f, "{}", ListedRows { rows })?;
        }
        f.write_str("\nWrite to a directory of entry logs:\n")?;
        for rows in writing_tables() {
            write!(f, "{}", ListedRows { rows })?;
        }
        f.write_str(OTHERS)
    }
}

/// A table of commands in the list of commands. The text is a line for each.
#[derive(Clone, Copy)]
struct ListedRows {
    rows: &'static [CommandRow],
}

impl Display for ListedRows {
    fn fmt<W: fmt::Write>(&self, f: &mut Formatter<W>) -> fmt::Result {
        for row in self.rows {
            write!(f, "{}", Listed { row })?;
        }
        Ok(())
    }
}

/// The program's version, and the logic that its proofs are of, whatever release of the toolchain has
/// it. The program cannot know whether it was proved or is run from its sources; `./bookie` can, and
/// adds a line.
pub const VERSION: &str = "bookie 0.1.0\nlogic dac8208d650f15bf\n";

/// The help of the program after the list of its commands.
pub const PROGRAM_HELP: &str = "\
DIR is a directory of entry logs. A log is a file named by its id in hexadecimal, such as 1f.log;
other files are ignored. LOG is the id in decimal, 0 to 2147483647, or the file's name: 31 and 1f.log
are the same log. LEDGER and ENTRY are 0 to 9223372036854775807.

Exit status:
  0  everything was done or shown
  1  a command ended early, with `fault TEXT` on the error stream; or a log could not be read, which
     is reported there too; or `check` found a fault. If nobody reads the output any more, a command
     ends with status 1 and reports nothing
  2  the command line is wrong

Example:
  $ ./bookie check /var/bookie/current
  0 ok
  1 fault bad length 52310 7
  2 unsealed
";

/// The help of `script`.
pub(crate) const SCRIPT_HELP: &str = "\
Reads steps from standard input, one per line, and prints one answer per step. Empty lines are
ignored. All lines are read before the first step is run; on a terminal, Ctrl-D ends them. The steps
and their answers:
  add LEDGER ENTRY [TEXT]   accepted | held
                            add an entry; the rest of the line is its data
  pad LEDGER ENTRY SIZE     accepted | held
                            add an entry of SIZE zero bytes: up to 4999984 are
                            accepted, and 8388608 may be asked for
  radd LEDGER ENTRY [TEXT]  accepted | held
                            add an entry for the ledger's recovery, also if the
                            ledger is fenced
  take READER LEDGER ENTRY  cached DATA | leased LOCATION | not held | deleted | reader busy
                            read an entry, from memory or by a lease on its log
  fetch READER              bytes DATA | no lease
                            read the leased entry from its log; the lease stays
  release READER            released | no lease
                            give the reader's lease back
  delete LEDGER             dropped N
                            delete a ledger for good, with its N entries
  fence LEDGER              fenced | already fenced
                            refuse later adds to a ledger, but for radd
  holds LEDGER ENTRY        yes | no
                            tell whether there is an entry
  fenced LEDGER             yes | no
                            tell whether a ledger is fenced
  last LEDGER               last ENTRY | no entry
                            tell the greatest entry id of a ledger
  entries LEDGER FROM N     entries ENTRY .. | no entry
                            list the first N entry ids of a ledger from FROM on
  ledgers FROM N            ledgers LEDGER .. | no ledger
                            list the first N ledgers with an entry from FROM on
  stats                     stats cached N flushing N marks N durable N
                            count the bytes in both caches, and the accepted adds,
                            deletions and fences; the entries that the durable ones
                            add are in synced logs
  swap                      swapped N | nothing | running
                            begin a flush of the N cached entries
  write                     wrote LOCATION | all written | no flush
                            write the next entry of the flush to a log
  publish                   published N | not all written | no flush
                            sync the logs, index the entries, and end the flush
  roll                      sealed LOG | nothing open | flush running
                            seal the current log with its ledgers map
  retire LOG                retired LOG | still named N | in use | no log
                            take a log that no key points into out of the index
  close LOG                 closed | leased N | not retired | no log
                            close a retired log that has no lease
  remove LOG                removed | not closed | no log
                            remove a closed log and its file
  rebuild                   rebuilt N
                            rebuild the index, of N keys, from the logs
  minor, major              chosen LOG | nothing to do | job running
                            begin to compact the log with the smallest live share
  copy N                    copied K | at end | no job | not now
                            read the next N entries of the log, and copy the K that
                            the index still points at to a new log
  end                       ended K | not at end | no job | not now
                            end copying: seal and publish the new log with its K
                            copies
  switch N                  moved K LEFT | no job | not now
                            take the next N copies, and point the keys of K of them
                            at their copies; LEFT wait
  finish                    retired LOG | still named N | left N | no job | not now
                            end the compaction, and retire the log if no key points
                            into it
  giveup                    given up | no job
                            end the compaction, and leave both logs
A refused step answers `fault TEXT`.

LEDGER, ENTRY and FROM are 0 to 9223372036854775807, READER is 0 to 3, LOG is 0 to 2147483647. N of
`copy`, `switch`, `entries` and `ledgers` is 0 to 4294967295. DATA is in hexadecimal, or `-` if there
is none. LOCATION is the log's id times 2^32, plus the position in the log.

A LEDGER operand was deleted before the first step. An add to a deleted ledger answers `fault
deleted`, a second deletion `fault already deleted`. An add that would take the cache past
--cache-limit answers `fault full USED LIMIT`, in bytes.

A flush appends to the current log. A record that would take it past --log-limit goes to a new log,
unless the current log is empty. If there are as many logs as --slots, a step that needs a new log
answers `fault logs full`. If a log has as many leases as --leases, a take that needs one more
answers `fault too many leases`.

A log can be compacted if no flush writes to it, the index points into it, and its live share is
below --minor or --major. Until the compaction ends, the log and its copy are in use. A retired log is
removed by `close` and `remove`.

With --folder the store is opened on the logs of DIR, and entries published there are found by the
next call. DIR is created if it does not exist and its parent does. The file `ledgers.manifest` of DIR
records each deletion and each fence before it takes effect, so that the next call finds them. A
LEDGER that was deleted elsewhere is recorded too. If a record cannot be written, the step and those
after it answer `fault disk` and do nothing. One program at a time writes to a directory; a
second one is refused, and names the first one's process. The answers are those of a store in memory,
unless a step meets a fault. Each call of the system that fails is reported once on the error stream,
`FILE: OPERATION: REASON`. If the error stream is a terminal and the opening takes longer than a
second, a line there shows the progress.

The file `logs.manifest` of DIR records how many bytes of each log are durable, so a flush syncs twice.
When DIR is opened, what a log has behind them is not read, whatever a power loss left there: `note log
LOG: ..` names the place. It stays in the file. If durable bytes of a log are missing, DIR is not opened,
and nothing is changed. With --no-manifest neither file is read or written.

A sealed log of DIR that has a hint (`bookie hint`) is opened by it and not read. A hint that may not be
used is noted on the error stream, `note hint not used: log ID: REASON`, and the log is read. With
--no-hints none is used.

Exit status:
  0  every step was answered
  1  a read fails, the input has more than 16777216 bytes or takes more than 1048576 reads, or a line
     is no step; the store is not opened, or the directory cannot be written; no memory is left
     outside a step; or the answers or this help cannot be written
  2  the command line is wrong

Examples:
  $ printf 'add 1 0 hello\\nswap\\nwrite\\npublish\\ntake 0 1 0\\nfetch 0\\nrelease 0\\nroll\\n' | ./bookie script
  accepted
  swapped 1
  wrote 1028
  published 1
  leased 1028
  bytes 68656c6c6f
  released
  sealed 0

On a directory that the first call creates and the second finds:
  $ printf 'add 1 0 hello\\nswap\\nwrite\\npublish\\n' | ./bookie script --folder logs
  accepted
  swapped 1
  wrote 1028
  published 1
  $ printf 'take 0 1 0\\nfetch 0\\n' | ./bookie script --folder logs
  leased 1028
  bytes 68656c6c6f
";
