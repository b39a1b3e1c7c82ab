//! The operands and options of the rows. The function of a command reads its values by these.

use crate::row::{Value, Word};
use bk_record::{LAST_ID, MAX_LOG_LENGTH};

/// Template of a required operand, without name, value and help.
const OPERAND: Word = Word {
    name: "",
    value: Value::Log,
    is_required: true,
    unless: None,
    conflicts: &[],
    help: "",
};

/// Template of an option or an optional operand, without name, value and help.
const OPTION: Word = Word {
    name: "",
    value: Value::Flag,
    is_required: false,
    unless: None,
    conflicts: &[],
    help: "",
};

/// The log.
pub const LOG: Word = Word {
    name: "LOG",
    value: Value::Log,
    help: "The log's id, 0 to 2147483647, or its file's name, such as 1f.log",
    ..OPERAND
};

/// The ledger.
pub const LEDGER: Word = Word {
    name: "LEDGER",
    value: Value::Number {
        name: "LEDGER",
        most: LAST_ID,
    },
    help: "The ledger, 0 to 9223372036854775807",
    ..OPERAND
};

/// The entry.
pub const ENTRY: Word = Word {
    name: "ENTRY",
    value: Value::Number {
        name: "ENTRY",
        most: LAST_ID,
    },
    help: "The entry's number in the ledger, 0 to 9223372036854775807",
    ..OPERAND
};

/// The first entry that is shown.
pub const FIRST: Word = Word {
    name: "FIRST",
    value: Value::Number {
        name: "FIRST",
        most: LAST_ID,
    },
    help: "The first entry to show [default: 0]",
    ..OPTION
};

/// The last entry that is shown.
pub const LAST: Word = Word {
    name: "LAST",
    value: Value::Number {
        name: "LAST",
        most: LAST_ID,
    },
    help: "The last entry to show [default: the ledger's last]",
    ..OPTION
};

/// The digest of entries' data.
pub const DIGEST: Word = Word {
    name: "digest",
    value: Value::Choice {
        name: "KIND",
        among: &["crc32c", "crc32", "auto"],
    },
    help: "Check each entry against its digest too: crc32c, crc32 or auto",
    ..OPTION
};

/// Deleted ledgers.
pub const DEAD: Word = Word {
    name: "dead",
    value: Value::Numbers {
        name: "LEDGER",
        most: LAST_ID,
    },
    help: "Take this ledger as deleted; may be repeated",
    ..OPTION
};

/// The ledger whose entries are shown.
pub const OF_LEDGER: Word = Word {
    name: "ledger",
    value: Value::Number {
        name: "LEDGER",
        most: LAST_ID,
    },
    help: "Show the entries of this ledger only",
    ..OPTION
};

/// Position at which the first entry shown begins.
pub const FROM: Word = Word {
    name: "from",
    value: Value::Number {
        name: "AT",
        most: MAX_LOG_LENGTH,
    },
    help: "Show the entries that begin at this position of the file or after it",
    ..OPTION
};

/// Whether the data of the entries is shown.
pub const DATA: Word = Word {
    name: "data",
    help: "Show the data of each entry too, in hexadecimal",
    ..OPTION
};

/// Whether the torn bytes of unsealed logs are shown.
pub const LONG: Word = Word {
    name: "long",
    help: "Show the torn bytes of each unsealed log too",
    ..OPTION
};

/// Whether a check reads no entry.
pub const QUICK: Word = Word {
    name: "quick",
    conflicts: &["digest", "long"],
    help: "Check headers and ledgers maps alone, and read no entry",
    ..OPTION
};

/// Whether the records of the entries are written as they are.
pub const RAW: Word = Word {
    name: "raw",
    conflicts: &["hex", "json"],
    help: "Write each entry as its record, for import",
    ..OPTION
};

/// Whether the data is written in hexadecimal.
pub const HEX: Word = Word {
    name: "hex",
    conflicts: &["json"],
    help: "Write each entry as a line in hexadecimal (the default)",
    ..OPTION
};

/// The file that is imported.
pub const FILE: Word = Word {
    name: "FILE",
    value: Value::Path,
    help: "A file of records, as export --raw writes it",
    ..OPERAND
};

/// The log to be sealed; none with `--all-unsealed`.
pub const SEALED_LOG: Word = Word {
    name: "LOG",
    value: Value::Log,
    unless: Some("all-unsealed"),
    help: "The log's id, 0 to 2147483647, or its file's name, such as 1f.log",
    ..OPTION
};

/// Whether all unsealed logs are sealed.
pub const ALL_UNSEALED: Word = Word {
    name: "all-unsealed",
    conflicts: &["LOG"],
    help: "Seal each log whose header names no map",
    ..OPTION
};

/// Whether a torn end is removed.
pub const CUT_TORN: Word = Word {
    name: "cut-torn",
    help: "Cut off a torn end first, after copying the log aside",
    ..OPTION
};

/// Whether the threshold is that of a minor compaction.
pub const MINOR: Word = Word {
    name: "minor",
    conflicts: &["major", "below"],
    help: "Compact logs of which less than 200 thousandths are live",
    ..OPTION
};

/// Whether the threshold is that of a major compaction.
pub const MAJOR: Word = Word {
    name: "major",
    conflicts: &["below"],
    help: "Compact logs of which less than 800 thousandths are live (the default)",
    ..OPTION
};

/// The threshold.
pub const BELOW: Word = Word {
    name: "below",
    value: Value::Number {
        name: "N",
        most: 1000,
    },
    help: "Compact logs of which less than N thousandths are live: 0 to 1000",
    ..OPTION
};

/// Files of deleted ledgers.
pub const DEAD_FILE: Word = Word {
    name: "dead-file",
    value: Value::Paths { name: "FILE" },
    help: "Take the ledgers of this file as deleted, one per line; may be repeated",
    ..OPTION
};

/// Files of live ledgers.
pub const LIVE_FILE: Word = Word {
    name: "live-file",
    value: Value::Paths { name: "FILE" },
    help: "Take each ledger that this file does not list as deleted; may be repeated",
    ..OPTION
};

/// Whether no ledger may be live.
pub const LIVE_NONE: Word = Word {
    name: "live-none",
    help: "Take each ledger as deleted that no --live-file lists, also if none is listed",
    ..OPTION
};

/// Whether manifests are only checked.
pub const CHECK: Word = Word {
    name: "check",
    conflicts: &["rebuild"],
    help: "Check the manifests and the logs, and show no records",
    ..OPTION
};

/// Whether a damaged manifest is made anew.
pub const REBUILD: Word = Word {
    name: "rebuild",
    help: "Make a manifest anew that is damaged, or that the logs do not fit",
    ..OPTION
};

/// Whether the manifests of the directory are neither read nor written.
pub const NO_MANIFEST: Word = Word {
    name: "no-manifest",
    help: "Neither read nor write the manifests of the directory",
    ..OPTION
};

/// Whether no hint is used.
pub const NO_HINTS: Word = Word {
    name: "no-hints",
    help: "Use no hint, and read the records of each log",
    ..OPTION
};

/// Whether hints are only compared with their logs.
pub const CHECK_HINTS: Word = Word {
    name: "check",
    help: "Compare the hints with their logs, and write nothing",
    ..OPTION
};

/// Whether the operator rebuilds the bookie's index.
pub const INDEX_IS_REBUILT: Word = Word {
    name: "index-is-rebuilt",
    help: "Compact beside a bookie's own index, which you rebuild before the bookie starts",
    ..OPTION
};

/// Whether the effect is only shown.
pub const DRY_RUN: Word = Word {
    name: "dry-run",
    help: "Show what would be done, and write nothing",
    ..OPTION
};
