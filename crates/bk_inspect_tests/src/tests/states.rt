//! The states of `recovery`, as tables.

/// The beginning of a header, its version, and the map that it names: its place, and the number of
/// its ledgers.
#[derive(Clone, Copy)]
pub(super) struct Head {
    pub(super) begins: &'static [u8],
    pub(super) version: u8,
    pub(super) place: u16,
    pub(super) count: u8,
}

/// What is reported of a log.
#[derive(Clone, Copy)]
pub(super) enum Told {
    /// An opening refuses the log for this fault, and `check` reports it too.
    Refused(&'static str),
    /// The log opens, and `check` reports this.
    Opens(&'static str),
}

/// What `seal --cut-torn` does after it has cut off what is no record.
#[derive(Clone, Copy, PartialEq, Eq)]
pub(super) enum Way {
    /// It seals the log.
    Sealed,
    /// It clears the header, and seals the log.
    Cleared,
    /// Nothing.
    Cut,
    /// Nothing was to be cut either: the log is sealed, or of version 0.
    Whole,
    Old,
}

/// A log that a crash left: its header, what follows its one published entry of the map, and what
/// follows that. Then what is reported, the end of the last whole record, and the way on.
pub(super) type State = (Head, &'static [u8], &'static [u8], Told, usize, Way);

/// Headers: not patched, patched in part, patched; and one of version 0.
pub(super) const UNPATCHED: Head = Head {
    begins: b"BKLO\0\0\0\x01",
    version: 1,
    place: 0,
    count: 0,
};

const PLACE: Head = Head {
    begins: b"BKLO\0\0\0\x01\0\0\0\0\0\0\x04\x19",
    version: 1,
    place: 1049,
    count: 0,
};

const COUNT: Head = Head {
    begins: b"BKLO\0\0\0\x01\0\0\0\0\0\0\0\0\0\0\0\x01",
    version: 1,
    place: 0,
    count: 1,
};

const PATCHED: Head = Head {
    begins: b"BKLO\0\0\0\x01\0\0\0\0\0\0\x04\x19\0\0\0\x01",
    version: 1,
    place: 1049,
    count: 1,
};

const VERSION_0: Head = Head {
    begins: b"BKLO\0\0\0\0",
    version: 0,
    place: 0,
    count: 0,
};

/// The map of the entry, absent, in part, and whole.
const NO_MAP: &[u8] = b"";

const HALF_MAP: &[u8] =
    b"\0\0\0\x24\xff\xff\xff\xff\xff\xff\xff\xff\xff\xff\xff\xff\xff\xff\xff\xfe\0\0\0\x01\
\0\0\0\0\0\0";

const MAP: &[u8] =
    b"\0\0\0\x24\xff\xff\xff\xff\xff\xff\xff\xff\xff\xff\xff\xff\xff\xff\xff\xfe\0\0\0\x01\
\0\0\0\0\0\0\0\x01\0\0\0\0\0\0\0\x19";

/// What a file system may show after what was synced: nothing, zeros, an old block, half a record.
const NOTHING: &[u8] = b"";

const ZEROS: &[u8] = &[0; 40];

const OLD: &[u8] = b"\x80\0\0\0\0\0\0\0\0\0\0\x02\0\0\0\0\0\0\0\x07old data";

const HALF: &[u8] = b"\0\0\0\x15\0\0\0\0\0\0\0\x01\0\0\0\0\0\0\0\x01hell";

/// What is reported: a log that opens, and one with a bad length in zeros or in an old block.
const UNSEALED: Told = Told::Opens("unsealed");

const WHOLE: Told = Told::Opens("ok");

const DIFFERS: Told = Told::Opens("map differs");

const COUNTS_0: Told = Told::Opens("fault count differs 0");

const COUNTS_1: Told = Told::Opens("fault count differs 1");

const NONE_AT_0: Told = Told::Opens("fault not a map 0");

const NONE_AT_49: Told = Told::Opens("fault not a map 1049");

const NONE_AT_89: Told = Told::Opens("fault not a map 1089");

const ZERO_AT_49: Told = Told::Refused("bad length 1049 0");

const ZERO_AT_89: Told = Told::Refused("bad length 1089 0");

const OLD_AT_49: Told = Told::Refused("bad length 1049 -2147483648");

const OLD_AT_89: Told = Told::Refused("bad length 1089 -2147483648");

/// Each header with each part of a map and each end. The bytes after half a map may complete it to
/// a record, and then it is no map of the entry.
pub(super) const STATES: [State; 52] = [
    (UNPATCHED, NO_MAP, NOTHING, UNSEALED, 1049, Way::Sealed),
    (UNPATCHED, NO_MAP, ZEROS, ZERO_AT_49, 1049, Way::Sealed),
    (UNPATCHED, NO_MAP, OLD, OLD_AT_49, 1049, Way::Sealed),
    (UNPATCHED, NO_MAP, HALF, UNSEALED, 1049, Way::Sealed),
    (UNPATCHED, HALF_MAP, NOTHING, UNSEALED, 1049, Way::Sealed),
    (UNPATCHED, HALF_MAP, ZEROS, ZERO_AT_89, 1089, Way::Sealed),
    (UNPATCHED, HALF_MAP, OLD, UNSEALED, 1089, Way::Sealed),
    (UNPATCHED, HALF_MAP, HALF, UNSEALED, 1089, Way::Sealed),
    (UNPATCHED, MAP, NOTHING, UNSEALED, 1089, Way::Sealed),
    (UNPATCHED, MAP, ZEROS, ZERO_AT_89, 1089, Way::Sealed),
    (UNPATCHED, MAP, OLD, OLD_AT_89, 1089, Way::Sealed),
    (UNPATCHED, MAP, HALF, UNSEALED, 1089, Way::Sealed),
    (PLACE, NO_MAP, NOTHING, DIFFERS, 1049, Way::Cleared),
    (PLACE, NO_MAP, ZEROS, ZERO_AT_49, 1049, Way::Cleared),
    (PLACE, NO_MAP, OLD, OLD_AT_49, 1049, Way::Cleared),
    (PLACE, NO_MAP, HALF, NONE_AT_49, 1049, Way::Cleared),
    (PLACE, HALF_MAP, NOTHING, NONE_AT_49, 1049, Way::Cleared),
    (PLACE, HALF_MAP, ZEROS, ZERO_AT_89, 1089, Way::Cleared),
    (PLACE, HALF_MAP, OLD, NONE_AT_89, 1089, Way::Cleared),
    (PLACE, HALF_MAP, HALF, NONE_AT_89, 1089, Way::Cleared),
    (PLACE, MAP, NOTHING, COUNTS_1, 1089, Way::Cleared),
    (PLACE, MAP, ZEROS, ZERO_AT_89, 1089, Way::Cleared),
    (PLACE, MAP, OLD, OLD_AT_89, 1089, Way::Cleared),
    (PLACE, MAP, HALF, NONE_AT_89, 1089, Way::Cleared),
    (COUNT, NO_MAP, NOTHING, NONE_AT_0, 1049, Way::Cleared),
    (COUNT, NO_MAP, ZEROS, ZERO_AT_49, 1049, Way::Cleared),
    (COUNT, NO_MAP, OLD, OLD_AT_49, 1049, Way::Cleared),
    (COUNT, NO_MAP, HALF, NONE_AT_0, 1049, Way::Cleared),
    (COUNT, HALF_MAP, NOTHING, NONE_AT_0, 1049, Way::Cleared),
    (COUNT, HALF_MAP, ZEROS, ZERO_AT_89, 1089, Way::Cleared),
    (COUNT, HALF_MAP, OLD, NONE_AT_0, 1089, Way::Cleared),
    (COUNT, HALF_MAP, HALF, NONE_AT_0, 1089, Way::Cleared),
    (COUNT, MAP, NOTHING, NONE_AT_0, 1089, Way::Cleared),
    (COUNT, MAP, ZEROS, ZERO_AT_89, 1089, Way::Cleared),
    (COUNT, MAP, OLD, OLD_AT_89, 1089, Way::Cleared),
    (COUNT, MAP, HALF, NONE_AT_0, 1089, Way::Cleared),
    (PATCHED, NO_MAP, NOTHING, COUNTS_0, 1049, Way::Cleared),
    (PATCHED, NO_MAP, ZEROS, ZERO_AT_49, 1049, Way::Cleared),
    (PATCHED, NO_MAP, OLD, OLD_AT_49, 1049, Way::Cleared),
    (PATCHED, NO_MAP, HALF, NONE_AT_49, 1049, Way::Cleared),
    (PATCHED, HALF_MAP, NOTHING, NONE_AT_49, 1049, Way::Cleared),
    (PATCHED, HALF_MAP, ZEROS, ZERO_AT_89, 1089, Way::Cleared),
    (PATCHED, HALF_MAP, OLD, NONE_AT_89, 1089, Way::Cleared),
    (PATCHED, HALF_MAP, HALF, NONE_AT_89, 1089, Way::Cleared),
    (PATCHED, MAP, NOTHING, WHOLE, 1089, Way::Whole),
    (PATCHED, MAP, ZEROS, ZERO_AT_89, 1089, Way::Cut),
    (PATCHED, MAP, OLD, OLD_AT_89, 1089, Way::Cut),
    (PATCHED, MAP, HALF, NONE_AT_89, 1089, Way::Cut),
    (VERSION_0, NO_MAP, NOTHING, UNSEALED, 1049, Way::Old),
    (VERSION_0, NO_MAP, ZEROS, ZERO_AT_49, 1049, Way::Cut),
    (VERSION_0, NO_MAP, OLD, OLD_AT_49, 1049, Way::Cut),
    (VERSION_0, NO_MAP, HALF, UNSEALED, 1049, Way::Cut),
];

/// A file in which nothing was published: how it begins, its length, and its end. Then what is
/// reported before the repair, the text of the repair, and what `check` reports then.
pub(super) type Empty = (
    &'static [u8],
    usize,
    &'static [u8],
    Told,
    &'static str,
    Told,
);

/// What `seal` says of a log without a header.
const NO_HEADER: &str =
    "fault log 3: bad magic\nhelp: if './bookie scan' shows no entry in the log, a crash may have left it so, and its file can be moved away\n";

/// No header, also in a file with room for one; a part of one in a short file, and before zeros,
/// which is a header of version 0; a whole one, before nothing and before zeros.
pub(super) const EMPTY: [Empty; 7] = [
    (
        b"",
        0,
        b"",
        Told::Opens("short"),
        "fault log 3: short\n",
        Told::Opens("short"),
    ),
    (
        b"",
        1023,
        b"",
        Told::Opens("short"),
        "fault log 3: short\n",
        Told::Opens("short"),
    ),
    (
        b"",
        1024,
        ZEROS,
        Told::Refused("bad magic"),
        NO_HEADER,
        Told::Refused("bad magic"),
    ),
    (
        b"BKLO\0\0\0\x01",
        20,
        b"",
        Told::Opens("short"),
        "fault log 3: short\n",
        Told::Opens("short"),
    ),
    (
        b"BKLO",
        1024,
        ZEROS,
        Told::Refused("bad length 1024 0"),
        "cut 3 at 1024 bytes 40 copy aside/3\n",
        UNSEALED,
    ),
    (
        b"BKLO\0\0\0\x01",
        1024,
        b"",
        UNSEALED,
        "sealed 3 map 1024 count 0\n",
        WHOLE,
    ),
    (
        b"BKLO\0\0\0\x01",
        1024,
        ZEROS,
        Told::Refused("bad length 1024 0"),
        "cut 3 at 1024 bytes 40 copy aside/3\nsealed 3 map 1024 count 0\n",
        WHOLE,
    ),
];

/// What a repair left that was killed after its copy was kept: how the log's header begins and what
/// follows the entry, the same of the copy, and what the next repair reports.
pub(super) type Killed = (Head, &'static [u8], Head, &'static [u8], &'static str);

/// What is told if the copy is of something else.
pub(super) const TAKEN: &str = "fault copy exists: aside/3: it is no copy of disk/3\n\
help: move aside/3 to another name and call './bookie seal --cut-torn' again: it copies the log first\n";

/// What is told if only the header is left to be cleared, and the log to be sealed.
const NAMED_1: &str = "cleared 3 map 1049 count 1 copy aside/3\nsealed 3 map 1049 count 1\n";

const NAMED_0: &str = "cleared 3 map 1049 count 0 copy aside/3\nsealed 3 map 1049 count 1\n";

/// What is told if the log is left to be sealed.
const SEALED: &str = "sealed 3 map 1049 count 1\n";

/// Killed before the header was cleared; before the log was sealed; and while it was sealed.
pub(super) const KILLED: [Killed; 7] = [
    (PATCHED, NO_MAP, PATCHED, ZEROS, NAMED_1),
    (PATCHED, NO_MAP, PATCHED, HALF_MAP, NAMED_1),
    (PLACE, NO_MAP, PLACE, OLD, NAMED_0),
    (UNPATCHED, NO_MAP, UNPATCHED, ZEROS, SEALED),
    (UNPATCHED, NO_MAP, PATCHED, ZEROS, SEALED),
    (UNPATCHED, HALF_MAP, UNPATCHED, ZEROS, TAKEN),
    (UNPATCHED, HALF_MAP, PATCHED, HALF_MAP, TAKEN),
];
