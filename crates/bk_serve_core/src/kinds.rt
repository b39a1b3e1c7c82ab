//! Numbers of the requests, and of the replies.
pub(crate) const HELLO: u8 = 1;

pub(crate) const ADD: u8 = 2;

pub(crate) const ADD_RECOVERY: u8 = 3;

pub(crate) const READ: u8 = 4;

pub(crate) const READ_LAST: u8 = 5;

pub(crate) const READ_BACK: u8 = 6;

pub(crate) const LAST_ENTRY: u8 = 7;

pub(crate) const HOLDS: u8 = 8;

pub(crate) const ENTRIES: u8 = 9;

pub(crate) const LEDGERS: u8 = 10;

pub(crate) const FENCE: u8 = 11;

pub(crate) const IS_FENCED: u8 = 12;

pub(crate) const DELETE: u8 = 13;

pub(crate) const SET_MASTER_KEY: u8 = 14;

pub(crate) const MASTER_KEY: u8 = 15;

pub(crate) const SET_EXPLICIT_LAC: u8 = 16;

pub(crate) const EXPLICIT_LAC: u8 = 17;

pub(crate) const FLUSH: u8 = 18;

pub(crate) const CHECKPOINT: u8 = 19;

pub(crate) const COMPACT: u8 = 20;

pub(crate) const STATS: u8 = 21;

pub(crate) const SEAL: u8 = 22;

pub(crate) const CLOSE: u8 = 23;

pub(crate) const WELCOME: u8 = 32;

pub(crate) const ACCEPTED: u8 = 33;

pub(crate) const HELD: u8 = 34;

pub(crate) const ENTRY: u8 = 35;

pub(crate) const NOT_HELD: u8 = 36;

pub(crate) const LAST: u8 = 37;

pub(crate) const YES: u8 = 38;

pub(crate) const NO: u8 = 39;

pub(crate) const PAGE: u8 = 40;

pub(crate) const FENCED_NOW: u8 = 41;

pub(crate) const FENCED_BEFORE: u8 = 42;

pub(crate) const DROPPED: u8 = 43;

pub(crate) const STORED: u8 = 44;

pub(crate) const ATTRIBUTE: u8 = 45;

pub(crate) const NO_ATTRIBUTE: u8 = 46;

pub(crate) const FLUSHED: u8 = 47;

pub(crate) const DURABLE: u8 = 48;

pub(crate) const COMPACTED: u8 = 49;

pub(crate) const FIGURES: u8 = 50;

pub(crate) const SEALED: u8 = 51;

pub(crate) const NOTHING_OPEN: u8 = 52;

pub(crate) const CLOSED: u8 = 53;

pub(crate) const BACKWARDS: u8 = 64;

pub(crate) const NEGATIVE: u8 = 65;

pub(crate) const TOO_LONG: u8 = 66;

pub(crate) const DELETED: u8 = 67;

pub(crate) const FENCED: u8 = 68;

pub(crate) const FULL: u8 = 69;

pub(crate) const MEMORY: u8 = 70;

pub(crate) const NO_SEAT: u8 = 71;

pub(crate) const TOO_MANY: u8 = 72;

pub(crate) const ALREADY_DELETED: u8 = 73;

pub(crate) const MISSING: u8 = 74;

pub(crate) const DIFFERS: u8 = 75;

pub(crate) const NOT_THERE: u8 = 76;

pub(crate) const DISK: u8 = 77;

pub(crate) const ODD: u8 = 78;

pub(crate) const LOGS_FULL: u8 = 79;

pub(crate) const NO_MORE_IDS: u8 = 80;

pub(crate) const SETTINGS: u8 = 81;

pub(crate) const BAD_LOG: u8 = 82;

pub(crate) const LOG_TOO_LONG: u8 = 83;

pub(crate) const IN_USE: u8 = 84;

pub(crate) const BUSY: u8 = 85;

pub(crate) const OUT_OF_RANGE: u8 = 86;

pub(crate) const NO_THREAD: u8 = 87;

pub(crate) const NOT_OFFERED: u8 = 88;

pub(crate) const NO_HELLO: u8 = 96;

pub(crate) const VERSION: u8 = 97;

pub(crate) const SECOND_HELLO: u8 = 98;

pub(crate) const CUT: u8 = 99;

pub(crate) const SHORT: u8 = 100;

pub(crate) const OVERSIZED: u8 = 101;

pub(crate) const UNKNOWN_CALL: u8 = 102;

pub(crate) const BAD_FIELDS: u8 = 103;

pub(crate) const NOT_RISING: u8 = 104;

pub(crate) const INPUT_FAILED: u8 = 105;

pub(crate) const NO_MEMORY: u8 = 106;
