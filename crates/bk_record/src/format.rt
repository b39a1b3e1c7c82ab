//! Numbers of the BookKeeper entry log format, and this project's limits.

/// Length of a log's header in bytes: the position of the first record.
pub const HEADER_LENGTH: usize = 1024;

/// Length of a record's length field in bytes. The payload follows it.
pub const LENGTH_FIELD: usize = 4;

/// Length in bytes of the two ids that begin a payload: the least length of a payload.
pub const IDS_LENGTH: usize = 16;

/// Length in bytes of the part of a record that has its length and its key.
pub const RECORD_HEAD: usize = LENGTH_FIELD + IDS_LENGTH;

/// Greatest length of a payload in bytes: the length field is signed.
pub const MAX_PAYLOAD: usize = 2_147_483_647;

/// Greatest length in bytes of the payload of an add (project rule).
pub const MAX_ADDED: usize = 5_000_000;

/// Greatest setting of a log's limit, in bytes (project rule).
pub const MAX_LOG_LIMIT: u32 = 4_000_000_000;

/// Greatest setting of a write cache's limit, in bytes of payloads (project rule).
pub const MAX_CACHE_LIMIT: u32 = 1_073_741_824;

/// Greatest number of zero bytes that a script line can request. It exceeds `MAX_ADDED`, so that a
/// script can show the refusal (project rule).
pub const MAX_PAD: u64 = 8_388_608;

/// Greatest length of a log in bytes: a location has 32 bits for a position.
pub const MAX_LOG_LENGTH: u64 = 4_294_967_295;

/// Greatest ledger id and greatest entry id (project rule).
pub const LAST_ID: u64 = 9_223_372_036_854_775_807;

/// Greatest log id: with a higher one a location would be negative as a signed number.
pub const LAST_LOG: u32 = 2_147_483_647;
