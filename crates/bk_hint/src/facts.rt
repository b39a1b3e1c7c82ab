//! What a hint says of its log.

/// The log that a hint belongs to.
#[derive(Clone, Copy, Debug, PartialEq, Eq)]
pub struct LogFacts {
    /// Id of the log.
    pub log: u32,
    /// Length of the log's file in bytes.
    pub length: u64,
    /// CRC-32C of the log's header and its ledgers map.
    pub checksum: u32,
}
