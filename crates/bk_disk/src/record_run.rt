//! Records whose heads are known without reading them.

use bk_record::Key;

/// Records of one ledger and one size that stand directly one behind another, with consecutive
/// entry ids.
#[derive(Clone, Copy, Debug, PartialEq, Eq)]
pub struct RecordRun {
    /// Key of the first record.
    pub first: Key,
    /// Number of records.
    pub count: u32,
    /// Size of each record in bytes, with its length field.
    pub size: u32,
}
