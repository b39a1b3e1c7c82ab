//! Keys, locations and records of entry logs: how the bytes of one entry are written and read.
#![tactic(auto)]

mod fault;
mod format;
mod key;
mod laws;
mod location;
mod piece;
mod record;

pub use fault::RecordFault;
pub use format::{
    HEADER_LENGTH, IDS_LENGTH, LAST_ID, LAST_LOG, LENGTH_FIELD, MAX_ADDED, MAX_CACHE_LIMIT,
    MAX_LOG_LENGTH, MAX_LOG_LIMIT, MAX_PAD, MAX_PAYLOAD, RECORD_HEAD,
};
pub use key::Key;
pub use laws::{last_record_wins, one_piece, one_spelling};
pub use location::Location;
pub use piece::{Piece, read_record};
pub use record::{check_add, key_of, write_record};
