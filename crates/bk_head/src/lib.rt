//! The header of an entry log, and the ledgers map after its records.
#![tactic(auto)]

mod batch;
mod fault;
mod header;
mod laws;
mod reading;
mod writing;

pub use batch::{BATCH_HEAD, PAIR};
pub use fault::HeadFault;
pub use header::{Header, new_header, patch_bytes, read_header};
pub use laws::{old_header_has_no_map, patched_header_is_read, written_map_is_read};
pub use reading::{add_pairs, pairs_in_batch, place_of_map, read_map};
pub use writing::write_map;
