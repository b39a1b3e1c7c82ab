//! The frames of a bookie that serves other programs: requests and replies as values and as bytes.
#![tactic(auto)]

mod done;
mod ended;
mod fault;
mod frame;
mod kinds;
mod laws;
mod layout;
mod putting;
mod refusal;
mod reply;
mod reply_fields;
mod reply_putting;
mod request;
mod request_bytes;
mod words;

pub use done::Done;
pub use ended::Ended;
pub use fault::{EncodeError, Fault, FrameFault};
pub use frame::{
    LONGEST_FRAME, MAGIC, SHORTEST_FRAME, VERSION, read_frame, split_id, write_frames,
};
pub use laws::{replies_have_one_encoding, requests_have_one_encoding};
pub use layout::{DIGEST, LONGEST_ATTRIBUTE, LONGEST_DATA, LONGEST_PAGE};
pub use refusal::Refusal;
pub use reply::Reply;
pub use request::Request;
