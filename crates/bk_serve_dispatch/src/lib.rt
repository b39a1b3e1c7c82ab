//! Sessions: requests read from a reader, carried out by a service, and answered to a writer.
#![tactic(auto)]

mod answering;
mod begun;
mod ending;
mod greeting;
mod input;
mod judging;
mod runs;
mod service;
mod session;
mod telling;
mod threads;
mod waiting;

pub use ending::{End, finish, tell_end};
pub use greeting::greet;
pub use input::{Input, Source};
pub use judging::judge;
pub use service::{Job, Service};
pub use session::{Buffers, serve_requests};
pub use threads::Readers;
