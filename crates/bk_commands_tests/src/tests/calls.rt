//! What words ask for, and what is told of wrong ones.

mod compact;
mod folder;
mod lines;
mod script;
mod texts;

use bk_commands::{script_call, text_of};
use std::alloc::Global;
use std::process::Abort;

/// What the program tells of these words, which are no call of it.
fn told(rt: &impl Abort, alloc: Global, words: &[&str]) -> String {
    match script_call(alloc, words) {
        Ok(_) => {
            assert!(rt; false, "{words:?} is a call of the program");
            String::new(alloc)
        }
        Err(error) => text_of(alloc, &error).expect(rt, "memory"),
    }
}
