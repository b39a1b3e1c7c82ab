//! What is reported of a directory after its disk was moved into a store.

use bk_hint_disk::UnusedWatch;
use bk_inspect::{Form, tell_unused};
use bk_messages::FailedCalls;
use std::alloc::Global;
use std::io::Write;

/// What is reported of a directory after its disk was moved into a store or dropped: the hints that
/// were not used, and the calls of the system that failed.
#[derive(Drop)]
pub struct Notes {
    pub(crate) alloc: Global,
    pub(crate) unused: UnusedWatch,
    pub(crate) failed: FailedCalls,
}

impl Notes {
    /// Notes the hints on the error stream, then the calls, in a line each. A failed write is ignored,
    /// and hints are left out if memory is refused.
    pub fn tell<E: Write>(&self, form: Form, errors: &mut E) {
        self.tell_unused(form, errors);
        self.failed.tell(form, errors);
    }

    /// Notes the hints alone.
    pub fn tell_unused<E: Write>(&self, form: Form, errors: &mut E) {
        if let Ok(unused) = self.unused.list(self.alloc) {
            tell_unused(self.alloc, form, &unused, errors);
        }
    }
}
