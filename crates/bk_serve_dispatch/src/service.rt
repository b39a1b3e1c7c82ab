//! What a session serves.

ghost use Rattle.std.specs.Prelude.{◌≡◌, ◌++◌, true, OnOk, IfSome, IfNone};
ghost use Rattle.bk_serve_core.specs.Fields.{frame_of};
ghost use Rattle.bk_serve_core.specs.Requests.{Ask, ask};
ghost use Rattle.bk_serve_core.specs.Replies.{Told, told_bytes};
ghost use Rattle.bk_serve_dispatch.specs.Runs.{is_read};

use bk_serve_core::{EncodeError, Request};

/// What the reply to a begun request is made of. Any thread may carry it out.
pub trait Job: Send + Drop + 'static {
    // The job may have this reply.
    ghost gives: { Self → Told → Type 0 };

    /// Returns whether the job may wait for a device.
    fn may_wait(&self) -> bool;

    /// Carries the job out and appends one frame, the reply with this id.
    ///
    /// # Errors
    ///
    /// The job was carried out, and its reply was not encoded.
    fn run(self, id: u64, out: &mut Vec<u8>) -> Result<(), EncodeError>
        ensures { (t : Told) × gives self t
            × OnOk result (out.new.items ≡ out.old.items ++ frame_of id (told_bytes t)) };
}

/// Carries out requests, and has steps of its own to perform between them.
pub trait Service {
    /// What is left of a read that was begun.
    type Job: Job;

    // From the first state, the reply answers the request and leaves the second state.
    ghost answers: { Self → Ask → Told → Self → Type 0 };

    // From the first state, a step of its own leaves the second state.
    ghost works: { Self → Self → Type 0 };

    /// Carries out a request and appends one frame, the reply with this id.
    ///
    /// # Errors
    ///
    /// The request was carried out, and its reply was not encoded.
    fn call(&mut self, id: u64, request: &Request<'_>, out: &mut Vec<u8>) -> Result<(), EncodeError>
        ensures { (t : Told) × answers self.old (ask request.now) t self.new
            × OnOk result (out.new.items ≡ out.old.items ++ frame_of id (told_bytes t)) };

    /// Begins a read: changes the state as the read does, and returns a job whose every reply
    /// answers it. Returns `None`, and does nothing, if the request is not begun.
    fn begin(&mut self, request: &Request<'_>) -> Option<Self::Job>
        ensures read { IfSome result (λ job. is_read (ask request.now) ≡ true) }
        ensures some { IfSome result (λ job. (t : Told) → Self.Job.gives job t → answers self.old (ask request.now) t self.new) }
        ensures none { IfNone result (self.new ≡ self.old) };

    /// Returns whether a step of its own is due.
    fn is_due(&self) -> bool;

    /// Performs a step of its own. Does nothing if none is due.
    fn work(&mut self)
        ensures { works self.old self.new };
}
