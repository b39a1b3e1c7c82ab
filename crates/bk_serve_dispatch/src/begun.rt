//! Requests that were begun and are answered later.

ghost use Rattle.std.specs.Prelude.{◌≡◌};
ghost use Rattle.bk_serve_dispatch.specs.Jobs.{Carries};

use crate::service::Job;
use std::alloc::Global;
use std::mem::replace;

/// How far a request is that was begun.
#[derive(Drop)]
pub(crate) enum Stage<J> {
    /// The job was not carried out.
    Waits(J),
    /// The job was carried out. Has the frame of the reply.
    Said(Vec<u8>),
    /// The job was carried out, and its reply was not encoded.
    Unsaid,
}

/// A request that was begun: its id, and its job or the reply.
#[derive(Drop)]
pub(crate) struct Begun<J> {
    pub(crate) id: u64,
    pub(crate) stage: Stage<J>,
}

impl<J: Job> Begun<J> {
    /// Returns whether the job was not carried out and may wait for a device.
    pub(crate) fn may_wait(&self) -> bool {
        match &self.stage {
            Stage::Waits(job) => job.may_wait(),
            _ => false,
        }
    }

    /// Returns the number of bytes of the reply that is kept.
    pub(crate) fn kept(&self) -> usize {
        match &self.stage {
            Stage::Said(reply) => reply.len(),
            _ => 0,
        }
    }

    /// Carries the job out and keeps the reply. Does nothing if this was done.
    pub(crate) fn carry_out(&mut self, alloc: Global)
        ensures { Carries J.gives self.old self.new }
    {
        match replace(&mut self.stage, Stage::Unsaid) {
            Stage::Waits(job) => {
                let mut reply = Vec::new(alloc);
                if job.run(self.id, &mut reply).is_ok() {
                    self.stage = Stage::Said(reply);
                }
            }
            done => self.stage = done,
        }
    }

    /// Carries the job out and keeps the reply if the job may wait for a device. Returns whether it
    /// did.
    pub(crate) fn carry_out_waiting(&mut self, alloc: Global) -> bool
        ensures { Carries J.gives self.old self.new }
    {
        let waits = self.may_wait();
        if waits {
            self.carry_out(alloc);
        }
        waits
    }
}
