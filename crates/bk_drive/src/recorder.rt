//! What is made durable before a step is performed.

ghost use Rattle.std.specs.Prelude.{Bool};

use crate::Step;

/// Makes durable what must be so before a step is performed, as the record of a deletion or of a
/// fence in a file beside the logs.
pub trait Recorder {
    ghost use Rattle.bk_drive.specs.declared.step.Step.{Step};

    /// A call of `record`: the recorder before it, the step, the answer, the recorder after it.
    ghost record_gives: { Self → Step → Bool → Self → Type 0 } = { λ _ _ _ _. Unit {0} };

    /// Makes durable what must be so before this step. Returns whether the step may be performed.
    fn record(&mut self, step: &Step) -> bool
        ensures { record_gives self.old step.now result self.new };
}

/// The recorder of a run that records nothing: each step may be performed.
#[derive(Drop)]
pub struct RecordsNothing;

impl Recorder for RecordsNothing {
    ghost use Rattle.std.specs.Prelude.{◌≡◌, true};

    ghost record_gives = { λ _ _ answer _. answer ≡ true };

    fn record(&mut self, _step: &Step) -> bool {
        true
    }
}
