//! The atomic steps on a slot's word. `specs/Steps.antt` states the effect of each.
ghost use Rattle.bk_lease.specs.Steps.{open_step, pin_step, split_keeper_step, split_seat_step, undo_step, release_step};
ghost use Rattle.bk_lease.specs.Steps.{close_step, count_step, free_step, met, no_step};

use crate::rule::Role;
use atomic_table::{Join, Play, Split};

pub(crate) struct OpenStep;

impl Play<(), Role> for OpenStep {
    ghost then = { open_step };
}

pub(crate) struct PinStep;

impl Play<(), Role> for PinStep {
    ghost then = { pin_step };
}

/// The pin under way becomes a seat that holds its slot.
pub(crate) struct GrantStep;

impl Split<Role> for GrantStep {
    ghost left = { split_keeper_step };

    ghost right = { split_seat_step };
}

/// The pin under way is undone.
pub(crate) struct UndoStep;

impl Play<(), Role> for UndoStep {
    ghost then = { undo_step };
}

pub(crate) struct ReleaseStep;

impl Play<(), Role> for ReleaseStep {
    ghost then = { release_step };
}

pub(crate) struct CloseStep;

impl Play<(), Role> for CloseStep {
    ghost then = { close_step };
}

pub(crate) struct CountStep;

impl Play<(), Role> for CountStep {
    ghost then = { count_step };
}

pub(crate) struct FreeStep;

impl Play<(), Role> for FreeStep {
    ghost then = { free_step };
}

/// A keeper that has closed a slot is joined with a seat that holds it, and both are spent. The
/// rule excludes this case.
pub(crate) struct MeetStep;

impl Join<Role> for MeetStep {
    ghost both = { λ _ _. met };

    ghost spent = { met };
}

/// A step of a spent keeper, which the rule excludes.
pub(crate) struct NeverStep;

impl Play<(), Role> for NeverStep {
    ghost then = { no_step };
}
