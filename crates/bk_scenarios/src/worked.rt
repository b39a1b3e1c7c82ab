//! A scenario: its input and its expected results.

use crate::asking::Asked;
use bk_drive::{Settings, Step};
use std::alloc::Global;

/// Which call or view of the disk fails.
#[derive(Drop)]
pub(crate) enum Failing {
    /// None.
    Nothing,
    /// The call with this number, counted from 1. An append leaves this many bytes.
    Call(u64, usize),
    /// Each read of the view with this number.
    View(u64),
    /// Each call, one after another, once with each of these numbers of bytes that an append
    /// leaves; then none.
    Each(Vec<usize>),
    /// None, but an allocation may fail: each step is tried twice.
    Retry,
}

impl Failing {
    /// Returns how often each step is tried.
    pub(crate) fn tries(&self) -> usize {
        match self {
            Failing::Retry => 2,
            _ => 1,
        }
    }
}

/// An answer that differs if a call fails.
#[derive(Drop)]
pub(crate) struct Other {
    /// The number of the call, counted from 1.
    pub call: u64,
    /// The number of the answer, counted from 1, or 0 if the store is not opened and this is the
    /// only result.
    pub line: u64,
    pub text: String,
}

/// A scenario.
#[derive(Drop)]
pub(crate) struct Worked {
    pub settings: Settings,
    /// The ledgers deleted earlier.
    pub dead: Vec<u64>,
    /// The logs on the disk: their ids and their bytes.
    pub files: Vec<(u32, Vec<u8>)>,
    pub failing: Failing,
    pub steps: Vec<Step>,
    /// The expected answer of each step, or why the store is not opened.
    pub answers: Vec<String>,
    /// The answers that differ if a call fails.
    pub others: Vec<Other>,
    /// The expected calls on the disk, or `None` if the scenario does not list them.
    pub calls: Option<Vec<String>>,
    /// The questions to the store between two steps.
    pub asked: Vec<Asked>,
    /// The expected replies, one per question.
    pub told: Vec<String>,
}

/// The settings of a scenario without options.
pub(crate) const DEFAULTS: Settings = Settings {
    log_limit: 1_073_741_824,
    cache_limit: 16_777_216,
    recent: 0,
    slots: 1024,
    leases: 1024,
    minor: 200,
    major: 800,
};

impl Worked {
    /// Returns a scenario without steps.
    pub(crate) fn new(alloc: Global) -> Worked {
        Worked {
            settings: DEFAULTS,
            dead: Vec::new(alloc),
            files: Vec::new(alloc),
            failing: Failing::Nothing,
            steps: Vec::new(alloc),
            answers: Vec::new(alloc),
            others: Vec::new(alloc),
            calls: None,
            asked: Vec::new(alloc),
            told: Vec::new(alloc),
        }
    }
}
