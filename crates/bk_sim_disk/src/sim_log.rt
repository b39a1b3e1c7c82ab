//! One log: its first bytes, its records without data, and the bytes behind them.
//!
//! Records stand in blocks of one size. All blocks but the last are full, and views share them.

ghost use Rattle.std.specs.Prelude.{◌≤◌, length};

use crate::record::Record;
use std::alloc::{AllocError, Global};
use std::sync::Arc;

/// Number of records of a full block.
const BLOCK: usize = 256;

/// The bytes of a log, at most 2^32 - 1.
#[derive(Drop)]
pub(crate) struct SimLog {
    /// The bytes before the first record, without the zeros at their end.
    head: Vec<u8>,
    /// The number of bytes before the first record.
    start: u32,
    full: Vec<Arc<Vec<Record>>>,
    last: Vec<Record>,
    /// The position behind the last record.
    end: u32,
    /// The bytes behind the last record.
    tail: Vec<u8>,
}

impl SimLog {
    pub(crate) fn new(alloc: Global) -> SimLog {
        SimLog {
            head: Vec::new(alloc),
            start: 0,
            full: Vec::new(alloc),
            last: Vec::new(alloc),
            end: 0,
            tail: Vec::new(alloc),
        }
    }

    /// Returns the number of bytes.
    pub(crate) fn len(&self) -> u64 {
        u64::from(self.end).saturating_add(self.tail.len() as u64)
    }

    /// Returns the same log for a view: full blocks are shared, the last one is copied.
    pub(crate) fn share(&self) -> Result<SimLog, AllocError> {
        let alloc = *self.last.allocator();
        Ok(SimLog {
            head: Vec::from_slice(alloc, &self.head)?,
            start: self.start,
            full: self.full.clone()?,
            last: Vec::from_slice(alloc, &self.last)?,
            end: self.end,
            tail: Vec::from_slice(alloc, &self.tail)?,
        })
    }

    /// Appends bytes. The log has at most 2^32 - 1 bytes then.
    pub(crate) fn append(&mut self, bytes: &[u8]) -> Result<(), AllocError> {
        if !self.tail.is_empty() {
            return self.tail.extend_from_slice(bytes);
        }
        if let Some(record) = Record::of(bytes, self.end) {
            return self.push(record);
        }
        if self.end == 0 {
            return self.begin(bytes);
        }
        self.tail.extend_from_slice(bytes)
    }

    /// Appends the first bytes, which are no record.
    fn begin(&mut self, bytes: &[u8]) -> Result<(), AllocError> {
        let kept = length_without_zeros(bytes);
        self.head.extend_from_slice(&bytes[..kept])?;
        let length = bytes.len().min(u32::MAX as usize) as u32;
        self.start = length;
        self.end = length;
        Ok(())
    }

    /// Appends a record, which begins at the end.
    fn push(&mut self, record: Record) -> Result<(), AllocError> {
        if self.last.len() >= BLOCK {
            let alloc = *self.last.allocator();
            self.full.reserve(1)?;
            let mut block = Vec::new(alloc);
            block.extend_from_slice(&self.last)?;
            let block = Arc::new(alloc, block)?;
            self.full.push(block)?;
            self.last.clear();
        }
        self.last.push(record)?;
        self.end = self.end.saturating_add(record.size);
        Ok(())
    }

    /// Writes twelve bytes over those at position 8.
    pub(crate) fn patch(&mut self, bytes: &[u8; 12]) -> Result<(), AllocError> {
        for _ in self.head.len()..20 {
            self.head.push(0)?;
        }
        if self.head.len() >= 20 {
            self.head[8..20].copy_from_slice(bytes);
        }
        Ok(())
    }

    /// Returns whether a patch changes only bytes before the first record.
    pub(crate) fn can_patch(&self) -> bool {
        self.start >= 20
    }

    /// Returns the number of records.
    fn count(&self) -> usize {
        self.full
            .len()
            .saturating_mul(BLOCK)
            .saturating_add(self.last.len())
    }

    /// Returns the record with this number.
    fn record(&self, number: usize) -> Option<Record> {
        match self.full.get(number / BLOCK) {
            Some(block) => block.get(number % BLOCK).copied(),
            None => self.last.get(number % BLOCK).copied(),
        }
    }

    /// Returns the number of the first record that ends behind a position.
    fn find(&self, at: u64) -> usize {
        let mut from = 0;
        let mut to = self.count();
        for _ in 0..64 {
            if from >= to {
                break;
            }
            let middle = from + (to - from) / 2;
            match self.record(middle) {
                Some(record) if record.end() <= at => from = middle + 1,
                _ => to = middle,
            }
        }
        from
    }

    /// Reads the bytes from position `at` on into `out`. What is not in the log is zero.
    pub(crate) fn read_into(&self, at: u64, out: &mut [u8]) {
        let mut done = self.read_head(at, out);
        let mut number = self.find(at.saturating_add(done as u64));
        for _ in 0..=out.len() {
            let next = at.saturating_add(done as u64);
            let Some(record) = self.record(number) else {
                break;
            };
            let from = next.saturating_sub(u64::from(record.at)) as usize;
            let Some(rest) = out.get_mut(done..) else {
                break;
            };
            if rest.is_empty() {
                break;
            }
            done = done.saturating_add(record.write(from, rest));
            number = number.saturating_add(1);
        }
        self.read_tail(at.saturating_add(done as u64), out, done);
    }

    /// Reads bytes before the first record. Returns their number.
    fn read_head(&self, at: u64, out: &mut [u8]) -> usize {
        let left = u64::from(self.start).saturating_sub(at);
        let count = left.min(out.len() as u64) as usize;
        let from = (at as usize).min(self.head.len());
        let kept = (self.head.len() - from).min(count);
        out[..kept].copy_from_slice(&self.head[from..from + kept]);
        out[kept..count].fill(0);
        count
    }

    /// Reads bytes behind the last record, from position `at` on, behind the first `done` of `out`.
    fn read_tail(&self, at: u64, out: &mut [u8], done: usize) {
        let from = at.saturating_sub(u64::from(self.end)) as usize;
        let from = from.min(self.tail.len());
        let done = done.min(out.len());
        let count = (self.tail.len() - from).min(out.len() - done);
        out[done..done + count].copy_from_slice(&self.tail[from..from + count]);
        out[done + count..].fill(0);
    }
}

/// Returns the number of bytes before the zeros at the end.
fn length_without_zeros(bytes: &[u8]) -> usize
    ensures { result ≤ length bytes.now }
{
    let mut kept = 0;
    for (at, byte) in bytes.iter().enumerate() {
        if *byte != 0 {
            kept = at + 1;
        }
    }
    kept.min(bytes.len())
}
