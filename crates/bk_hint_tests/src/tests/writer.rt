//! Contents of random entries.

use bk_hint::{Contents, Listed};
use bk_record::Key;
use rand_core::Rng;
use rand_pcg::Pcg32;
use std::alloc::{AllocError, Global};

/// A writer of random entries: mostly runs, now and then another ledger, another entry id, a gap or
/// another size.
#[derive(Drop)]
pub(super) struct Writer {
    chance: Pcg32,
    ledger: u64,
    entry: u64,
    size: u32,
}

impl Writer {
    pub(super) fn new(seed: u64) -> Writer {
        Writer {
            chance: Pcg32::new(seed, 54),
            ledger: 1,
            entry: 0,
            size: 100,
        }
    }

    /// Returns a key, which is mostly the one behind the last.
    fn key(&mut self) -> Option<Key> {
        match self.chance.next_u32() % 16 {
            0 => self.ledger = u64::from(self.chance.next_u32()) << 20,
            1 => self.entry = u64::from(self.chance.next_u32()) << 20,
            _ => self.entry = self.entry.wrapping_add(1),
        }
        Key::new(self.ledger, self.entry)
    }

    /// Returns a size, which is mostly the last one.
    fn size(&mut self) -> u32 {
        if self.chance.next_u32() % 3 == 0 {
            self.size = 20 + self.chance.next_u32() % 300;
        }
        self.size
    }

    /// Returns a position behind the end of the last record, mostly directly behind it.
    fn at(&mut self, end: u64) -> u64 {
        let gap = match self.chance.next_u32() % 12 {
            0 => u64::from(self.chance.next_u32() % 1000),
            _ => 0,
        };
        end.saturating_add(4).saturating_add(gap)
    }

    /// Returns contents of so many entries, and their list.
    pub(super) fn write(
        &mut self,
        alloc: Global,
        count: usize,
    ) -> Result<(Contents, Vec<Listed>), AllocError> {
        let mut contents = Contents::new(alloc);
        let mut entries = Vec::new(alloc);
        for _ in 0..count {
            let at = self.at(contents.end());
            let size = self.size();
            if let Some(key) = self.key() {
                if contents.can_push(at, size) {
                    contents.push(key, at, size)?;
                    entries.push(Listed { key, at, size })?;
                }
            }
        }
        Ok((contents, entries))
    }
}
