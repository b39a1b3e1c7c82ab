//! Full blocks of a log in memory, in chunks of one size that views share.
//!
//! All chunks but the last are full and immutable, so views share them; a new block replaces the
//! chunk that has it. The last chunk belongs to the log, and a view copies its list.

ghost use Rattle.std.specs.Prelude.{◌≡◌, ◌+◌, ◌<◌, ◌^◌, [], ◌++◌, length, map, set, get_or, IfOk, OnOk, OnErr};
ghost use Rattle.bk_disk.specs.Blocks.{bytes_of, blocks_of, joined, IsCut};

use std::alloc::{AllocError, Global};
use std::marker::Model;
use std::sync::Arc;

/// The bytes of a full block, which the log shares with its views.
pub(crate) type Block = Arc<Vec<u8>>;

// The number of blocks in a full chunk.
const CHUNK: usize = 256;

/// A list of full blocks.
#[derive(Drop)]
pub(crate) struct Chunks {
    full: Vec<Arc<Vec<Block>>>,
    last: Vec<Block>,
}

impl Model for Chunks {
    ghost use Rattle.std.specs.Prelude.{ℕ, List, map};
    ghost use Rattle.bk_disk.specs.Blocks.{bytes_of, blocks_of, joined, IsCut};
    ghost use Rattle.bk_disk.specs.declared.chunks.TheConstants.{CHUNK};

    ghost Value = { List (List ℕ) };

    ghost view = { λ c. joined (map blocks_of c.full.items) (map bytes_of c.last.items) };

    ghost invariant = { λ c. IsCut CHUNK (map blocks_of c.full.items) (map bytes_of c.last.items) };
}

impl Chunks {
    pub(crate) fn new(alloc: Global) -> Self
        ensures { result ≡ [] }
    {
        Chunks {
            full: Vec::new(alloc),
            last: Vec::new(alloc),
        }
    }

    #[tactic(auto, using(crate::proofs::InChunks::length_chunks))]
    pub(crate) fn len(&self) -> usize
        ensures value { result ≡ length self.now }
        ensures bound { result < 2 ^ 32 }
    {
        self.full.len() * CHUNK + self.last.len()
    }

    /// Returns the block at an index.
    pub(crate) fn block(&self, at: usize) -> &[u8]
        requires { at < length self.now }
        ensures { result.now ≡ get_or self.now at [] }
    {
        let chunk = at / CHUNK;
        if chunk < self.full.len() {
            &self.full[chunk][at % CHUNK]
        } else {
            &self.last[at % CHUNK]
        }
    }

    /// Returns the same blocks for a view: the full chunks are shared, and so is each block of the
    /// last one.
    pub(crate) fn share(&self) -> Result<Chunks, AllocError>
        ensures { IfOk result (λ copy. copy ≡ self.now) }
    {
        let full = self.full.clone()?;
        let last = self.last.clone()?;
        Ok(Chunks { full, last })
    }

    /// Appends these blocks.
    pub(crate) fn append(&mut self, mut blocks: Vec<Block>) -> Result<(), AllocError>
        requires { length self.old + length blocks.items < 2 ^ 32 }
        ensures ok { OnOk result (self.new ≡ self.old ++ map bytes_of blocks.items) }
        ensures err { OnErr result (self.new ≡ self.old) }
    {
        if blocks.len() < CHUNK - self.last.len() {
            return self.last.append(&mut blocks);
        }
        let begun = self.last.clone()?;
        let (mut full, last) = chunked(*self.last.allocator(), begun, blocks)?;
        self.full.append(&mut full)?;
        self.last = last;
        Ok(())
    }

    /// Replaces the first block.
    pub(crate) fn replace_first(&mut self, block: Block) -> Result<(), AllocError>
        requires { 0 < length self.old }
        ensures ok { OnOk result (self.new ≡ set self.old 0 (bytes_of block)) }
        ensures err { OnErr result (self.new ≡ self.old) }
    {
        if self.full.is_empty() {
            self.last[0] = block;
            return Ok(());
        }
        let first: &Vec<Block> = &self.full[0];
        let mut chunk = first.clone()?;
        chunk[0] = block;
        self.full[0] = Arc::new(*self.last.allocator(), chunk)?;
        Ok(())
    }
}

// Cuts the blocks of a chunk that is not full, and then others, into full chunks and a last one.
fn chunked(
    alloc: Global,
    begun: Vec<Block>,
    blocks: Vec<Block>,
) -> Result<(Vec<Arc<Vec<Block>>>, Vec<Block>), AllocError>
    requires short { length begun.items < CHUNK }
    requires fits { length begun.items + length blocks.items < 2 ^ 32 }
    ensures cut { IfOk result (λ made. IsCut CHUNK (map blocks_of made.0.items) (map bytes_of made.1.items)) }
    ensures whole { IfOk result (λ made. joined (map blocks_of made.0.items) (map bytes_of made.1.items)
        ≡ map bytes_of begun.items ++ map bytes_of blocks.items) }
{
    let mut full = Vec::new(alloc);
    let mut last = begun;
    for block in blocks {
        last.push(block)?;
        if last.len() == CHUNK {
            full.push(Arc::new(alloc, last)?)?;
            last = Vec::new(alloc);
        }
    }
    Ok((full, last))
}
