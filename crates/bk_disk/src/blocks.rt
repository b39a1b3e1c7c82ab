//! Bytes of a log in memory, in blocks of one size that views share.
//!
//! All blocks but the last are full and immutable, so views share them; a patch replaces one. The
//! last block belongs to the log: an append writes into it, and a view copies it. The list of full
//! blocks is shared too (`Chunks`).

ghost use Rattle.std.specs.Prelude.{◌≡◌, ◌+◌, ◌-◌, ◌%◌, ◌<◌, ◌≤◌, ◌^◌, [], ◌++◌, length, map, take, drop, IfOk, OnOk, OnErr};
ghost use Rattle.std.specs.List.{All};
ghost use Rattle.bk_disk.specs.Blocks.{bytes_of, joined, IsCut, HasPrefix};

use crate::chunks::{Block, Chunks};
use std::alloc::{AllocError, Global};
use std::marker::Model;
use std::sync::Arc;

/// Bytes of a full block.
pub(crate) const BLOCK: usize = 65_536;

/// The bytes of a log, at most 2^32 - 1.
#[derive(Drop)]
pub(crate) struct Blocks {
    full: Chunks,
    last: Vec<u8>,
}

impl Model for Blocks {
    ghost use Rattle.std.specs.Prelude.{ℕ, List};
    ghost use Rattle.bk_disk.specs.Blocks.{joined, IsCut};
    ghost use Rattle.bk_disk.specs.declared.blocks.TheConstants.{BLOCK};

    ghost Value = { List ℕ };

    ghost view = { λ b. joined b.full b.last.items };

    ghost invariant = { λ b. IsCut BLOCK b.full b.last.items };
}

impl Blocks {
    pub(crate) fn new(alloc: Global) -> Self
        ensures { result ≡ [] }
    {
        Blocks {
            full: Chunks::new(alloc),
            last: Vec::new(alloc),
        }
    }

    pub(crate) fn of(alloc: Global, bytes: &[u8]) -> Result<Blocks, AllocError>
        requires { length bytes.now < 2 ^ 32 }
        ensures value { IfOk result (λ blocks. blocks ≡ bytes.now) }
        ensures bytes { All (λ b. b < 2 ^ 8) bytes.now }
    {
        let mut blocks = Blocks::new(alloc);
        blocks.append(bytes)?;
        Ok(blocks)
    }

    #[tactic(auto, using(crate::proofs::Cuts::length_blocks))]
    pub(crate) fn len(&self) -> u64
        ensures value { result ≡ length self.now }
        ensures bound { result < 2 ^ 32 }
    {
        (self.full.len() * BLOCK + self.last.len()) as u64
    }

    /// Returns the same bytes for a view: the full blocks are shared, the last one is copied.
    pub(crate) fn share(&self) -> Result<Blocks, AllocError>
        ensures { IfOk result (λ copy. copy ≡ self.now) }
    {
        let full = self.full.share()?;
        let last = Vec::from_slice(*self.last.allocator(), &self.last)?;
        Ok(Blocks { full, last })
    }

    /// Returns the bytes from position `from` up to position `to`.
    pub(crate) fn read(&self, alloc: Global, from: usize, to: usize) -> Result<Vec<u8>, AllocError>
        requires order { from ≤ to }
        requires within { to ≤ length self.now }
        ensures { IfOk result (λ bytes. bytes.items ≡ take (to - from) (drop from self.now)) }
    {
        let mut bytes = vec![in alloc; 0u8; to - from]?;
        self.read_into(from, &mut bytes);
        Ok(bytes)
    }

    /// Reads the bytes from position `from` on into the whole of `out`.
    pub(crate) fn read_into(&self, from: usize, out: &mut [u8])
        requires fits { from + length out.old < 2 ^ 64 }
        requires within { from + length out.old ≤ length self.now }
        ensures { out.new ≡ take (length out.old) (drop from self.now) }
    {
        let mut done = 0;
        while done < out.len() {
            let next = from + done;
            let within = next % BLOCK;
            let block = self.block_of(next);
            let size = (block.len() - within).min(out.len() - done);
            out[done..done + size].copy_from_slice(&block[within..within + size]);
            done += size;
        }
    }

    /// Returns the bytes from a position to the end of its block, none from the end on.
    pub(crate) fn rest_of_block(&self, at: u64) -> &[u8]
        ensures { HasPrefix (drop at self.now) result.now }
    {
        if at >= self.len() {
            return &[];
        }
        let within = at as usize;
        &self.block_of(within)[within % BLOCK..]
    }

    // Returns the block that has a position.
    fn block_of(&self, at: usize) -> &[u8]
        requires { at < length self.now }
        ensures inside { at % BLOCK < length result.now }
        ensures value { HasPrefix (drop at self.now) (drop (at % BLOCK) result.now) }
    {
        if at / BLOCK < self.full.len() {
            self.full.block(at / BLOCK)
        } else {
            &self.last
        }
    }

    pub(crate) fn append(&mut self, bytes: &[u8]) -> Result<(), AllocError>
        requires { length self.old + length bytes.now < 2 ^ 32 }
        ensures ok { OnOk result (self.new ≡ self.old ++ bytes.now) }
        ensures err { OnErr result (self.new ≡ self.old) }
    {
        if bytes.len() < BLOCK - self.last.len() {
            return self.last.extend_from_slice(bytes);
        }
        let (full, last) = cut(*self.last.allocator(), &self.last, bytes)?;
        self.full.append(full)?;
        self.last = last;
        Ok(())
    }

    pub(crate) fn truncate(&mut self, alloc: Global, end: usize) -> Result<(), AllocError>
        requires { end ≤ length self.old }
        ensures ok { OnOk result (self.new ≡ take end self.old) }
        ensures err { OnErr result (self.new ≡ self.old) }
    {
        let _length = self.len();
        let front = self.read(alloc, 0, end)?;
        *self = Blocks::of(alloc, &front)?;
        Ok(())
    }

    pub(crate) fn patch(&mut self, bytes: &[u8; 12]) -> Result<(), AllocError>
        requires { 20 ≤ length self.old }
        ensures ok { OnOk result (self.new ≡ take 8 self.old ++ bytes.now ++ drop 20 self.old) }
        ensures err { OnErr result (self.new ≡ self.old) }
    {
        if self.full.len() == 0 {
            self.last[8..20].copy_from_slice(bytes);
            return Ok(());
        }
        let alloc = *self.last.allocator();
        let first = patched(alloc, self.full.block(0), bytes)?;
        self.full.replace_first(Arc::new(alloc, first)?)?;
        Ok(())
    }
}

// Cuts the bytes of a block that is not full, and then others, into full blocks and a last one.
fn cut(alloc: Global, begun: &[u8], bytes: &[u8]) -> Result<(Vec<Block>, Vec<u8>), AllocError>
    requires short { length begun.now < BLOCK }
    requires fits { length begun.now + length bytes.now < 2 ^ 32 }
    ensures cut { IfOk result (λ made. IsCut BLOCK (map bytes_of made.0.items) made.1.items) }
    ensures whole { IfOk result (λ made. joined (map bytes_of made.0.items) made.1.items ≡ begun.now ++ bytes.now) }
{
    let mut full = Vec::new(alloc);
    let mut last = Vec::with_capacity(alloc, BLOCK)?;
    last.extend_from_slice(begun)?;
    let mut rest = bytes;
    while rest.len() >= BLOCK - last.len() {
        let (head, behind) = rest.split_at(BLOCK - last.len());
        last.extend_from_slice(head)?;
        full.push(Arc::new(alloc, last)?)?;
        last = Vec::with_capacity(alloc, BLOCK)?;
        rest = behind;
    }
    last.extend_from_slice(rest)?;
    Ok((full, last))
}

// Returns a copy of a block with other bytes at 8 to 20.
fn patched(alloc: Global, block: &[u8], bytes: &[u8; 12]) -> Result<Vec<u8>, AllocError>
    requires { 20 ≤ length block.now }
    ensures { IfOk result (λ copy. copy.items ≡ take 8 block.now ++ bytes.now ++ drop 20 block.now) }
{
    let mut copy = Vec::from_slice(alloc, block)?;
    copy[8..20].copy_from_slice(bytes);
    Ok(copy)
}
