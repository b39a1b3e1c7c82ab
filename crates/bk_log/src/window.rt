//! Reading ahead in a view: bytes are read in windows and parsed record by record.

ghost use Rattle.std.specs.Prelude.{◌≡◌, ◌+◌, ◌-◌, ◌≤◌, ◌<◌, ◌^◌, false, IsTrue, IsErrOf, IfOk, IfErr, IfSome, OnOk, OnErr, IsOkUnless, length, take, drop, nat_lt};
ghost use Rattle.bk_disk.specs.Disk.{IsInView};
ghost use Rattle.bk_log.specs.Ahead.{HasRoomFor, IsRecord, ReadsLeft};
ghost use Rattle.bk_disk.specs.Runs.{IsRunAt};
ghost use Rattle.bk_log.specs.Fronts.{FitsIn, HasWholeFirst};

use crate::ScanFault;
use crate::front::{Front, HEAD, front_of};
use crate::length::is_payload_length;
use bk_disk::{DiskFault, LogView, RecordRun};
use bk_record::RECORD_HEAD;
use std::alloc::Global;
use std::marker::Model;

/// Greatest size of a window in bytes.
const WINDOW: u64 = 65_536;

/// Size of the first window in bytes, if the first record is not longer. Each window is twice as
/// long as the one before, so that a scan of few records reads few bytes.
const FIRST: u64 = 512;

/// A position in a view that advances.
///
/// The bytes of `read` from `offset` are those of the view from the position; those from `start`
/// are the view's from `since`. `read` is allocated at the first record and is no longer than the
/// bytes left then. If a longer buffer cannot be allocated, the old one is used.
///
/// A view that has its bytes in memory lends them, from `lent_from` on; then only a head that lies
/// in two blocks is copied. A view may also know heads without reading them; a record whose head
/// was known is not read, and is in the window only if it was read for a record before it.
#[derive(Drop)]
pub(crate) struct Window<'a, V: LogView> {
    view: &'a V,
    alloc: Global,
    at: u64,
    since: u64,
    read: Vec<u8>,
    start: usize,
    offset: usize,
    lent: &'a [u8],
    lent_from: u64,
}

impl<'a, V: LogView> Model for Window<'a, V> {
    ghost use Rattle.std.specs.Prelude.{◌-◌, length};
    ghost use Rattle.bk_log.specs.Ahead.{Ahead, ahead_code, ShowsWindow, ShowsLent};

    ghost Value = { Ahead };

    ghost coded = { ahead_code };

    ghost view = { λ w. record {
      at = w.at;
      bytes = V.bytes w.view.now;
      honest = V.honest w.view.now;
      sound = V.sound w.view.now;
      ready = length w.read.items - w.offset;
      room = length w.read.items;
    } };

    ghost invariant = { λ w. ShowsWindow (V.honest w.view.now) (V.bytes w.view.now) w.at w.offset w.since w.start w.read.items
        × ShowsLent (V.honest w.view.now) (V.bytes w.view.now) w.lent_from w.lent.now };
}

impl<'a, V: LogView> Window<'a, V> {
    ghost use Rattle.bk_log.specs.Ahead.{ShowsFront};

    /// Returns a window at a position of a view, with nothing read.
    pub(crate) fn new(view: &'a V, alloc: Global, at: u64) -> Window<'a, V>
        ensures { result ≡ record {
          at = at;
          bytes = V.bytes view.now;
          honest = V.honest view.now;
          sound = V.sound view.now;
          ready = 0;
          room = 0;
        } }
    {
        Window {
            view,
            alloc,
            at,
            since: at,
            read: Vec::new(alloc),
            start: 0,
            offset: 0,
            lent: &[],
            lent_from: at,
        }
    }

    /// Returns the position.
    pub(crate) fn at(&self) -> u64
        ensures { result ≡ self.now.at }
    {
        self.at
    }

    /// Returns whether the buffer is allocated, as it is after the first record.
    pub(crate) fn has_room(&self) -> bool
        ensures { result ≡ nat_lt 0 self.now.room }
    {
        !self.read.is_empty()
    }

    /// Parses the start of the `left` bytes from the position. If its head is neither lent nor in
    /// the window nor known, reads the head alone, and a window only for a record and if the view
    /// lends nothing. Errors: `Disk` if the view is not sound, `Memory` at the first record, `Odd`.
    pub(crate) fn front(&mut self, left: u64) -> Result<Front, ScanFault>
        requires { IsTrue self.old.honest → IsInView self.old.bytes self.old.at left }
        ensures same { self.new ≡ record self.old { ready = self.new.ready; room = self.new.room } }
        ensures cause { IsErrOf result ScanFault.Disk → self.old.sound ≡ false }
        ensures fits { IfOk result (FitsIn left) }
        ensures room { IfOk result (HasRoomFor self.new.room) }
        ensures transition { IsTrue self.old.honest
            → ShowsFront self.old.room (take left (drop self.old.at self.old.bytes)) result }
    {
        let wanted = left.min(HEAD) as usize;
        let at = self.at;
        if let Some(head) = self.lent(at, wanted) {
            return self.with_room(front_of(head, left), left);
        }
        if wanted <= self.read.len() - self.offset {
            let head = &self.read[self.offset..self.offset + wanted];
            return Ok(front_of(head, left));
        }
        if let Some(run) = self.run(left) {
            let (size, key) = (run.size, Some(run.first));
            return self.with_room(Front::Record { size, key }, left);
        }
        if let Some(head) = self.borrow(wanted) {
            return self.with_room(front_of(head, left), left);
        }
        self.read_front(left)
    }

    /// Returns records at the position whose heads the view knows without reading them, if there
    /// is one, and its size is legal and at most `left` bytes. Reads nothing.
    pub(crate) fn run(&self, left: u64) -> Option<RecordRun>
        ensures fits { IfSome result (HasWholeFirst left) }
        ensures value { IsTrue self.now.honest → IfSome result (IsRunAt self.now.bytes self.now.at) }
    {
        let run = self.view.lend_run(self.at)?;
        prove!(run.first.ledger() < 1 << 63);
        prove!(run.first.entry() < 1 << 63);
        if run.count == 0 || run.size < 4 || u64::from(run.size) > left {
            return None;
        }
        if !is_payload_length(run.size - 4) {
            return None;
        }
        Some(run)
    }

    /// Same as `front`, for a head that has to be read.
    fn read_front(&mut self, left: u64) -> Result<Front, ScanFault>
        requires { IsTrue self.old.honest → IsInView self.old.bytes self.old.at left }
        ensures same { self.new ≡ record self.old { ready = self.new.ready; room = self.new.room } }
        ensures cause { IsErrOf result ScanFault.Disk → self.old.sound ≡ false }
        ensures fits { IfOk result (FitsIn left) }
        ensures room { IfOk result (HasRoomFor self.new.room) }
        ensures transition { IsTrue self.old.honest
            → ShowsFront self.old.room (take left (drop self.old.at self.old.bytes)) result }
    {
        let wanted = left.min(HEAD) as usize;
        let mut bytes = [0u8; RECORD_HEAD];
        let head = &mut bytes[..wanted];
        read_left(self.view, self.at, head)?;
        let front = front_of(head, left);
        if let Front::Record { size, .. } = front {
            if let Err(fault) = self.make(left, size) {
                return Err(fault);
            }
            self.read_on(left, size)?;
        }
        Ok(front)
    }

    /// Reads a window for a record of this size, unless the record is longer or the view lends its
    /// bytes.
    fn read_on(&mut self, left: u64, size: u32) -> Result<(), ScanFault>
        requires some { 0 < left }
        requires made { 0 < self.old.room }
        requires view { IsTrue self.old.honest → IsInView self.old.bytes self.old.at left }
        ensures same { self.new ≡ record self.old { ready = self.new.ready; room = self.new.room } }
        ensures cause { IsErrOf result ScanFault.Disk → self.old.sound ≡ false }
        ensures room { 0 < self.new.room }
        ensures transition { IsTrue self.old.honest → IfErr result (λ fault. fault ≡ ScanFault.Disk) }
    {
        if u64::from(size) >= WINDOW || !self.lent.is_empty() {
            return Ok(());
        }
        self.fill(left)
    }

    /// Returns what the view lent, `front`, after the buffer is allocated at the first record.
    fn with_room(&mut self, front: Front, left: u64) -> Result<Front, ScanFault>
        requires { FitsIn left front }
        ensures same { self.new ≡ record self.old { ready = self.new.ready; room = self.new.room } }
        ensures value { IfOk result (λ found. found ≡ front) }
        ensures room { IfOk result (HasRoomFor self.new.room) }
        ensures err { IfErr result (λ fault. (fault ≡ ScanFault.Memory) × (self.old.room ≡ 0) × IsRecord front) }
    {
        if let Front::Record { size, .. } = front {
            if self.read.is_empty() {
                self.make(left, size)?;
            }
        }
        Ok(front)
    }

    /// Returns the `count` bytes of the view from a position, if the view lent them.
    #[inline]
    fn lent(&self, from: u64, count: usize) -> Option<&'a [u8]>
        ensures long { IfSome result (λ bytes. length bytes.now ≡ count) }
        ensures value { IsTrue self.now.honest → IfSome result (λ bytes. bytes.now ≡ take count (drop from self.now.bytes)) }
    {
        let lent = self.lent;
        let before = from.checked_sub(self.lent_from)?;
        if before > lent.len() as u64 || count > lent.len() - before as usize {
            return None;
        }
        let begin = before as usize;
        Some(&lent[begin..begin + count])
    }

    /// Asks the view for its bytes from the position on. Returns `count` of them, if it has them.
    fn borrow(&mut self, count: usize) -> Option<&'a [u8]>
        ensures same { self.new ≡ self.old }
        ensures long { IfSome result (λ bytes. length bytes.now ≡ count) }
        ensures value { IsTrue self.old.honest → IfSome result (λ bytes. bytes.now ≡ take count (drop self.old.at self.old.bytes)) }
    {
        let view = self.view;
        let at = self.at;
        self.lent = view.lend(at);
        self.lent_from = at;
        self.lent(at, count)
    }

    /// Allocates the buffer if there is none; else a longer one, if memory is available.
    fn make(&mut self, left: u64, needed: u32) -> Result<(), ScanFault>
        requires { 0 < left }
        ensures same { self.new ≡ record self.old { ready = self.new.ready; room = self.new.room } }
        ensures ok { OnOk result (0 < self.new.room) }
        ensures err { IfErr result (λ fault. (fault ≡ ScanFault.Memory) × (self.old.room ≡ 0)) }
    {
        if self.read.is_empty() {
            return self.take_room(left.min(FIRST.max(u64::from(needed))).min(WINDOW));
        }
        let longer = left.min(2 * self.read.len() as u64).min(WINDOW);
        if longer > self.read.len() as u64 {
            let _ = self.take_room(longer);
        }
        Ok(())
    }

    /// Allocates a buffer of `size` bytes, none of which is read yet.
    fn take_room(&mut self, size: u64) -> Result<(), ScanFault>
        requires { 0 < size }
        ensures same { self.new ≡ record self.old { ready = self.new.ready; room = self.new.room } }
        ensures ok { OnOk result (0 < self.new.room) }
        ensures err { OnErr result (self.new ≡ self.old) }
        ensures only { IsOkUnless result ScanFault.Memory }
    {
        let size = size as usize;
        let Ok(read) = vec![in self.alloc; 0u8; size] else {
            return Err(ScanFault::Memory);
        };
        self.read = read;
        self.since = self.at;
        self.start = size;
        self.offset = size;
        Ok(())
    }

    /// Reads a window of the bytes that are left.
    fn fill(&mut self, left: u64) -> Result<(), ScanFault>
        requires some { 0 < left }
        requires made { 0 < self.old.room }
        requires view { IsTrue self.old.honest → IsInView self.old.bytes self.old.at left }
        ensures same { self.new ≡ record self.old { ready = self.new.ready; room = self.new.room } }
        ensures cause { IsErrOf result ScanFault.Disk → self.old.sound ≡ false }
        ensures room { 0 < self.new.room }
        ensures transition { IsTrue self.old.honest → IfErr result (λ fault. fault ≡ ScanFault.Disk) }
    {
        let size = left.min(self.read.len() as u64) as usize;
        self.read.truncate(size);
        self.since = self.at;
        self.start = size;
        self.offset = size;
        read_left(self.view, self.at, &mut self.read)?;
        self.start = 0;
        self.offset = 0;
        Ok(())
    }

    /// Advances by `size` bytes.
    pub(crate) fn skip(&mut self, size: u64)
        requires { self.old.at + size < 2 ^ 64 }
        ensures { self.new ≡ record self.old { at = self.old.at + size; ready = self.old.ready - size } }
    {
        self.at += size;
        self.offset += size.min((self.read.len() - self.offset) as u64) as usize;
    }

    /// Returns the `count` bytes of the view from a position, if they are lent or the window has
    /// them all. Reads nothing.
    pub(crate) fn lend(&self, from: u64, count: usize) -> Option<&[u8]>
        ensures long { IfSome result (λ bytes. length bytes.now ≡ count) }
        ensures value { IsTrue self.now.honest → IfSome result (λ bytes. bytes.now ≡ take count (drop from self.now.bytes)) }
    {
        if let Some(bytes) = self.lent(from, count) {
            return Some(bytes);
        }
        let before = from.checked_sub(self.since)?;
        let known = self.read.len() - self.start;
        if before > known as u64 || count > known - before as usize {
            return None;
        }
        let begin = self.start + before as usize;
        Some(&self.read[begin..begin + count])
    }
}

/// Reads remaining bytes into `out`. Fails with `Odd` if they are not in the view.
fn read_left<V: LogView>(view: &V, at: u64, out: &mut [u8]) -> Result<(), ScanFault>
    requires { IsTrue (V.honest view.now) → IsInView (V.bytes view.now) at (length out.old) }
    ensures cause { IsErrOf result ScanFault.Disk → V.sound view.now ≡ false }
    ensures transition { IsTrue (V.honest view.now) → ReadsLeft (V.bytes view.now) at (length out.old) result out.new }
{
    match view.read_into(at, out) {
        Ok(()) => Ok(()),
        Err(DiskFault::Disk) => Err(ScanFault::Disk),
        Err(_) => Err(ScanFault::Odd),
    }
}
