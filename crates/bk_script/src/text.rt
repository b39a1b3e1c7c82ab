//! The texts of answers: one line for each step.

ghost use Rattle.std.specs.Prelude.{◌≡◌, ◌<◌, false, [], ◌∷◌, Some, drop};
ghost use Rattle.std.specs.Fmt.{WritesOnOk, digit_glyph};
ghost use Rattle.bk_script.specs.Text.{add_text, data_text, delete_text, digit_pair, fence_text, fetch_text, publish_text};
ghost use Rattle.bk_script.specs.Text.{release_text, roll_text, swap_text, take_text, text_of, write_text};

mod collecting;
mod compacting;
mod counting;
mod faults;
mod reading;

use bk_drive::{
    AddFault, Added, Answer, DeleteFault, Fence, FenceFault, FetchAnswer, PublishAnswer,
    ReleaseAnswer, RollAnswer, StepFault, SwapAnswer, TakeAnswer, TakeFault, WriteAnswer,
};
use bk_log::FetchFault;
use std::fmt;
use std::fmt::{Display, Formatter};

/// A value with its text. The text of an answer is its line in the output of a script, without the
/// line feed.
#[derive(Drop)]
pub struct Text<'a, T>(pub &'a T);

impl Display for Text<'_, Answer> {
    ghost output = { λ text. Some (text_of text.0.now) };

    fn fmt<W: fmt::Write>(&self, f: &mut Formatter<W>) -> fmt::Result {
        match self.0 {
            Answer::Add(answer) => Text(answer).fmt(f),
            Answer::Take(answer) => Text(answer).fmt(f),
            Answer::Fetch(answer) => Text(answer).fmt(f),
            Answer::Release(answer) => Text(answer).fmt(f),
            Answer::Delete(answer) => Text(answer).fmt(f),
            Answer::Fence(answer) => Text(answer).fmt(f),
            Answer::Swap(answer) => Text(answer).fmt(f),
            Answer::Write(answer) => Text(answer).fmt(f),
            Answer::Publish(answer) => Text(answer).fmt(f),
            Answer::Roll(answer) => Text(answer).fmt(f),
            Answer::Retire(answer) => Text(answer).fmt(f),
            Answer::Rebuild(answer) => Text(answer).fmt(f),
            Answer::Close(answer) => Text(answer).fmt(f),
            Answer::Remove(answer) => Text(answer).fmt(f),
            Answer::Begin(answer) => Text(answer).fmt(f),
            Answer::Copy(answer) => Text(answer).fmt(f),
            Answer::EndCopy(answer) => Text(answer).fmt(f),
            Answer::Switch(answer) => Text(answer).fmt(f),
            Answer::Finish(answer) => Text(answer).fmt(f),
            Answer::GiveUp(answer) => Text(answer).fmt(f),
            Answer::Read(answer) => Text(answer).fmt(f),
            Answer::Stats(counts) => Text(counts).fmt(f),
            Answer::Unrecorded => write!(f, "fault disk"),
        }
    }
}

impl Display for Text<'_, Result<Added, AddFault>> {
    ghost output = { λ text. Some (add_text text.0.now) };

    fn fmt<W: fmt::Write>(&self, f: &mut Formatter<W>) -> fmt::Result {
        match self.0 {
            Ok(Added::Accepted(_)) => write!(f, "accepted"),
            Ok(Added::Held) => write!(f, "held"),
            Err(fault) => write!(f, "fault {}", Text(fault)),
        }
    }
}

impl Display for Text<'_, Result<TakeAnswer, TakeFault>> {
    ghost output = { λ text. Some (take_text text.0.now) };

    fn fmt<W: fmt::Write>(&self, f: &mut Formatter<W>) -> fmt::Result {
        match self.0 {
            Ok(TakeAnswer::NoReader) => write!(f, "no reader"),
            Ok(TakeAnswer::ReaderBusy) => write!(f, "reader busy"),
            Ok(TakeAnswer::Deleted) => write!(f, "deleted"),
            Ok(TakeAnswer::NotHeld) => write!(f, "not held"),
            Ok(TakeAnswer::Cached(payload)) => {
                write!(f, "cached ")?;
                write_data(f, data_of(payload))
            }
            Ok(TakeAnswer::Leased(location)) => write!(f, "leased {}", location.value()),
            Err(TakeFault::NoSeat) => write!(f, "fault no seat"),
            Err(TakeFault::TooMany) => write!(f, "fault too many leases"),
            Err(TakeFault::Memory) => write!(f, "fault memory"),
        }
    }
}

impl Display for Text<'_, Result<FetchAnswer, FetchFault>> {
    ghost output = { λ text. Some (fetch_text text.0.now) };

    fn fmt<W: fmt::Write>(&self, f: &mut Formatter<W>) -> fmt::Result {
        match self.0 {
            Ok(FetchAnswer::NoReader) => write!(f, "no reader"),
            Ok(FetchAnswer::NoLease) => write!(f, "no lease"),
            Ok(FetchAnswer::Bytes(bytes)) => {
                write!(f, "bytes ")?;
                write_data(f, data_of(bytes))
            }
            Err(fault) => write!(f, "fault {}", Text(fault)),
        }
    }
}

impl Display for Text<'_, ReleaseAnswer> {
    ghost output = { λ text. Some (release_text text.0.now) };

    fn fmt<W: fmt::Write>(&self, f: &mut Formatter<W>) -> fmt::Result {
        match self.0 {
            ReleaseAnswer::NoReader => write!(f, "no reader"),
            ReleaseAnswer::NoLease => write!(f, "no lease"),
            ReleaseAnswer::Released => write!(f, "released"),
        }
    }
}

impl Display for Text<'_, Result<u64, DeleteFault>> {
    ghost output = { λ text. Some (delete_text text.0.now) };

    fn fmt<W: fmt::Write>(&self, f: &mut Formatter<W>) -> fmt::Result {
        match self.0 {
            Ok(count) => write!(f, "dropped {count}"),
            Err(fault) => write!(f, "fault {}", Text(fault)),
        }
    }
}

impl Display for Text<'_, Result<Fence, FenceFault>> {
    ghost output = { λ text. Some (fence_text text.0.now) };

    fn fmt<W: fmt::Write>(&self, f: &mut Formatter<W>) -> fmt::Result {
        match self.0 {
            Ok(Fence::Fenced) => write!(f, "fenced"),
            Ok(Fence::AlreadyFenced) => write!(f, "already fenced"),
            Err(fault) => write!(f, "fault {}", Text(fault)),
        }
    }
}

impl Display for Text<'_, SwapAnswer> {
    ghost output = { λ text. Some (swap_text text.0.now) };

    fn fmt<W: fmt::Write>(&self, f: &mut Formatter<W>) -> fmt::Result {
        match self.0 {
            SwapAnswer::Running => write!(f, "running"),
            SwapAnswer::Nothing => write!(f, "nothing"),
            SwapAnswer::Swapped(count) => write!(f, "swapped {count}"),
        }
    }
}

impl Display for Text<'_, Result<WriteAnswer, StepFault>> {
    ghost output = { λ text. Some (write_text text.0.now) };

    fn fmt<W: fmt::Write>(&self, f: &mut Formatter<W>) -> fmt::Result {
        match self.0 {
            Ok(WriteAnswer::NoFlush) => write!(f, "no flush"),
            Ok(WriteAnswer::AllWritten) => write!(f, "all written"),
            Ok(WriteAnswer::Wrote(location)) => write!(f, "wrote {}", location.value()),
            Err(fault) => write!(f, "fault {}", Text(fault)),
        }
    }
}

impl Display for Text<'_, Result<PublishAnswer, StepFault>> {
    ghost output = { λ text. Some (publish_text text.0.now) };

    fn fmt<W: fmt::Write>(&self, f: &mut Formatter<W>) -> fmt::Result {
        match self.0 {
            Ok(PublishAnswer::NoFlush) => write!(f, "no flush"),
            Ok(PublishAnswer::NotAllWritten) => write!(f, "not all written"),
            Ok(PublishAnswer::Published(count)) => write!(f, "published {count}"),
            Err(fault) => write!(f, "fault {}", Text(fault)),
        }
    }
}

impl Display for Text<'_, Result<RollAnswer, StepFault>> {
    ghost output = { λ text. Some (roll_text text.0.now) };

    fn fmt<W: fmt::Write>(&self, f: &mut Formatter<W>) -> fmt::Result {
        match self.0 {
            Ok(RollAnswer::FlushRunning) => write!(f, "flush running"),
            Ok(RollAnswer::NothingOpen) => write!(f, "nothing open"),
            Ok(RollAnswer::Sealed(log)) => write!(f, "sealed {log}"),
            Err(fault) => write!(f, "fault {}", Text(fault)),
        }
    }
}

/// Returns the data of a payload, after its two ids.
fn data_of(payload: &[u8]) -> &[u8]
    ensures { result.now ≡ drop 16 payload.now }
{
    payload.get(16..).unwrap_or(&[])
}

/// Writes data in lower-case hexadecimal, or `-` if there is none.
fn write_data<W: fmt::Write>(f: &mut Formatter<W>, bytes: &[u8]) -> fmt::Result
    ensures { WritesOnOk W.write_str_gives f.old result (data_text bytes.now) f.new }
{
    if bytes.is_empty() {
        return write!(f, "-");
    }
    for byte in bytes {
        write_byte(f, *byte)?;
    }
    Ok(())
}

/// Writes a byte as two digits. A table takes half the time of a number's format.
fn write_byte<W: fmt::Write>(f: &mut Formatter<W>, byte: u8) -> fmt::Result
    ensures { WritesOnOk W.write_str_gives f.old result (digit_pair byte) f.new }
{
    f.write_str(digit(byte / 16))?;
    f.write_str(digit(byte % 16))
}

/// Returns the digit of a number below 16.
fn digit(number: u8) -> &'static str
    requires { number < 16 }
    ensures { result.now ≡ digit_glyph false number ∷ [] }
{
    match number {
        0 => "0",
        1 => "1",
        2 => "2",
        3 => "3",
        4 => "4",
        5 => "5",
        6 => "6",
        7 => "7",
        8 => "8",
        9 => "9",
        10 => "a",
        11 => "b",
        12 => "c",
        13 => "d",
        14 => "e",
        _ => "f",
    }
}
