//! Frames appended to a buffer.

ghost use Rattle.std.specs.Prelude.{◌≡◌, ◌+◌, ◌<◌, ◌≤◌, ◌^◌, ◌++◌, true, length, IfErr, OnOk};
ghost use Rattle.std.specs.Int.{w64, to_be_bytes};
ghost use Rattle.std.specs.Io.{StartsWith};
ghost use Rattle.std.specs.List.{flat_map};
ghost use Rattle.bk_serve_core.specs.Encoding.{AreNumbers, RefusesLayout};
ghost use Rattle.bk_serve_core.specs.Fields.{body_of, fields, frame_of, parts};
ghost use Rattle.bk_serve_core.specs.Layouts.{fits};

use crate::EncodeError;
use crate::layout::Layout;
use std::alloc::AllocError;

/// Appends numbers of eight bytes.
#[tactic(auto, using(crate::proofs::Numbers::front_stays))]
fn put_numbers(out: &mut Vec<u8>, numbers: &[u64]) -> Result<(), AllocError>
    ensures ok { OnOk result (out.new.items ≡ out.old.items ++ flat_map (to_be_bytes w64) numbers.now) }
    ensures starts { StartsWith out.new.items out.old.items }
{
    for number in numbers {
        out.extend_from_slice(&number.to_be_bytes())?;
    }
    Ok(())
}

/// Returns the number of bytes of fields.
#[tactic(auto, using(crate::proofs::Numbers::length_fields, crate::proofs::Numbers::are_numbers))]
fn fields_length(numbers: &[u64], tail: &[u8]) -> usize
    requires { length numbers.now ≤ 10 }
    ensures value { result ≡ length (fields numbers.now tail.now) }
    ensures numbers { AreNumbers numbers.now }
{
    8 * numbers.len() + tail.len()
}

/// Appends the frame of this body, whose length is given. An error may leave a part of it.
fn append(
    out: &mut Vec<u8>,
    id: u64,
    size: usize,
    kind: u8,
    numbers: &[u64],
    tail: &[u8],
) -> Result<(), AllocError>
    requires whole { size ≡ 8 + length (body_of (parts kind numbers.now tail.now)) }
    requires short { size < 2 ^ 32 }
    ensures ok { OnOk result (out.new.items ≡ out.old.items ++ frame_of id (body_of (parts kind numbers.now tail.now))) }
    ensures starts { StartsWith out.new.items out.old.items }
{
    out.extend_from_slice(&(size as u32).to_be_bytes())?;
    out.extend_from_slice(&id.to_be_bytes())?;
    out.push(kind)?;
    put_numbers(out, numbers)?;
    out.extend_from_slice(tail)?;
    Ok(())
}

/// Appends the frame with this id, kind, numbers and bytes. An error may leave a part of it.
pub(crate) fn put(
    out: &mut Vec<u8>,
    id: u64,
    kind: u8,
    layout: Layout,
    numbers: &[u64],
    tail: &[u8],
) -> Result<(), EncodeError>
    requires few { length numbers.now ≤ 10 }
    requires most { layout.most ≤ 5000000 }
    ensures ok { OnOk result (out.new.items ≡ out.old.items ++ frame_of id (body_of (parts kind numbers.now tail.now))) }
    ensures numbers { AreNumbers numbers.now }
    ensures fits { OnOk result (fits layout (length (fields numbers.now tail.now)) ≡ true) }
    ensures err { IfErr result (λ e. RefusesLayout e layout numbers.now tail.now) }
    ensures starts { StartsWith out.new.items out.old.items }
{
    let length = fields_length(numbers, tail);
    if !layout.fits(length) {
        return Err(EncodeError::TooLong(tail.len() as u64));
    }
    append(out, id, 9 + length, kind, numbers, tail)?;
    Ok(())
}
