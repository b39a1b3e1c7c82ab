//! The standard input, read in a thread of its own, so that it is known whether input waits.

use bk_serve_dispatch::Source;
use crossbeam_channel::{Receiver, Sender, bounded};
use std::alloc::Global;
use std::io::{Error, ErrorKind, Read};
use std::sync::Wait;

/// Number of bytes of a piece.
const PIECE: usize = 65_536;

/// Number of pieces that wait to be read. Further input is left unread.
const PIECES: usize = 4;

/// A part of the input.
#[derive(Drop)]
pub(crate) enum Piece {
    /// These bytes, at least one.
    Bytes(Vec<u8>),
    /// The end of the input.
    End,
    /// The input could not be read, or there is no memory for a piece.
    Failed,
}

/// Input that another thread reads.
#[derive(Drop)]
pub(crate) struct Pumped<R: Wait + Drop> {
    rt: R,
    pieces: Receiver<Piece>,
    piece: Vec<u8>,
    /// How many bytes of the piece were read.
    at: usize,
}

impl<R: Wait + Drop> Pumped<R> {
    /// Returns the input of the pieces that are sent, and the end that sends them. `None` if out of
    /// memory.
    pub fn new(alloc: Global, rt: R) -> Option<(Sender<Piece>, Pumped<R>)> {
        let Ok((to, pieces)) = bounded(alloc, PIECES) else {
            return None;
        };
        let input = Pumped {
            rt,
            pieces,
            piece: Vec::new(alloc),
            at: 0,
        };
        Some((to, input))
    }
}

impl<R: Wait + Drop> Read for Pumped<R> {
    fn read(&mut self, buf: &mut [u8]) -> std::io::Result<usize> {
        if self.at >= self.piece.len() {
            match self.pieces.recv(&self.rt) {
                Ok(Piece::Bytes(bytes)) => {
                    self.piece = bytes;
                    self.at = 0;
                }
                Ok(Piece::Failed) => return Err(Error::from(ErrorKind::Other)),
                Ok(Piece::End) | Err(_) => return Ok(0),
            }
        }
        let left = &self.piece[self.at..];
        let count = left.len().min(buf.len());
        buf[..count].copy_from_slice(&left[..count]);
        self.at += count;
        Ok(count)
    }
}

impl<R: Wait + Drop> Source for Pumped<R> {
    fn is_waiting(&self) -> bool {
        self.is_there()
    }

    fn is_there(&self) -> bool {
        self.at < self.piece.len() || !self.pieces.is_empty()
    }
}

/// Reads a piece of the input. `None` at its end.
fn read_piece<I: Read>(alloc: Global, input: &mut I) -> std::io::Result<Option<Vec<u8>>> {
    let mut bytes = vec![in alloc; 0u8; PIECE]?;
    for _ in 0..u64::MAX {
        match input.read(&mut bytes) {
            Ok(0) => return Ok(None),
            Ok(count) => {
                bytes.truncate(count);
                return Ok(Some(bytes));
            }
            Err(error) if error.kind() == ErrorKind::Interrupted => {}
            Err(error) => return Err(error),
        }
    }
    Ok(None)
}

/// Reads the input to its end, and sends it in pieces as long as they are received.
pub(crate) fn pump<R: Wait, I: Read + Drop>(
    rt: &R,
    alloc: Global,
    mut input: I,
    to: Sender<Piece>,
) {
    for _ in rt.forever() {
        let piece = match read_piece(alloc, &mut input) {
            Ok(Some(bytes)) => Piece::Bytes(bytes),
            Ok(None) => Piece::End,
            Err(_) => Piece::Failed,
        };
        let is_last = !matches!(piece, Piece::Bytes(_));
        if to.send(rt, piece).is_err() || is_last {
            return;
        }
    }
}
