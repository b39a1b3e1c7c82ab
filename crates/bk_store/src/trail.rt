//! The trail: what a store accepted since its opening, in order.
//!
//! It only grows, and no call copies it as a whole. From half full on it has a second list of twice
//! the size, and each new mark moves two old ones there. When the first list is full, the second
//! has all marks and replaces it.

ghost use Rattle.std.specs.Prelude.{◌≡◌, ◌<◌, ◌≤◌, ◌+◌, [], ◌∷◌, ◌++◌, length, take, OnOk, vec_len, vec_capacity};

use crate::Mark;
use std::alloc::{AllocError, Global};
use std::marker::Model;
use std::mem;

/// Room for marks at first.
const FIRST: usize = 64;

/// Marks of the accepted changes, in order.
#[derive(Drop)]
pub(crate) struct Trail {
    alloc: Global,
    marks: Vec<Mark>,
    /// Where the marks move, from half full on.
    next: Vec<Mark>,
    half: usize,
}

impl Model for Trail {
    ghost use Rattle.std.specs.Prelude.{vec_len, vec_capacity};
    ghost use Rattle.bk_store.specs.Trail.{HeldTrail, held_trail_code};
    ghost use Rattle.bk_store.specs.TrailLayout.{IsSpread, room_of};

    ghost Value = { HeldTrail };

    ghost coded = { held_trail_code };

    ghost view = { λ t. record {
      marks = t.marks.items;
      room = room_of (vec_len t.marks) (vec_capacity t.marks) (vec_capacity t.next) t.half;
    } };

    ghost invariant = { λ t. IsSpread t.marks.items t.next.items (vec_capacity t.marks) (vec_capacity t.next) t.half };
}

impl Trail {
    /// Returns an empty trail.
    pub fn new(alloc: Global) -> Trail
        ensures { result.marks ≡ [] }
    {
        Trail {
            alloc,
            marks: Vec::new(alloc),
            next: Vec::new(alloc),
            half: 0,
        }
    }

    /// Returns the marks, in order.
    pub fn marks(&self) -> &[Mark]
        ensures { result.now ≡ self.now.marks }
    {
        self.marks.as_slice()
    }

    /// Returns the number of marks.
    pub fn len(&self) -> u64
        ensures { result ≡ length self.now.marks }
    {
        self.marks.len() as u64
    }

    /// Makes room for one more mark. Fails only if out of memory, and changes no mark.
    pub fn ready(&mut self) -> Result<(), AllocError>
        ensures same { self.new.marks ≡ self.old.marks }
        ensures ok { OnOk result (0 < self.new.room) }
    {
        if self.next.capacity() > 0 || self.marks.len() < self.half {
            return Ok(());
        }
        if self.half == 0 {
            self.marks = Vec::with_capacity(self.alloc, FIRST)?;
            self.half = FIRST / 2;
            return Ok(());
        }
        let Some(capacity) = self.marks.capacity().checked_mul(2) else {
            return Err(AllocError);
        };
        self.next = Vec::with_capacity(self.alloc, capacity)?;
        Ok(())
    }

    /// Appends a mark, for which there must be room.
    pub fn push(&mut self, mark: Mark)
        requires { 0 < self.old.room }
        ensures { self.new.marks ≡ self.old.marks ++ mark ∷ [] }
    {
        self.marks.push_reserved(mark);
        if self.next.capacity() == 0 {
            return;
        }
        move_two(self.marks.as_slice(), &mut self.next);
        if self.next.len() == self.marks.len() {
            self.half = self.marks.len();
            self.marks = mem::replace(&mut self.next, Vec::new(self.alloc));
        }
    }
}

// Moves the next two marks.
fn move_two(marks: &[Mark], next: &mut Vec<Mark>)
    requires first { next.old.items ≡ take (vec_len next.old) marks.now }
    requires left { vec_len next.old + 2 ≤ length marks.now }
    requires room { vec_len next.old + 2 ≤ vec_capacity next.old }
    ensures first { next.new.items ≡ take (vec_len next.old + 2) marks.now }
    ensures len { vec_len next.new ≡ vec_len next.old + 2 }
    ensures capacity { vec_capacity next.new ≡ vec_capacity next.old }
{
    let moved = next.len();
    next.push_reserved(marks[moved]);
    next.push_reserved(marks[moved + 1]);
}
