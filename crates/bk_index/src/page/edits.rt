//! Changes to a page.

ghost use Rattle.std.specs.Prelude.{◌≡◌, ◌↔◌, ◌<◌, ◌≤◌, ◌+◌, ◌*◌, ◌^◌, ◌++◌, length, not, ◌==◌, filter, Some, None, IsTrue, IsSome, IfSome, IfNone, IfOk, OnOk, OnErr};
ghost use Rattle.std.specs.Bool.{OnTrue, OnFalse};
ghost use Rattle.std.specs.List.{AllByRecursion};
ghost use Rattle.std.specs.declared.cmp.Ordering.TheVariants.{Less};
ghost use Rattle.std.specs.FinMap.{find, put};
ghost use Rattle.bk_record.specs.Key.{key_cmp};
ghost use Rattle.bk_index.specs.Sorted.{IsAt, IsGapFor};
ghost use Rattle.bk_index.specs.Pages.{first_key};
ghost use Rattle.bk_index.specs.Forms.{form_pairs};
ghost use Rattle.bk_index.specs.Runs.{pairs_of_run};

use super::halves::{LOWER, MOST};
use super::packed::Packed;
use super::plain::Plain;
use super::{Form, Page};
use bk_record::{Key, Location};
use std::alloc::{AllocError, Global};

impl Page {
    /// Sets the location of the key at a place and returns the one before.
    pub(crate) fn replace(&mut self, place: usize, key: Key, to: Location) -> Location
        requires { IsAt self.old key place }
        ensures replaced { self.new ≡ put key_cmp key to self.old }
        ensures len { length self.new ≡ length self.old }
        ensures first { first_key self.new ≡ first_key self.old }
        ensures before { find key_cmp key self.old ≡ Some result }
    {
        match &mut *self.form {
            Form::Packed(packed) => packed.replace(place, key, to),
            Form::Plain(plain) => plain.replace(place, key, to),
        }
    }

    /// Changes the location of a key if it is `from`, and returns whether it was; then sets `near` to
    /// the place after the key.
    pub(crate) fn replace_if(
        &mut self,
        key: &Key,
        from: Location,
        to: Location,
        near: &mut usize,
    ) -> bool
        ensures condition { IsTrue result ↔ (find key_cmp key.now self.old ≡ Some from) }
        ensures replaced { OnTrue result (self.new ≡ put key_cmp key.now to self.old) }
        ensures len { length self.new ≡ length self.old }
        ensures first { first_key self.new ≡ first_key self.old }
        ensures unchanged { OnFalse result (self.new ≡ self.old) }
    {
        match self.place_of(key) {
            Ok(place) if self.location(place) == from => {
                self.replace(place, *key, to);
                *near = place + 1;
                true
            }
            _ => false,
        }
    }

    /// Same as `replace_if` for a key at this place; `None` if the key is not there.
    #[inline]
    pub(crate) fn replace_at(
        &mut self,
        place: usize,
        key: &Key,
        from: Location,
        to: Location,
    ) -> Option<bool>
        ensures here { IsSome result → IsAt self.old key.now place }
        ensures condition { IfSome result (λ moved. IsTrue moved ↔ (find key_cmp key.now self.old ≡ Some from)) }
        ensures replaced { IfSome result (λ moved. OnTrue moved (self.new ≡ put key_cmp key.now to self.old)) }
        ensures unchanged { IfSome result (λ moved. OnFalse moved (self.new ≡ self.old)) }
        ensures none { IfNone result (self.new ≡ self.old) }
        ensures len { length self.new ≡ length self.old }
        ensures first { first_key self.new ≡ first_key self.old }
        ensures next { IsSome result → place + 1 < 2 ^ 64 }
    {
        if !self.has_at(key, place) {
            return None;
        }
        if self.location(place) != from {
            return Some(false);
        }
        self.replace(place, *key, to);
        Some(true)
    }

    /// Adds a key after all others, and returns whether it did: if the page is packed and not full,
    /// and the key fits it and is after all others. Otherwise nothing changes. If an allocation
    /// fails, the page is unchanged.
    #[inline]
    pub(crate) fn push(&mut self, key: &Key, location: Location) -> Result<bool, AllocError>
        ensures pushed { IfOk result (λ pushed. OnTrue pushed (self.new ≡ put key_cmp key.now location self.old)) }
        ensures absent { IfOk result (λ pushed. OnTrue pushed (find key_cmp key.now self.old ≡ None)) }
        ensures failed { OnErr result (find key_cmp key.now self.old ≡ None) }
        ensures room { IfOk result (λ pushed. OnTrue pushed (length self.old < 256)) }
        ensures len { IfOk result (λ pushed. OnTrue pushed (length self.new ≡ length self.old + 1)) }
        ensures first { IfOk result (λ pushed. OnTrue pushed (first_key self.new ≡ first_key self.old)) }
        ensures unchanged { IfOk result (λ pushed. OnFalse pushed (self.new ≡ self.old)) }
        ensures err { OnErr result (self.new ≡ self.old) }
    {
        match &mut *self.form {
            Form::Packed(packed) => packed.push(key, location),
            Form::Plain(_) => Ok(false),
        }
    }

    /// Returns a page of the first keys of a run, at least one, with room for 256, and their number:
    /// as many as fit a packed page.
    pub(crate) fn of_run(
        alloc: Global,
        key: &Key,
        place: Location,
        size: u32,
        count: u32,
    ) -> Result<(Page, u32), AllocError>
        requires some { 0 < count }
        requires places { place.at + count * size < 2 ^ 32 + size }
        ensures pairs { IfOk result (λ made. made.0 ≡ pairs_of_run key.now place size made.1) }
        ensures some { IfOk result (λ made. 0 < made.1) }
        ensures bound { IfOk result (λ made. made.1 ≤ count) }
        ensures room { IfOk result (λ made. made.1 ≤ 256) }
    {
        let (packed, number) = Packed::of_run(alloc, key, place, size, count)?;
        let page = Page::of_form(alloc, Form::Packed(packed))?;
        Ok((page, number))
    }

    /// Adds the first keys of a run after all others, and returns their number: 0 for a plain page.
    /// Otherwise as many as fit, or none if the key does not fit or is not after all others. If an
    /// allocation fails, the page is unchanged.
    pub(crate) fn push_run(
        &mut self,
        key: &Key,
        place: Location,
        size: u32,
        count: u32,
    ) -> Result<u32, AllocError>
        requires { place.at + count * size < 2 ^ 32 + size }
        ensures pushed { IfOk result (λ n. self.new ≡ self.old ++ pairs_of_run key.now place size n) }
        ensures behind { IfOk result (λ n. 0 < n → AllByRecursion (λ pair. key_cmp pair.0 key.now ≡ Less) self.old) }
        ensures bound { IfOk result (λ n. n ≤ count) }
        ensures room { IfOk result (λ n. length self.old ≤ 256 → length self.new ≤ 256) }
        ensures first { IfOk result (λ n. first_key self.new ≡ first_key self.old) }
        ensures err { OnErr result (self.new ≡ self.old) }
    {
        match &mut *self.form {
            Form::Packed(packed) => packed.push_run(key, place, size, count),
            Form::Plain(_) => Ok(0),
        }
    }

    /// Inserts a new key at its place. If an allocation fails, the page is unchanged.
    pub(crate) fn insert(
        &mut self,
        place: usize,
        key: Key,
        location: Location,
    ) -> Result<(), AllocError>
        requires { IsGapFor self.old key place }
        ensures ok { OnOk result (self.new ≡ put key_cmp key location self.old) }
        ensures len { OnOk result (length self.new ≡ length self.old + 1) }
        ensures err { OnErr result (self.new ≡ self.old) }
    {
        match &mut *self.form {
            Form::Packed(packed) => {
                if packed.insert(place, &key, location)? {
                    return Ok(());
                }
                let mut plain = packed.unpacked()?;
                plain.insert(place, key, location)?;
                *self.form = Form::Plain(plain);
                Ok(())
            }
            Form::Plain(plain) => plain.insert(place, key, location),
        }
    }

    /// Inserts a new key at its place in a full page and splits the page: the first 128 pairs stay,
    /// the other 129 are returned. If an allocation fails, the page is unchanged.
    pub(crate) fn split(
        &mut self,
        alloc: Global,
        place: usize,
        key: Key,
        location: Location,
    ) -> Result<Page, AllocError>
        requires gap { IsGapFor self.old key place }
        requires full { length self.old ≡ 256 }
        ensures ok { IfOk result (λ behind. self.new ++ behind ≡ put key_cmp key location self.old) }
        ensures stay { OnOk result (length self.new ≡ 128) }
        ensures behind { IfOk result (λ behind. length behind ≡ 129) }
        ensures err { OnErr result (self.new ≡ self.old) }
    {
        let (lower, upper) = self.halves(place, key, location)?;
        let behind = Page::of_form(alloc, upper)?;
        *self.form = lower;
        Ok(behind)
    }

    /// Returns a page of this form.
    pub(super) fn of_form(alloc: Global, form: Form) -> Result<Page, AllocError>
        ensures { IfOk result (λ page. page ≡ form_pairs form) }
    {
        let form = Box::new(alloc, form)?;
        Ok(Page { form })
    }

    // Returns the two halves of a full page with a new key.
    fn halves(&self, place: usize, key: Key, location: Location) -> Result<(Form, Form), AllocError>
        requires gap { IsGapFor self.now key place }
        requires full { length self.now ≡ 256 }
        ensures ok { IfOk result (λ parts. form_pairs parts.0 ++ form_pairs parts.1 ≡ put key_cmp key location self.now) }
        ensures stay { IfOk result (λ parts. length (form_pairs parts.0) ≡ 128) }
        ensures behind { IfOk result (λ parts. length (form_pairs parts.1) ≡ 129) }
    {
        let (lower, upper) = match &*self.form {
            Form::Packed(packed) => {
                if let Some((lower, upper)) = packed.halves(place, &key, location)? {
                    return Ok((Form::Packed(lower), Form::Packed(upper)));
                }
                packed.unpacked()?.halves(place, key, location)?
            }
            Form::Plain(plain) => plain.halves(place, key, location)?,
        };
        Ok((settled(lower, LOWER)?, settled(upper, MOST)?))
    }

    /// Removes the keys of a ledger and returns their number.
    pub(crate) fn drop_ledger(&mut self, ledger: u64) -> usize
        ensures left { self.new ≡ filter (λ pair. not (pair.0.ledger == ledger)) self.old }
        ensures count { length self.new + result ≡ length self.old }
    {
        match &mut *self.form {
            Form::Packed(packed) => packed.drop_ledger(ledger),
            Form::Plain(plain) => plain.drop_ledger(ledger),
        }
    }
}

// Returns the form of a page in plain form: packed if it can be.
fn settled(plain: Plain, room: usize) -> Result<Form, AllocError>
    ensures { IfOk result (λ form. form_pairs form ≡ plain) }
{
    match plain.packed(room)? {
        Some(packed) => Ok(Form::Packed(packed)),
        None => Ok(Form::Plain(plain)),
    }
}
