//! The items of lists, which stay in the file and are read as they are asked for.

ghost use Rattle.std.specs.Prelude.{◌≡◌, ◌≤◌, ℕ, List, [], ◌∷◌, length, MatchOption};
ghost use Rattle.half_grid.specs.declared.plane.Point.{Point as APoint};
ghost use Rattle.oas_record.specs.Lists.{HasDeltas, HasNumbers};

use crate::delta_form::DeltaForm;
use crate::deltas::delta_at;
use crate::lexical::number_at;
use half_grid::Point;
use std::fmt;
use std::marker::Model;

/// Unsigned numbers one after the other in a file, read as they are asked for. Contracts see the list of them.
#[derive(Drop)]
pub struct Numbers<'f> {
    bytes: &'f [u8],
    at: usize,
    count: u64,
}

impl<'f> Model for Numbers<'f> {
    ghost use Rattle.std.specs.Prelude.{ℕ, List as Items};

    ghost Value = { Items ℕ };

    ghost use Rattle.oas_record.specs.Decoded.{numbers_from, AreNumbers};

    ghost view = { λ numbers. numbers_from numbers.count numbers.bytes.now numbers.at };

    ghost invariant = { λ numbers. (next : ℕ) × AreNumbers numbers.count numbers.bytes.now numbers.at next };
}

impl<'f> Numbers<'f> {
    // So many numbers, which stand from `at` on.
    pub(crate) fn new(bytes: &'f [u8], at: usize, count: u64) -> Numbers<'f>
        requires within { at ≤ length bytes.now }
        requires stand { (ns : List ℕ) × (next : ℕ) × (length ns ≡ count) × HasNumbers bytes.now at ns next }
        ensures { (ns : List ℕ) (next : ℕ) → length ns ≡ count → HasNumbers bytes.now at ns next → result ≡ ns }
    {
        Numbers { bytes, at, count }
    }

    /// How many numbers are left.
    pub fn len(&self) -> u64
        ensures { result ≡ length self.now }
    {
        self.count
    }

    /// The same numbers, to be gone through.
    pub fn items(&self) -> Numbers<'f>
        ensures { result ≡ self.now }
    {
        Numbers {
            bytes: self.bytes,
            at: self.at,
            count: self.count,
        }
    }

    /// Takes the first number off.
    pub fn next(&mut self) -> Option<u64>
        ensures { MatchOption result (self.old ≡ []) (λ n. self.old ≡ n ∷ self.new) }
    {
        if self.count == 0 {
            return None;
        }
        match number_at(self.bytes, self.at) {
            Ok((number, next)) => {
                self.at = next;
                self.count -= 1;
                Some(number)
            }
            // Each number stands there.
            Err(_) => None,
        }
    }
}

impl<'f> fmt::Debug for Numbers<'f> {
    fn fmt<W: fmt::Write>(&self, f: &mut fmt::Formatter<W>) -> fmt::Result {
        write!(f, "List {{ items: [")?;
        let mut rest = self.items();
        let mut is_first = true;
        while let Some(number) = rest.next() {
            if !is_first {
                write!(f, ", ")?;
            }
            write!(f, "{:?}", number)?;
            is_first = false;
        }
        write!(f, "] }}")
    }
}

/// Deltas one after the other in a file, read as they are asked for: moves of a repetition, or those of a point list.
/// Contracts see the list of them.
#[derive(Drop)]
pub struct Moves<'f> {
    bytes: &'f [u8],
    at: usize,
    count: u64,
    // The form of the first.
    form: DeltaForm,
}

impl<'f> Model for Moves<'f> {
    ghost use Rattle.std.specs.Prelude.{ℕ, List as Items};
    ghost use Rattle.half_grid.specs.declared.plane.Point.{Point as APoint};

    ghost Value = { Items APoint };

    ghost use Rattle.oas_record.specs.Decoded.{deltas_from, AreDeltas};

    ghost view = { λ moves. deltas_from moves.form moves.count moves.bytes.now moves.at };

    ghost invariant = { λ moves. (next : ℕ) × AreDeltas moves.form moves.count moves.bytes.now moves.at next };
}

impl<'f> Moves<'f> {
    // So many deltas, the first of this form, which stand from `at` on.
    pub(crate) fn new(bytes: &'f [u8], at: usize, count: u64, form: DeltaForm) -> Moves<'f>
        requires within { at ≤ length bytes.now }
        requires stand { (ps : List APoint) × (next : ℕ) × (length ps ≡ count) × HasDeltas form bytes.now at ps next }
        ensures { (ps : List APoint) (next : ℕ) → length ps ≡ count → HasDeltas form bytes.now at ps next → result ≡ ps }
    {
        Moves {
            bytes,
            at,
            count,
            form,
        }
    }

    /// How many deltas are left.
    pub fn len(&self) -> u64
        ensures { result ≡ length self.now }
    {
        self.count
    }

    /// The same deltas, to be gone through.
    pub fn items(&self) -> Moves<'f>
        ensures { result ≡ self.now }
    {
        Moves {
            bytes: self.bytes,
            at: self.at,
            count: self.count,
            form: self.form,
        }
    }

    /// Takes the first delta off.
    pub fn next(&mut self) -> Option<Point>
        ensures { MatchOption result (self.old ≡ []) (λ p. self.old ≡ p ∷ self.new) }
    {
        if self.count == 0 {
            return None;
        }
        match delta_at(self.bytes, self.at, self.form) {
            Ok((delta, next)) => {
                self.at = next;
                self.count -= 1;
                self.form = self.form.turned();
                Some(delta)
            }
            // Each delta stands there.
            Err(_) => None,
        }
    }
}

impl<'f> fmt::Debug for Moves<'f> {
    fn fmt<W: fmt::Write>(&self, f: &mut fmt::Formatter<W>) -> fmt::Result {
        write!(f, "List {{ items: [")?;
        let mut rest = self.items();
        let mut is_first = true;
        while let Some(delta) = rest.next() {
            if !is_first {
                write!(f, ", ")?;
            }
            write!(f, "{:?}", delta)?;
            is_first = false;
        }
        write!(f, "] }}")
    }
}
