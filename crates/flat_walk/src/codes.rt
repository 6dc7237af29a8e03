//! Numbers in order, nearly all of which take 4 bytes.
ghost use Rattle.std.specs.Prelude.{◌≡◌, ◌≤◌, ◌+◌, [], ◌∷◌, ◌++◌, OnOk, OnErr, MatchOption, Some, length, replicate, slice_get};
ghost use Rattle.std.specs.Vec.{vec_len, vec_capacity};

use geo_stream::NoMemory;
use std::alloc::Global;
use std::marker::Model;

/// Numbers in order. While 32 bits hold them they take 4 bytes each, and 8 from the first one on that takes more. Contracts
/// see the numbers.
#[derive(Drop)]
pub(crate) struct CodeList {
    few: Vec<u32>,
    wide: Vec<usize>,
}

impl Model for CodeList {
    ghost use Rattle.std.specs.Prelude.{List, ℕ, ◌++◌};

    ghost Value = { List ℕ };

    ghost view = { λ codes. codes.few.items ++ codes.wide.items };
}

// The greatest number of 32 bits.
const GREATEST: usize = (1 << 32) - 1;

// Puts the number at the end so many times. There is memory for it.
fn put_each<T: Copy>(codes: &mut Vec<T>, code: T, count: usize)
    requires { vec_len codes.old + count ≤ vec_capacity codes.old }
    ensures { codes.new.items ≡ codes.old.items ++ replicate count code }
{
    for _number in 0..count {
        codes.push_reserved(code);
    }
}

// The number at a place, if there are so many.
#[inline(never)]
fn wide_at(wide: &[usize], number: usize) -> Option<usize>
    ensures { MatchOption result (length wide.now ≤ number) (λ code. slice_get wide.now number ≡ Some code) }
{
    match wide.get(number) {
        Some(code) => Some(*code),
        None => None,
    }
}

impl CodeList {
    /// No numbers. It takes no memory.
    pub(crate) fn new(alloc: Global) -> CodeList
        ensures { result ≡ [] }
    {
        CodeList {
            few: Vec::new(alloc),
            wide: Vec::new(alloc),
        }
    }

    /// How many there are.
    #[inline(always)]
    pub(crate) fn len(&self) -> usize
        ensures { result ≡ length self.now }
    {
        self.few.len() + self.wide.len()
    }

    /// Takes memory for so many more numbers of 32 bits.
    pub(crate) fn reserve(&mut self, count: usize) -> Result<(), NoMemory>
        ensures { self.new ≡ self.old }
    {
        self.few.reserve(count)?;
        Ok(())
    }

    /// Puts a number at the end. Refused, all is as before.
    pub(crate) fn push(&mut self, code: usize) -> Result<(), NoMemory>
        ensures ok { OnOk result (self.new ≡ self.old ++ code ∷ []) }
        ensures err { OnErr result (self.new ≡ self.old) }
    {
        if code <= GREATEST && self.wide.is_empty() {
            self.few.push(code as u32)?;
            return Ok(());
        }
        self.wide.push(code)?;
        Ok(())
    }

    /// Puts a number at the end so many times. Refused, all is as before.
    pub(crate) fn push_each(&mut self, code: usize, count: usize) -> Result<(), NoMemory>
        ensures ok { OnOk result (self.new ≡ self.old ++ replicate count code) }
        ensures err { OnErr result (self.new ≡ self.old) }
    {
        if code <= GREATEST && self.wide.is_empty() {
            self.few.reserve(count)?;
            put_each(&mut self.few, code as u32, count);
            return Ok(());
        }
        self.wide.reserve(count)?;
        put_each(&mut self.wide, code, count);
        Ok(())
    }

    /// The number at a place, if there are so many.
    #[inline(always)]
    pub(crate) fn get(&self, number: usize) -> Option<usize>
        ensures { MatchOption result (length self.now ≤ number) (λ code. slice_get self.now number ≡ Some code) }
    {
        match self.few.get(number) {
            Some(code) => Some(*code as usize),
            None => wide_at(self.wide.as_slice(), number - self.few.len()),
        }
    }
}
