//! What a depot in memory has: the files to be read, the files that are made, and what was said.
ghost use Rattle.std.specs.Prelude.{◌≡◌, ◌≤◌, [], ◌++◌, None, IsSome, OnOk, OnErr, length, take, drop, min, is_some, unwrap_or};
ghost use Rattle.std.specs.Option.{option_copied};
ghost use Rattle.std.specs.FinMap.{get};
ghost use Rattle.depot.specs.Content.{nothing, with_held, with_left, TakesFirst, begun, with_current, with_written, with_said};

use crate::filing::{File, append, bytes_of, place, put, rest};
use geo_stream::NoMemory;
use std::alloc::Global;
use std::marker::Model;

#[derive(Drop)]
pub(crate) struct Store {
    alloc: Global,
    held: Vec<File>,
    // the place of the file that is read, and how many of its bytes were given
    reading: Option<usize>,
    given: usize,
    made: Vec<File>,
    // the place of the file that is written
    writing: Option<usize>,
    said: Vec<u8>,
}

impl Model for Store {
    ghost use Rattle.depot.specs.Content.{Content, content_code};

    ghost Value = { Content };

    ghost coded = { content_code };

    ghost use Rattle.depot.specs.StoreView.{store_content, IsSound};

    ghost view = { store_content };

    ghost invariant = { IsSound };
}

impl Store {
    pub(crate) fn new(alloc: Global) -> Store
        ensures { result ≡ nothing }
    {
        Store {
            alloc,
            held: Vec::new(alloc),
            reading: None,
            given: 0,
            made: Vec::new(alloc),
            writing: None,
            said: Vec::new(alloc),
        }
    }

    pub(crate) fn add(&mut self, name: &str, bytes: &[u8]) -> Result<(), NoMemory>
        ensures ok { OnOk result (self.new ≡ with_held self.old name.now bytes.now) }
        ensures refused { OnErr result (self.new ≡ self.old) }
    {
        let bytes = Vec::from_slice(self.alloc, bytes)?;
        put(self.alloc, &mut self.held, name, bytes)?;
        self.reading = None;
        Ok(())
    }

    // Starts to read a file, and answers whether it is there.
    pub(crate) fn start_read(&mut self, name: &str) -> bool
        ensures there { result ≡ is_some (get self.old.held name.now) }
        ensures after { self.new ≡ with_left self.old (unwrap_or (get self.old.held name.now) []) }
    {
        self.reading = place(&self.held, name);
        self.given = 0;
        self.reading.is_some()
    }

    pub(crate) fn stop_read(&mut self)
        ensures { self.new ≡ with_left self.old [] }
    {
        self.reading = None;
    }

    // Gives as many bytes as the buffer, the file and `most` allow.
    pub(crate) fn read(&mut self, buf: &mut [u8], most: usize) -> usize
        ensures count { result ≡ min (min (length self.old.left) (length buf.old)) most }
        ensures given { TakesFirst self.old result buf.old buf.new self.new }
    {
        let Some(at) = self.reading else {
            return 0;
        };
        let count = give(rest(&self.held, at, self.given), buf, most);
        self.given += count;
        count
    }

    pub(crate) fn start_write(&mut self, name: &str) -> Result<(), NoMemory>
        ensures ok { OnOk result (self.new ≡ begun self.old name.now) }
        ensures refused { OnErr result (self.new ≡ with_current self.old None) }
    {
        self.writing = None;
        let at = put(self.alloc, &mut self.made, name, Vec::new(self.alloc))?;
        self.writing = Some(at);
        Ok(())
    }

    pub(crate) fn stop_write(&mut self)
        ensures { self.new ≡ with_current self.old None }
    {
        self.writing = None;
    }

    pub(crate) fn write(&mut self, piece: &[u8]) -> Result<(), NoMemory>
        requires { IsSome self.old.current }
        ensures ok { OnOk result (self.new ≡ with_written self.old piece.now) }
        ensures refused { OnErr result (self.new ≡ self.old) }
    {
        match self.writing {
            Some(at) => append(&mut self.made, at, piece),
            None => unreachable!(),
        }
    }

    pub(crate) fn say(&mut self, piece: &[u8]) -> Result<(), NoMemory>
        ensures ok { OnOk result (self.new ≡ with_said self.old piece.now) }
        ensures refused { OnErr result (self.new ≡ self.old) }
    {
        self.said.extend_from_slice(piece)?;
        Ok(())
    }

    pub(crate) fn made(&self, name: &str) -> Option<&[u8]>
        ensures { option_copied result ≡ get self.now.made name.now }
    {
        let at = place(&self.made, name)?;
        Some(bytes_of(&self.made, at))
    }

    pub(crate) fn said(&self) -> &[u8]
        ensures { result.now ≡ self.now.said }
    {
        &self.said
    }
}

// Puts as many bytes as both have and `most` allows first in a buffer.
fn give(left: &[u8], buf: &mut [u8], most: usize) -> usize
    ensures count { result ≡ min (min (length left.now) (length buf.old)) most }
    ensures given { buf.new ≡ take result left.now ++ drop result buf.old }
{
    let count = left.len().min(buf.len()).min(most);
    buf[..count].copy_from_slice(&left[..count]);
    count
}
