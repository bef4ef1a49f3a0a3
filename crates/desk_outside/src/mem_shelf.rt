// A shelf in memory.
ghost use Rattle.std.specs.Prelude.{◌≡◌, ◌⊎◌, ◌<◌, ◌≤◌, ◌+◌, ◌^◌, ◌↔◌, ◌++◌, ◌∷◌, [], Some, None, true, drop, take, min, length, is_some, IsTrue, IsErr, IfOk, IfSome, OnOk, OnErr, MatchOption, option_map, slice_get};
ghost use Rattle.std.specs.Io.{ReadsAtMost};
ghost use Rattle.std.specs.Io.KnownBytes.{prepend_known, IsAtEnd};
ghost use Rattle.desk_outside.specs.Outside.{Rose, HasCause};
ghost use Rattle.desk_outside.specs.Calls.{Opening, Reading, read_of};
ghost use Rattle.desk_outside.specs.InMemory.{no_calls, is_listed, after_call, entries_of, held_in};

use crate::calls::Calls;
use crate::give::give;
use crate::log::ShelfLog;
use crate::logging::{add_opening, add_reading};
use crate::{Failed, Shelf};
use std::marker::Model;

// The open file's place among the files, and how many of its bytes were read.
#[derive(Clone, Copy)]
struct OpenFile {
    file: usize,
    at: usize,
}

/// A shelf of given files, some of whose calls fail.
#[derive(Drop)]
pub struct MemShelf {
    files: Vec<(String, Vec<u8>)>,
    open_file: Option<OpenFile>,
    calls: Calls,
    made: ShelfLog,
}

impl Model for MemShelf {
    ghost use Rattle.std.specs.Prelude.{drop, option_map, option_and_then, slice_get};
    ghost use Rattle.desk_outside.specs.InMemory.{MemoryShelf, entries_of};
    ghost use Rattle.desk_outside.specs.Calls.{shelf_calls};

    ghost Value = { MemoryShelf };

    ghost view = { λ s. record {
      entries = entries_of s.files.items;
      rest = option_and_then (λ r. option_map (λ e. drop r.at e.1) (slice_get (entries_of s.files.items) r.file)) s.open_file;
      calls = s.calls;
      made = shelf_calls s.made;
    } };
}

impl MemShelf {
    /// A shelf of these files by name. Of two entries with one name the first counts. Its calls are numbered from 0,
    /// `open` and `read` together, and those in `failing` fail.
    pub fn new(files: Vec<(String, Vec<u8>)>, failing: Vec<u64>) -> MemShelf
        ensures entries { result.entries ≡ entries_of files.items }
        ensures closed { result.rest ≡ None }
        ensures calls { result.calls ≡ no_calls failing.items }
        ensures made { result.made ≡ [] }
    {
        MemShelf {
            files,
            open_file: None,
            calls: Calls::new(failing),
            made: ShelfLog::Start,
        }
    }
}

// The first file of this name.
fn place_of(files: &[(String, Vec<u8>)], name: &str) -> Option<usize>
    ensures { MatchOption result (held_in (entries_of files.now) name.now ≡ None) (λ i.
        (i < length files.now)
        × (held_in (entries_of files.now) name.now
        ≡ option_map (λ e. e.1) (slice_get (entries_of files.now) i))) }
{
    for (i, file) in files.iter().enumerate() {
        if file.0.as_str() == name {
            return Some(i);
        }
    }
    None
}

// What is left of a file from a place on.
fn left_of(files: &[(String, Vec<u8>)], place: usize, at: usize) -> &[u8]
    requires { place < length files.now }
    ensures left { option_map (λ e. drop at e.1) (slice_get (entries_of files.now) place) ≡
        Some result.now }
    ensures fits { at + length result.now < 2 ^ 64 }
{
    let bytes = files[place].1.as_slice();
    if at < bytes.len() { &bytes[at..] } else { &[] }
}

impl Shelf for MemShelf {
    ghost state = { λ s. record {
      files = Some (held_in s.entries);
      rest = s.rest;
      is_open = is_some s.rest;
      faults = s.calls.faults;
      calls = s.made;
    } };

    /// Fails exactly at a listed call, which is counted, and at a name that is not held, which alone is not.
    fn open(&mut self, name: &str) -> Result<(), Failed>
        ensures open { OnOk result (is_some self.new.rest ≡ true) }
        ensures later { self.old.calls.faults ≤ self.new.calls.faults }
        ensures cause { OnErr result (Rose self.old.calls.faults self.new.calls.faults
            ⊎ (held_in self.old.entries name.now ≡ None)) }
        ensures fails { IsErr result ↔ (IsTrue (is_listed self.old.calls)
            ⊎ (held_in self.old.entries name.now ≡ None)) }
        ensures rest { OnOk result (self.new.rest ≡ held_in self.old.entries name.now) }
        ensures entries { self.new.entries ≡ self.old.entries }
        ensures made { self.new.made ≡ self.old.made ++ Opening name.now ∷ [] }
        ensures calls { self.new.calls ≡ after_call self.old.calls (is_listed self.old.calls) }
    {
        add_opening(&mut self.made, name);
        let fails = self.calls.is_listed();
        self.calls.make(fails);
        if fails {
            return Err(Failed);
        }
        match place_of(&self.files, name) {
            Some(file) => {
                self.open_file = Some(OpenFile { file, at: 0 });
                Ok(())
            }
            None => Err(Failed),
        }
    }

    /// Fails exactly at a listed call, and else gives as much of the open file as the room takes.
    fn read(&mut self, room: &mut [u8]) -> Result<usize, Failed>
        requires open { is_some self.old.rest ≡ true }
        requires room { 0 < length room.old }
        ensures open { OnOk result (is_some self.new.rest ≡ true) }
        ensures bound { ReadsAtMost result room.new }
        ensures bytes { IfOk result (λ n. self.old.rest ≡
            prepend_known (take n room.new) self.new.rest) }
        ensures end { IfOk result (λ n. n ≡ 0 → IsAtEnd self.new.rest) }
        ensures cause { HasCause self.old.calls.faults self.new.calls.faults result }
        ensures fails { IsErr result ↔ IsTrue (is_listed self.old.calls) }
        ensures count { IfOk result (λ n.
            IfSome self.old.rest (λ rest. n ≡ min (length rest) (length room.old))) }
        ensures entries { self.new.entries ≡ self.old.entries }
        ensures made { self.new.made ≡ self.old.made ++ Reading (read_of result) ∷ [] }
        ensures calls { self.new.calls ≡ after_call self.old.calls (is_listed self.old.calls) }
    {
        let fails = self.calls.is_listed();
        self.calls.make(fails);
        let answer = match self.open_file {
            _ if fails => Err(Failed),
            Some(OpenFile { file, at }) => {
                let left = left_of(&self.files, file, at);
                let count = give(left, left.len(), room);
                let at = at + count;
                self.open_file = Some(OpenFile { file, at });
                Ok(count)
            }
            None => unreachable!(),
        };
        add_reading(&mut self.made, &answer);
        answer
    }
}
