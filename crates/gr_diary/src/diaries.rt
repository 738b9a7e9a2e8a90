// The diary: the exchange's history, packed into bytes.
ghost use Rattle.std.specs.Prelude.{◌≡◌, ◌≤◌, ◌<◌, ◌+◌, ◌*◌, ◌^◌, ◌++◌, ◌∷◌, [], length, drop, slice_get, vec_len, vec_capacity, true, false, Some, IfOk, OnOk, IsTrue, max};
ghost use Rattle.gr_diary.specs.Packing.{packed, number_bytes};
ghost use Rattle.gr_diary.specs.Unpacking.{numbers_in};
ghost use Rattle.gr_diary.specs.Ranges.{IsPacked};
ghost use Rattle.gr_diary.specs.Diaries.{weight};
ghost use Rattle.gr_diary.specs.Keeping.{starts_with};

use crate::entries::Entry;
use crate::line_readers::Lines;
use crate::numbers::put_byte;
use crate::packing::{put_entry, weight};
use crate::reading::Reader;
use gr_logic::{Ids, OutOfMemory};
use std::alloc::Global;
use std::marker::Model;

/// The exchange's history: its entries, and the ids that left at each. They are packed into one vector of bytes, in
/// groups of seven bits (LEB128), so that a long history stays small.
#[derive(Debug, Drop)]
pub struct Diary {
    /// The id of the first addition.
    first: u64,
    /// The number of entries.
    len: u64,
    bytes: Vec<u8>,
    /// Where each 64th entry begins.
    starts: Vec<usize>,
    /// Whether room is kept for one `Close`.
    has_room: bool,
}

impl Model for Diary {
    ghost use Rattle.std.specs.Prelude.{ℕ, ◌≡◌, ◌≤◌, ◌+◌, List, true, vec_len, vec_capacity};
    ghost use Rattle.gr_diary.specs.Unpacking.{numbers_in, entries_in, left_in};
    ghost use Rattle.gr_diary.specs.Keeping.{Keeps, room_for};
    ghost use Rattle.gr_diary.specs.Diaries.{Journal};

    ghost Value = { Journal };

    ghost view = { λ d. record {
      first = d.first;
      spare = room_for (vec_len d.bytes) (vec_capacity d.bytes) (vec_len d.starts) (vec_capacity d.starts);
      has_room = d.has_room;
      entries = entries_in d.len (numbers_in d.bytes.items);
      left = left_in d.len (numbers_in d.bytes.items);
    } };

    ghost invariant = { λ d.
        (1 ≤ d.first) × (d.first ≤ 5_000_001)
        × Keeps (entries_in d.len (numbers_in d.bytes.items)) (left_in d.len (numbers_in d.bytes.items)) d.len
        d.bytes.items d.starts.items
        × (d.has_room ≡ true → (vec_len d.bytes + 2 ≤ vec_capacity d.bytes)
        × (vec_len d.starts + 1 ≤ vec_capacity d.starts)) };
}

impl Diary {
    /// No entries, and room for one `Close`. The first addition gets this id.
    pub fn new(alloc: Global, first_id: u64) -> Result<Diary, OutOfMemory>
        requires low { 1 ≤ first_id }
        requires high { first_id ≤ 5_000_001 }
        ensures first { IfOk result (λ diary. diary.first ≡ first_id) }
        ensures entries { IfOk result (λ diary. diary.entries ≡ []) }
        ensures left { IfOk result (λ diary. diary.left ≡ []) }
        ensures room { IfOk result (λ diary. IsTrue diary.has_room) }
    {
        let bytes = Vec::with_capacity(alloc, 2)?;
        let starts = Vec::with_capacity(alloc, 1)?;
        Ok(Diary {
            first: first_id,
            len: 0,
            bytes,
            starts,
            has_room: true,
        })
    }

    /// A diary with no entries and no room, whose first addition would get the id 1. Takes no memory.
    pub fn empty(alloc: Global) -> Diary
        ensures first { result.first ≡ 1 }
        ensures entries { result.entries ≡ [] }
        ensures left { result.left ≡ [] }
        ensures room { result.has_room ≡ false }
    {
        Diary {
            first: 1,
            len: 0,
            bytes: Vec::new(alloc),
            starts: Vec::new(alloc),
            has_room: false,
        }
    }

    /// Makes room for this entry, where these ids leave at it.
    pub fn reserve(&mut self, entry: &Entry, left: &Ids) -> Result<(), OutOfMemory>
        ensures first { self.new.first ≡ self.old.first }
        ensures entries { self.new.entries ≡ self.old.entries }
        ensures left { self.new.left ≡ self.old.left }
        ensures close { self.new.has_room ≡ self.old.has_room }
        ensures room { OnOk result (weight entry.now left.now ≤ self.new.spare) }
    {
        let weight = weight(entry, left);
        if weight > usize::MAX / 16 {
            return Err(OutOfMemory);
        }
        // Each number takes ten bytes at most, and `Close` takes two.
        grow(&mut self.bytes, 10 * weight + 2)?;
        self.starts.reserve(2)?;
        Ok(())
    }

    /// Appends an entry at which these ids left. The room for `Close` stays. Takes no memory.
    pub fn push(&mut self, entry: Entry, left: Ids)
        requires { weight entry left ≤ self.old.spare }
        ensures first { self.new.first ≡ self.old.first }
        ensures entries { self.new.entries ≡ self.old.entries ++ entry ∷ [] }
        ensures left { self.new.left ≡ self.old.left ++ left ∷ [] }
        ensures close { self.new.has_room ≡ self.old.has_room }
    {
        put_start(&mut self.starts, self.len, self.bytes.len());
        put_entry(&mut self.bytes, &entry, &left);
        self.len += 1;
    }

    /// Appends `Close`, at which no id leaves, in the room that is kept for it. Takes no memory.
    pub fn push_close(&mut self)
        requires { IsTrue self.old.has_room }
        ensures first { self.new.first ≡ self.old.first }
        ensures entries { self.new.entries ≡ self.old.entries ++ Entry.Close ∷ [] }
        ensures left { self.new.left ≡ self.old.left ++ [] ∷ [] }
        ensures close { self.new.has_room ≡ false }
    {
        put_start(&mut self.starts, self.len, self.bytes.len());
        // The kind, and that no id left: two bytes, which is all the room there may be.
        put_byte(&mut self.bytes, 9);
        put_byte(&mut self.bytes, 0);
        self.len += 1;
        self.has_room = false;
    }

    /// The number of entries. Takes no memory.
    pub fn len(&self) -> u64
        ensures len { result ≡ length self.now.entries }
        ensures left { length self.now.left ≡ length self.now.entries }
        ensures few { length self.now.entries < 2 ^ 62 }
    {
        self.len
    }

    /// The entry at an index.
    pub fn get(&self, index: u64) -> Result<Entry, OutOfMemory>
        requires { index < length self.now.entries }
        ensures { IfOk result (λ entry. slice_get self.now.entries index ≡ Some entry) }
    {
        let start = self.starts[(index / 64) as usize];
        let mut reader = reader_at(self.bytes.as_slice(), start);
        for _passed in 0..index % 64 {
            reader.skip_entry();
        }
        let noted = reader.entry(*self.bytes.allocator())?;
        Ok(noted.entry)
    }

    /// The history's lines, from the first on. Takes no memory.
    pub fn lines(&self) -> Lines<'_>
        ensures { result ≡ record {
          next_id = self.now.first;
          pending = [];
          entries = self.now.entries;
          left =
              self.now.left;
        } }
    {
        Lines::new(
            *self.bytes.allocator(),
            Reader::new(self.bytes.as_slice()),
            self.len,
            self.first,
        )
    }

    /// The history as bytes. Takes no memory.
    pub fn packed(&self) -> &[u8]
        ensures { result.now ≡ packed self.now.entries self.now.left }
    {
        self.bytes.as_slice()
    }
}

/// A reader of the bytes from a start on.
fn reader_at(bytes: &[u8], start: usize) -> Reader<'_>
    requires within { start ≤ length bytes.now }
    requires is_packed { IsPacked (drop start bytes.now) }
    ensures { result ≡ numbers_in (drop start bytes.now) }
{
    Reader::new(&bytes[start..])
}

/// Makes room for so many more bytes, and for a quarter of what is there where memory is to be moved: a long history
/// then takes little more than it needs.
fn grow(bytes: &mut Vec<u8>, room: usize) -> Result<(), OutOfMemory>
    ensures items { bytes.new.items ≡ bytes.old.items }
    ensures room { OnOk result (vec_len bytes.new + room ≤ vec_capacity bytes.new) }
    ensures capacity { vec_capacity bytes.old ≤ vec_capacity bytes.new }
{
    if room > bytes.capacity() - bytes.len() {
        bytes.reserve_exact(room.max(bytes.len() / 4))?;
    }
    Ok(())
}

/// Notes where the entry of this index begins, if it is a 64th one. Takes no memory.
fn put_start(starts: &mut Vec<usize>, index: u64, start: usize)
    requires { vec_len starts.old + 1 ≤ vec_capacity starts.old }
    ensures items { starts.new.items ≡ starts_with starts.old.items index start }
    ensures len { vec_len starts.new ≤ vec_len starts.old + 1 }
    ensures capacity { vec_capacity starts.old ≤ vec_capacity starts.new }
{
    if index % 64 == 0 {
        match starts.push(start) {
            Ok(()) => {}
            Err(_) => prove!(false),
        }
    }
}
