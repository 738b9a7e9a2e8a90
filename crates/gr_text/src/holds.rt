// The bytes that a scanner holds.
ghost use Rattle.std.specs.Prelude.{◌≡◌, ◌<◌, ◌≤◌, ◌+◌, ◌-◌, ◌==◌, ℕ, [], length, take, drop, slice_range, true, false, IsTrue, IfOk, IfErr, OnOk, OnErr};
ghost use Rattle.std.specs.Option.{option_map};
ghost use Rattle.gr_io.specs.Pieces.{ComesOff, IsSpent, Rose};
ghost use Rattle.gr_text.specs.Places.{Place, at_start, taken, known, limit_of, past_spaces, past_rest, past_word, past_token, past_line, with_piece, BeginsLineEnd, BeginsWord, BeginsPastSpaces, Filled};

use crate::runs;
use gr_io::{Source, SourceError};
use std::alloc::{AllocError, Global};
use std::marker::Model;

/// How many bytes find room in the first buffer.
const ROOM: usize = 65536;

/// Bytes that were taken from the source, and the present token among them. A contract sees the place
/// in the text where they stand.
#[derive(Drop)]
pub struct Held {
    bytes: Vec<u8>,
    from: usize,
    to: usize,
    end: usize,
    passed: u64,
    spare: u64,
    /// How many line feeds were passed. The line of the next byte is one more, which behind 2^64 - 1
    /// line feeds is no number of 64 bits: there only the line of the last byte is told.
    lines: u64,
    last: u64,
    first: bool,
    ended: bool,
}

impl Model for Held {
    ghost use Rattle.std.specs.Prelude.{◌≤◌, ◌<◌, ◌+◌, ◌-◌, ◌^◌, ◌≡◌, length, take, drop, true};
    ghost use Rattle.gr_text.specs.Places.{Place};

    ghost Value = { Place };

    ghost view = { λ h. record {
      token = take (h.to - h.from) (drop h.from h.bytes.items);
      ahead = take (h.end - h.to) (drop h.to h.bytes.items);
      passed = h.passed;
      spare = h.spare;
      line = h.lines + 1;
      last = h.last;
      first = h.first;
      ended = h.ended;
    } };

    ghost invariant = { λ h. (h.from ≤ h.to) × (h.to ≤ h.end) × (h.end ≤ length h.bytes.items)
        × (h.lines + (h.to - h.from) ≤ h.passed) × (h.passed + (h.end - h.to) + h.spare < 2 ^ 64)
        × (h.ended ≡ true → 0 < h.spare) };
}

impl Held {
    /// Holds nothing yet, at the front of a text of which at most `max_bytes` bytes may be taken. It
    /// asks for no memory: the first read asks for the buffer.
    pub fn new(alloc: Global, max_bytes: u64) -> Held
        ensures { result ≡ at_start max_bytes }
    {
        Held {
            bytes: Vec::new(alloc),
            from: 0,
            to: 0,
            end: 0,
            passed: 0,
            spare: max_bytes,
            lines: 0,
            last: 1,
            first: true,
            ended: false,
        }
    }

    /// The present token.
    pub(crate) fn token(&self) -> &[u8]
        ensures { result.now ≡ self.now.token }
    {
        &self.bytes[self.from..self.to]
    }

    /// Whether no byte is ahead that was taken and not passed.
    pub(crate) fn is_empty(&self) -> bool
        ensures empty { (result ≡ true) → self.now.ahead ≡ [] }
        ensures some { (result ≡ false) → 0 < length self.now.ahead }
        ensures within { known self.now ≤ limit_of self.now }
    {
        self.to == self.end
    }

    /// Whether no more bytes may be taken.
    pub(crate) fn is_full(&self) -> bool
        ensures full { (result ≡ true) → self.now.spare ≡ 0 }
        ensures room { (result ≡ false) → 0 < self.now.spare }
    {
        self.spare == 0
    }

    /// Whether the source gave its end.
    pub(crate) fn is_ended(&self) -> bool
        ensures ended { result ≡ self.now.ended }
        ensures within { known self.now ≤ limit_of self.now }
    {
        self.ended
    }

    /// The line of the text's end, where the source gave it. One byte more could have been taken
    /// there, so that fewer than 2^64 - 1 line feeds were passed.
    pub(crate) fn line(&self) -> u64
        requires { self.now.ended ≡ true }
        ensures { result ≡ self.now.line }
    {
        self.lines + 1
    }

    /// The line of the last byte that was passed, or 1.
    pub(crate) fn last(&self) -> u64
        ensures { result ≡ self.now.last }
    {
        self.last
    }

    /// Passes the spaces that are ahead.
    pub(crate) fn skip_spaces(&mut self)
        ensures { self.new ≡ past_spaces self.old }
    {
        let count = runs::spaces(&self.bytes[self.to..self.end]);
        self.to += count;
        self.from = self.to;
        self.passed += count as u64;
        if count != 0 {
            self.last = self.lines + 1;
        }
    }

    /// Passes the bytes ahead up to the line's end.
    pub(crate) fn skip_rest(&mut self)
        ensures { self.new ≡ past_rest self.old }
    {
        let count = runs::line(&self.bytes[self.to..self.end]);
        self.to += count;
        self.from = self.to;
        self.passed += count as u64;
        if count != 0 {
            self.last = self.lines + 1;
        }
    }

    /// Passes the bytes ahead that belong to the present token, which has a byte then.
    pub(crate) fn grow_word(&mut self)
        requires { 0 < length (past_word self.old).token }
        ensures { self.new ≡ past_word self.old }
    {
        let count = runs::word(&self.bytes[self.to..self.end]);
        self.to += count;
        self.passed += count as u64;
        self.last = self.lines + 1;
    }

    /// Whether the next byte is a line feed.
    pub(crate) fn is_at_line_end(&self) -> bool
        requires some { 0 < length self.now.ahead }
        requires past { BeginsPastSpaces self.now.ahead }
        ensures yes { IsTrue result → BeginsLineEnd self.now.ahead }
        ensures no { (result ≡ false) → BeginsWord self.now.ahead }
    {
        self.bytes[self.to] == b'\n'
    }

    /// Ends the present token, and answers whether it is its line's first.
    pub(crate) fn end_token(&mut self) -> bool
        requires { 0 < length self.old.token }
        ensures first { result ≡ self.old.first }
        ensures place { self.new ≡ past_token self.old }
    {
        let first = self.first;
        self.first = false;
        self.last = self.lines + 1;
        first
    }

    /// Ends a line, and answers its number.
    pub(crate) fn end_line(&mut self) -> u64
        requires { 0 < length self.old.ahead }
        ensures line { result ≡ self.old.line }
        ensures place { self.new ≡ past_line self.old }
    {
        let line = self.lines + 1;
        self.to += 1;
        self.from = self.to;
        self.passed += 1;
        self.last = line;
        self.lines = line;
        self.first = true;
        line
    }

    /// Takes more bytes from the source.
    pub(crate) fn fill<S: Source>(&mut self, source: &mut S) -> Result<usize, SourceError>
        requires ahead { self.old.ahead ≡ [] }
        requires room { 0 < self.old.spare }
        requires open_ { self.old.ended ≡ false }
        ensures ok { IfOk result (λ n.
            Filled n self.old (S.left source.old) self.new (S.left source.new)) }
        ensures counts { IfOk result (λ n. S.taken source.new ≡ S.taken source.old + n) }
        ensures err { OnErr result ((self.new ≡ self.old) × (S.left source.new ≡ S.left source.old)) }
        ensures none { OnErr result (S.taken source.new ≡ S.taken source.old) }
        ensures fault { IfErr result (λ e. e ≡ SourceError.Fault →
            Rose (S.faults source.old) (S.faults source.new)) }
        ensures calm { OnOk result (S.faults source.new ≡ S.faults source.old) }
        ensures grows { S.faults source.old ≤ S.faults source.new }
    {
        if make_room(&mut self.bytes, self.from, self.to).is_err() {
            return Err(SourceError::OutOfMemory);
        }
        self.to -= self.from;
        self.end = self.to;
        self.from = 0;
        let until = window_end(self.to, self.bytes.len(), self.spare);
        match source.read(&mut self.bytes[self.to..until]) {
            Ok(count) => {
                self.end += count;
                self.spare -= count as u64;
                self.ended = count == 0;
                Ok(count)
            }
            Err(failed) => Err(failed),
        }
    }
}

/// Where the bytes may end that are taken next.
fn window_end(to: usize, len: usize, spare: u64) -> usize
    requires some { 0 < spare }
    requires room { to < len }
    ensures low { to < result }
    ensures high { result ≤ len }
    ensures spare { result - to ≤ spare }
{
    let room = len - to;
    if (room as u64) < spare {
        len
    } else {
        to + spare as usize
    }
}

/// Moves what lies between two places to the front, and makes room behind it.
#[cold]
fn make_room(bytes: &mut Vec<u8>, from: usize, to: usize) -> Result<(), AllocError>
    requires order { from ≤ to }
    requires within { to ≤ length bytes.old.items }
    ensures moved { OnOk result
        (take (to - from) bytes.new.items ≡ take (to - from) (drop from bytes.old.items)) }
    ensures room { OnOk result (to - from < length bytes.new.items) }
    ensures err { OnErr result (bytes.new.items ≡ bytes.old.items) }
{
    if from > 0 {
        bytes.copy_within(from..to, 0);
        return Ok(());
    }
    if to < bytes.len() {
        return Ok(());
    }
    widen(bytes)
}

/// Makes the buffer longer.
#[cold]
fn widen(bytes: &mut Vec<u8>) -> Result<(), AllocError>
    ensures longer { OnOk result (length bytes.old.items < length bytes.new.items) }
    ensures kept { OnOk result (take (length bytes.old.items) bytes.new.items ≡ bytes.old.items) }
    ensures err { OnErr result (bytes.new.items ≡ bytes.old.items) }
{
    let len = bytes.len();
    let more = if len > ROOM { len } else { ROOM };
    bytes.resize(len.saturating_add(more), 0)
}
