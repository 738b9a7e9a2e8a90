// Sources of bytes.
ghost use Rattle.std.specs.Prelude.{◌≡◌, ◌<◌, ◌≤◌, ◌+◌, ◌++◌, ℕ, List, [], Option, length, take, drop, min, IfOk, IfErr, IsOk, OnOk, OnErr};
ghost use Rattle.gr_io.specs.Pieces.{ComesOff, IsSpent, Rose};

use std::marker::Model;
use thiserror::Error;

/// Why a source gave nothing.
#[derive(Clone, Copy, Debug, Drop, Error, PartialEq, Eq)]
pub enum SourceError {
    #[error("the source failed")]
    Fault,
    #[error("no memory is left")]
    OutOfMemory,
}

/// Gives bytes in pieces.
pub trait Source {
    /// What is still to come, where the source tells it.
    ghost left: { Self → Option (List ℕ) };

    /// How many bytes were taken, by a source that does not tell them too.
    ghost taken: { Self → ℕ };

    /// How many reads failed. The count never falls, and ends at the last value of a `u64`.
    ghost faults: { Self → ℕ };

    /// Moves bytes to the front of the buffer and answers how many; 0 for a buffer that is not
    /// empty is the end. An error takes nothing. Where it succeeds no read failed.
    fn read(&mut self, buf: &mut [u8]) -> Result<usize, SourceError>
        ensures within { IfOk result (λ n. n ≤ length buf.new) }
        ensures ok { IfOk result (λ n. ComesOff (take n buf.new) (left self.old) (left self.new)) }
        ensures end { IfOk result (λ n. n ≡ 0 → 0 < length buf.old → IsSpent (left self.old)) }
        ensures counts { IfOk result (λ n. taken self.new ≡ taken self.old + n) }
        ensures err { OnErr result (left self.new ≡ left self.old) }
        ensures none { OnErr result (taken self.new ≡ taken self.old) }
        ensures fault { IfErr result (λ e. e ≡ SourceError.Fault →
            Rose (faults self.old) (faults self.new)) }
        ensures calm { OnOk result (faults self.new ≡ faults self.old) }
        ensures grows { faults self.old ≤ faults self.new };
}

/// A text of which a part was given. A contract sees the bytes that are left, and how many were taken.
#[derive(Debug, Drop)]
pub struct TextSource {
    text: Vec<u8>,
    at: usize,
}

impl Model for TextSource {
    ghost use Rattle.std.specs.Prelude.{◌≤◌, drop, length};
    ghost use Rattle.gr_io.specs.Memory.{TextLeft};

    ghost Value = { TextLeft };

    ghost view = { λ s. record { left = drop s.at s.text.items; taken = s.at } };

    ghost invariant = { λ s. s.at ≤ length s.text.items };
}

impl TextSource {
    /// A source of this text, which never fails. It asks for no memory.
    pub fn new(text: Vec<u8>) -> TextSource
        ensures { result ≡ record { left = text.items; taken = 0 } }
    {
        TextSource { text, at: 0 }
    }

    /// Moves at most `most` bytes to the front of the buffer.
    pub(crate) fn give(&mut self, most: usize, buf: &mut [u8]) -> usize
        ensures count { result ≡ min most (min (length buf.old) (length self.old.left)) }
        ensures given { take result buf.new ≡ take result self.old.left }
        ensures left { self.new.left ≡ drop result self.old.left }
        ensures taken { self.new.taken ≡ self.old.taken + result }
        ensures within { result ≤ length buf.new }
    {
        let count = most.min(buf.len().min(self.text.len() - self.at));
        let end = self.at + count;
        buf[..count].copy_from_slice(&self.text[self.at..end]);
        self.at = end;
        count
    }
}

impl Source for TextSource {
    ghost use Rattle.std.specs.Prelude.{Some};

    ghost left = { λ s. Some s.left };

    ghost taken = { λ s. s.taken };

    ghost faults = { λ s. 0 };

    fn read(&mut self, buf: &mut [u8]) -> Result<usize, SourceError>
        ensures within { IfOk result (λ n. n ≤ length buf.new) }
        ensures ok { IfOk result (λ n.
            ComesOff (take n buf.new) (Some self.old.left) (Some self.new.left)) }
        ensures counts { IfOk result (λ n. self.new.taken ≡ self.old.taken + n) }
        ensures count { IfOk result (λ n. n ≡ min (length buf.old) (length self.old.left)) }
        ensures succeeds { IsOk result }
    {
        Ok(self.give(usize::MAX, buf))
    }
}
