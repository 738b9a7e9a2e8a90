// A source that never ends, as a device of the system may be.
ghost use Rattle.std.specs.Prelude.{◌≡◌, ◌<◌, ◌≤◌, ◌+◌, ℕ, List, Option, None, length, min, vec_len, IfOk, IsOk};
ghost use Rattle.gr_io.specs.Repeats.{IsFurther, Repeats};

use crate::sources::{Source, SourceError};
use crate::tallies::Tally;
use std::marker::Model;

/// Gives a piece again and again, without end. A contract sees the piece, what is left of the round
/// that it is in, and how many bytes were taken in all.
#[derive(Drop)]
pub struct Repeat {
    piece: Vec<u8>,
    at: usize,
    // No word of memory holds the count of a source without end, so it stands in proofs alone.
    taken: Tally,
}

impl Model for Repeat {
    ghost use Rattle.std.specs.Prelude.{◌<◌, drop, length};
    ghost use Rattle.gr_io.specs.Repeats.{Repeated};

    ghost Value = { Repeated };

    ghost view = { λ s. record {
      piece = s.piece.items;
      rest = drop s.at s.piece.items;
      taken = s.taken.count;
    } };

    ghost invariant = { λ s. s.at < length s.piece.items };
}

impl Repeat {
    /// A source of this piece, over and over. It asks for no memory.
    pub fn new(piece: Vec<u8>) -> Repeat
        requires { 0 < vec_len piece }
        ensures { result ≡ record { piece = piece.items; rest = piece.items; taken = 0 } }
    {
        Repeat {
            piece,
            at: 0,
            taken: Tally::new(),
        }
    }

    /// Goes on by so many bytes of this round, and to the next one at its end.
    fn advance(&mut self, count: usize)
        requires { count ≤ length self.old.rest }
        ensures { IsFurther count self.old self.new }
    {
        self.at += count;
        if self.at == self.piece.len() {
            self.at = 0;
        }
        self.taken = self.taken.plus(&count);
    }
}

impl Source for Repeat {
    ghost left = { λ s. None };

    ghost taken = { λ s. s.taken };

    ghost faults = { λ s. 0 };

    fn read(&mut self, buf: &mut [u8]) -> Result<usize, SourceError>
        ensures within { IfOk result (λ n. n ≤ length buf.new) }
        ensures counts { IfOk result (λ n. self.new.taken ≡ self.old.taken + n) }

        // Beyond what each source ensures: it never fails, and never ends.
        ensures succeeds { IsOk result }
        ensures gives { IfOk result (λ n. 0 < length buf.old → 0 < n) }
        ensures count { IfOk result (λ n. n ≡ min (length buf.old) (length self.old.rest)) }
        ensures repeats { IfOk result (λ n. Repeats n buf.new self.old self.new) }
    {
        let count = buf.len().min(self.piece.len() - self.at);
        let end = self.at + count;
        buf[..count].copy_from_slice(&self.piece[self.at..end]);
        self.advance(count);
        Ok(count)
    }
}

#[cfg(test)]
mod tests {
    use super::*;
    use std::test::Fail;

    #[test]
    fn a_piece_comes_again_from_where_the_last_call_stopped(rt: HostRuntime) -> Result<(), Fail> {
        let mut source = Repeat::new(Vec::from_slice(rt.alloc(), b"abc")?);
        let rows: [(usize, &[u8]); 6] = [
            (2, b"ab"),
            (2, b"c"),
            (0, b""),
            (9, b"abc"),
            (1, b"a"),
            (9, b"bc"),
        ];
        for (room, want) in rows {
            let mut buf = [0u8; 9];
            let count = source.read(&mut buf[..room])?;
            assert_eq!(rt; &buf[..count], want, "room {room}");
        }
        Ok(())
    }
}
