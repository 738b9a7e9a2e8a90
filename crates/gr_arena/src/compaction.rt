// The blocks that were not removed, moved together.
ghost use Rattle.std.specs.Prelude.{◌≡◌, ◌≤◌, [], length};
ghost use Rattle.std.specs.Vec.{vec_capacity};
ghost use Rattle.gr_arena.specs.Blocks.{Laid, blocks_in, flat, live, forwarded};

use crate::blocks::{is_live, set_id, size_at};
use gr_logic::Word;

/// How many words the clauses take that were not removed.
pub(crate) fn live_words(words: &[Word]) -> usize
    requires { Laid words.now }
    ensures { result ≡ length (flat (live (blocks_in words.now))) }
{
    let mut place = 0;
    let mut count = 0;
    while place < words.len() {
        let next = place + size_at(words, place);
        if is_live(words, place) {
            count += next - place;
        }
        place = next;
    }
    count
}

/// Copies each clause that was not removed, and writes over its id where the copy is.
pub(crate) fn relocate(words: &mut [Word], kept: &mut Vec<Word>)
    requires laid { Laid words.old }
    requires empty { kept.old.items ≡ [] }
    requires room { length (flat (live (blocks_in words.old))) ≤ vec_capacity kept.old }
    ensures words { words.new ≡ flat (forwarded 0 (blocks_in words.old)) }
    ensures kept { kept.new.items ≡ flat (live (blocks_in words.old)) }
{
    let mut place = 0;
    while place < words.len() {
        let next = place + size_at(words, place);
        if is_live(words, place) {
            let to = kept.len();
            kept.extend_from_slice(&words[place..next]).unwrap();
            set_id(words, place, to);
        }
        place = next;
    }
}
