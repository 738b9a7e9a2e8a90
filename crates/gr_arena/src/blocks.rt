// Clauses as blocks of words.
ghost use Rattle.std.specs.Prelude.{true, ◌≡◌, ◌≤◌, ◌<◌, ◌+◌, ◌/◌, ◌%◌, ◌++◌, length, OnOk, OnErr, map, All, slice_set, nat_lt};
ghost use Rattle.std.specs.List.{swap};
ghost use Rattle.gr_logic.specs.Words.{literal_in, IsCode, IsNumbered};
ghost use Rattle.gr_arena.specs.Blocks.{Block, words_of, word, bits_at, body_at, count_in};

use gr_logic::{Lit, OutOfMemory, Word, as_lits, as_words};

/// The top bit of the word that counts the literals tells that the clause was removed.
pub(crate) const REMOVED: u32 = 2_147_483_648;

/// The word so far behind a place.
pub(crate) fn bits(words: &[Word], place: usize, k: usize) -> u32
    requires { place + k < length words.now }
    ensures { result ≡ bits_at words.now (place + k) }
{
    words[place + k].bits
}

/// The literals of the clause at a place.
pub(crate) fn body(words: &[Word], place: usize) -> &[Lit]
    requires head { place + 4 ≤ length words.now }
    requires room { place + 4 + bits_at words.now (place + 3) ≤ length words.now }
    requires codes { All IsCode (body_at words.now place) }
    ensures { result.now ≡ map literal_in (body_at words.now place) }
{
    let count = words[place + 3].bits as usize;
    as_lits(&words[place + 4..place + 4 + count])
}

/// Exchanges two literals of the clause at a place.
pub(crate) fn swap_in(words: &mut [Word], place: usize, i: usize, j: usize)
    requires first { place + 4 + i < length words.old }
    requires second { place + 4 + j < length words.old }
    ensures { words.new ≡ swap words.old (place + 4 + i) (place + 4 + j) }
{
    // Plain writes: a swap of the slice would test whether the indices are apart.
    let first = words[place + 4 + i];
    words[place + 4 + i] = words[place + 4 + j];
    words[place + 4 + j] = first;
}

/// Marks the clause at a place as removed.
pub(crate) fn mark(words: &mut [Word], place: usize)
    requires room { place + 3 < length words.old }
    requires live { bits_at words.old (place + 3) < 2_147_483_648 }
    ensures { words.new ≡ slice_set words.old (place + 3) (word (bits_at words.old (place + 3) + 2_147_483_648)) }
{
    let count = words[place + 3].bits;
    words[place + 3] = Word {
        bits: count + REMOVED,
    };
}

/// Whether the clause at a place was not removed.
pub(crate) fn is_live(words: &[Word], place: usize) -> bool
    requires { place + 3 < length words.now }
    ensures { result ≡ nat_lt (bits_at words.now (place + 3)) 2_147_483_648 }
{
    words[place + 3].bits < REMOVED
}

/// How many words the clause at a place takes, also where it was removed.
pub(crate) fn size_at(words: &[Word], place: usize) -> usize
    requires { place + 3 < length words.now }
    ensures { result ≡ 4 + count_in (bits_at words.now (place + 3)) }
{
    let count = words[place + 3].bits;
    4 + (if count < REMOVED {
        count
    } else {
        count - REMOVED
    }) as usize
}

/// Puts another number in the place of the id.
pub(crate) fn set_id(words: &mut [Word], place: usize, id: usize)
    requires { place + 1 < length words.old }
    ensures { words.new
        ≡ slice_set (slice_set words.old place (word (id % 4_294_967_296))) (place + 1)
        (word (id / 4_294_967_296)) }
{
    words[place] = Word {
        bits: (id % 4_294_967_296) as u32,
    };
    words[place + 1] = Word {
        bits: (id / 4_294_967_296) as u32,
    };
}

/// Appends the words of a clause.
pub(crate) fn append(
    words: &mut Vec<Word>,
    id: u64,
    lbd: u32,
    lits: &[Lit],
) -> Result<(), OutOfMemory>
    requires { length lits.now < 2_147_483_648 }
    ensures ok { OnOk result (words.new.items
        ≡ words.old.items
        ++ words_of (record { live = true; stored = record { id = id; lbd = lbd; lits = lits.now } })) }
    ensures within { OnOk result (All IsNumbered lits.now) }
    ensures err { OnErr result (words.new.items ≡ words.old.items) }
{
    let tail = as_words(lits);
    words.reserve(tail.len() + 4)?;
    let head = [
        Word {
            bits: (id % 4_294_967_296) as u32,
        },
        Word {
            bits: (id / 4_294_967_296) as u32,
        },
        Word { bits: lbd },
        Word {
            bits: tail.len() as u32,
        },
    ];
    words.extend_from_slice(&head)?;
    words.extend_from_slice(tail)?;
    Ok(())
}
