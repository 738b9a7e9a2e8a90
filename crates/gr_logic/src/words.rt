// Words that may be read as literals.
ghost use Rattle.std.specs.Prelude.{◌≡◌, All, map};
ghost use Rattle.gr_logic.specs.Words.{IsCode, IsNumbered, literal_in, word_of};

use crate::literals::Lit;

/// A number of 32 bits, laid out as a literal is: a vector of words may keep literals among other
/// numbers, and lend them without a copy.
#[derive(Clone, Copy, Debug, PartialEq, Eq)]
#[repr(transparent)]
pub struct Word {
    pub bits: u32,
}

/// The words as literals, where each is the code of one.
pub fn as_lits(words: &[Word]) -> &[Lit]
    requires { All IsCode words.now }
    ensures { result.now ≡ map literal_in words.now }
{
    unsafe { std::slice::from_raw_parts(words.as_ptr() as *const Lit, words.len()) }
}

/// The literals as the words of their codes.
pub fn as_words(lits: &[Lit]) -> &[Word]
    ensures { (result.now ≡ map word_of lits.now) × All IsNumbered lits.now }
{
    unsafe { std::slice::from_raw_parts(lits.as_ptr() as *const Word, lits.len()) }
}
