// The holders of ids.
ghost use Rattle.std.specs.Prelude.{◌≡◌, ◌<◌, false, true, nat_eq, IsSome, OnOk, OnErr};
ghost use Rattle.std.specs.FinSet as set;
ghost use Rattle.std.specs.Map.{lookup};
ghost use Rattle.gr_hold.specs.Holding.{IsHolder, number_of, count_of};
ghost use Rattle.gr_hold.specs.Words.{word_of, AreHeld, IsPut};

use crate::words::{count_bits, has_bit, with_bit, without_bit};
use gr_logic::OutOfMemory;
use std::alloc::Global;
use std::collections::HashMap;
use std::marker::Model;

/// Who may hold the id of a learnt clause. A clause that no one holds is deleted.
#[derive(Clone, Copy, Debug, PartialEq, Eq)]
pub enum Holder {
    /// The solver, actor 0, or a reducer, actors 1 to 8, that may cite the clause.
    Actor(u32),
    /// The list of clauses on offer to the reducers.
    Work,
    /// The list of strengthened clauses that wait for the solver.
    Result,
}

/// Who holds which id. A contract sees a finite set of pairs of an id and a holder.
#[derive(Drop)]
pub struct Holders {
    /// The holders of each id that has one, a bit for each.
    words: HashMap<u64, u16>,
}

impl Model for Holders {
    ghost use Rattle.gr_hold.specs.Holding.{Holding, holding_code};
    ghost use Rattle.gr_hold.specs.Words.{held, AreHeld};

    ghost Value = { Holding };

    ghost coded = { holding_code };

    ghost view = { λ holders. held holders.words.entries };

    ghost invariant = { λ holders. AreHeld holders.words.entries };
}

impl Holders {
    /// No one holds anything. Takes no memory.
    pub fn new(alloc: Global) -> Holders
        ensures { result ≡ set.empty }
    {
        Holders {
            words: HashMap::new(alloc),
        }
    }

    /// From now on it holds the id.
    pub fn give(&mut self, id: u64, by: Holder) -> Result<(), OutOfMemory>
        requires holder { IsHolder by }
        requires apart { set.contains self.old (id, by) ≡ false }
        ensures ok { OnOk result (self.new ≡ set.insert self.old (id, by)) }
        ensures err { OnErr result (self.new ≡ self.old) }
    {
        let word = find(&self.words, id);
        put(&mut self.words, id, with_bit(word, number(by)))?;
        Ok(())
    }

    /// From now on it does not hold the id. Tells how many others do. Takes no memory.
    pub fn drop_hold(&mut self, id: u64, by: Holder) -> u32
        requires holder { IsHolder by }
        requires there { set.contains self.old (id, by) ≡ true }
        ensures holders { self.new ≡ set.remove self.old (id, by) }
        ensures left { result ≡ count_of self.new id }
    {
        let word = without_bit(find(&self.words, id), number(by));
        replace(&mut self.words, id, word);
        count_bits(word)
    }

    /// Whether it holds the id. Takes no memory.
    pub fn holds(&self, id: u64, by: Holder) -> bool
        requires { IsHolder by }
        ensures { result ≡ set.contains self.now (id, by) }
    {
        has_bit(find(&self.words, id), number(by))
    }

    /// How many hold the id. Takes no memory.
    pub fn count(&self, id: u64) -> u32
        ensures { result ≡ count_of self.now id }
    {
        count_bits(find(&self.words, id))
    }
}

/// The bit of a holder.
fn number(by: Holder) -> u32
    requires { IsHolder by }
    ensures number { result ≡ number_of by }
    ensures within { result < 11 }
{
    match by {
        Holder::Work => 0,
        Holder::Result => 1,
        Holder::Actor(actor) => actor + 2,
    }
}

/// The word of an id. One that no one holds has no entry.
fn find(words: &HashMap<u64, u16>, id: u64) -> u16
    ensures { result ≡ word_of (lookup (nat_eq id) words.now.entries) }
{
    match words.get(&id) {
        Some(word) => *word,
        None => 0,
    }
}

/// Writes the word of an id that a holder is given.
fn put(words: &mut HashMap<u64, u16>, id: u64, word: u16) -> Result<(), OutOfMemory>
    requires { 0 < word }
    ensures ok { OnOk result (IsPut words.old.entries words.new.entries id word) }
    ensures held { AreHeld words.old.entries → AreHeld words.new.entries }
    ensures err { OnErr result (words.new.entries ≡ words.old.entries) }
{
    words.insert(id, word)?;
    Ok(())
}

/// Writes the word of an id that has one. Where it is left with no bit, its entry goes.
fn replace(words: &mut HashMap<u64, u16>, id: u64, word: u16)
    requires { IsSome (lookup (nat_eq id) words.old.entries) }
    ensures word { IsPut words.old.entries words.new.entries id word }
    ensures held { AreHeld words.old.entries → AreHeld words.new.entries }
{
    if word == 0 {
        words.remove(&id);
        return;
    }
    // An entry that is there is written in place, which takes no memory.
    match words.insert(id, word) {
        Ok(_) => {}
        Err(_) => prove!(false),
    }
}
