// One list of watches for each literal.
ghost use Rattle.std.specs.Prelude.{◌≡◌, ◌≢◌, ◌≤◌, ◌<◌, ◌*◌, ◌++◌, ◌∷◌, [], length, replicate, slice_set, IsTrue, IfOk, OnOk, OnErr};
ghost use Rattle.std.specs.List.{list_any};
ghost use Rattle.gr_watch.specs.WatchLists.{WatchLists, list_of, with_list, watch_at, taken_out, is_at, first_at};

use gr_logic::{Lit, OutOfMemory, Place};
use std::alloc::Global;
use std::marker::Model;
use std::mem;

/// A clause that watches a literal, by its place, and another literal of the clause, the blocker:
/// where the blocker is true, the clause need not be visited.
#[derive(Clone, Copy, Debug, PartialEq, Eq)]
pub struct Watch {
    pub place: Place,
    pub blocker: Lit,
}

/// The watches of a search. A contract sees the number of variables, and a list for each literal.
#[derive(Drop)]
pub struct Watches {
    alloc: Global,
    vars: u32,
    /// The list of each literal, by its code.
    lists: Vec<Vec<Watch>>,
}

impl Model for Watches {
    ghost use Rattle.std.specs.Prelude.{◌≡◌, ◌≤◌, ◌*◌, map, length};
    ghost use Rattle.gr_watch.specs.WatchLists.{WatchLists};

    ghost Value = { WatchLists };

    ghost view = { λ watches. record { vars = watches.vars; lists = map (λ list. list.items) watches.lists.items } };

    ghost invariant = { λ watches. (length watches.lists.items ≡ 2 * watches.vars) × (watches.vars ≤ 1_000_000) };
}

impl Watches {
    /// No watches, for the literals of the variables 1 to `vars`.
    pub fn new(alloc: Global, vars: u32) -> Result<Watches, OutOfMemory>
        requires { vars ≤ 1_000_000 }
        ensures { IfOk result (λ watches. watches ≡ record { vars = vars; lists = replicate (2 * vars) [] }) }
    {
        let count = 2 * vars as usize;
        let mut lists = Vec::with_capacity(alloc, count)?;
        for _code in 0..count {
            lists.push(Vec::new(alloc))?;
        }
        Ok(Watches { alloc, vars, lists })
    }

    /// The number of variables.
    pub fn vars(&self) -> u32
        ensures is { result ≡ self.now.vars }
        ensures small { result ≤ 1_000_000 }
    {
        self.vars
    }

    /// The watches of a literal.
    pub fn list(&self, lit: Lit) -> &[Watch]
        requires { lit.index < self.now.vars }
        ensures list { result.now ≡ list_of self.now lit }
        ensures lists { length self.now.lists ≡ 2 * self.now.vars }
    {
        self.lists[lit.code()].as_slice()
    }

    /// Appends a watch to a literal's list.
    pub fn attach(&mut self, lit: Lit, watch: Watch) -> Result<(), OutOfMemory>
        requires { lit.index < self.old.vars }
        ensures ok { OnOk result (self.new ≡ with_list self.old lit (list_of self.old lit ++ watch ∷ [])) }
        ensures err { OnErr result (self.new ≡ self.old) }
    {
        self.lists[lit.code()].push(watch)?;
        Ok(())
    }

    /// Takes the first watch of this place out of a literal's list, whose last one fills its index.
    pub fn detach(&mut self, lit: Lit, place: Place)
        requires known { lit.index < self.old.vars }
        requires watched { IsTrue (list_any (is_at place) (list_of self.old lit)) }
        ensures { self.new
            ≡ with_list self.old lit
            (taken_out (list_of self.old lit) (first_at place (list_of self.old lit))) }
    {
        take_first(&mut self.lists[lit.code()], place);
    }

    /// Takes a watch out of one list, whose last one fills its index, and appends it to another.
    pub fn move_to(&mut self, from: Lit, index: usize, to: Lit) -> Result<(), OutOfMemory>
        requires known { from.index < self.old.vars }
        requires known_too { to.index < self.old.vars }
        requires apart { from ≢ to }
        requires in_range { index < length (list_of self.old from) }
        ensures ok { OnOk result (self.new
            ≡ with_list (with_list self.old from (taken_out (list_of self.old from) index)) to
            (list_of self.old to ++ watch_at (list_of self.old from) index ∷ [])) }
        ensures err { OnErr result (self.new ≡ self.old) }
    {
        let watch = self.list(from)[index];
        self.attach(to, watch)?;
        take_out(&mut self.lists[from.code()], index);
        Ok(())
    }

    /// Puts another watch in the place of the one at an index of a literal's list.
    pub fn renew(&mut self, lit: Lit, index: usize, watch: Watch)
        requires known { lit.index < self.old.vars }
        requires in_range { index < length (list_of self.old lit) }
        ensures { self.new ≡ with_list self.old lit (slice_set (list_of self.old lit) index watch) }
    {
        write(&mut self.lists[lit.code()], index, watch);
    }

    /// Takes a literal's whole list out, and leaves an empty one. No watch is copied, and no memory
    /// taken.
    pub fn take(&mut self, lit: Lit) -> Vec<Watch>
        requires { lit.index < self.old.vars }
        ensures list { result.items ≡ list_of self.old lit }
        ensures rest { self.new ≡ with_list self.old lit [] }
    {
        mem::replace(&mut self.lists[lit.code()], Vec::new(self.alloc))
    }

    /// Puts a whole list in the place of a literal's. No watch is copied, and no memory taken.
    pub fn put(&mut self, lit: Lit, list: Vec<Watch>)
        requires { lit.index < self.old.vars }
        ensures { self.new ≡ with_list self.old lit list.items }
    {
        self.lists[lit.code()] = list;
    }
}

/// Takes a watch out of a list, whose last one fills its index.
fn take_out(list: &mut Vec<Watch>, index: usize)
    requires { index < length list.old.items }
    ensures { list.new.items ≡ taken_out list.old.items index }
{
    list.swap_remove(index);
}

/// Takes the first watch of this place out of a list, whose last one fills its index.
fn take_first(list: &mut Vec<Watch>, place: Place)
    requires { IsTrue (list_any (is_at place) list.old.items) }
    ensures { list.new.items ≡ taken_out list.old.items (first_at place list.old.items) }
{
    let mut index = 0;
    while list[index].place.0 != place.0 {
        index += 1;
    }
    take_out(list, index);
}

/// Puts another watch at an index.
fn write(list: &mut Vec<Watch>, index: usize, watch: Watch)
    requires { index < length list.old.items }
    ensures { list.new.items ≡ slice_set list.old.items index watch }
{
    list[index] = watch;
}
