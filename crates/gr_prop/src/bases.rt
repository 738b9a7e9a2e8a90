// The clause database with its trail.
ghost use Rattle.std.specs.Prelude.{◌≡◌, ◌≢◌, ◌≤◌, ◌<◌, ℕ, All, true, false, [], ◌∷◌, length, None, Some, IsSome, IfSome, IfNone, IfOk, OnOk};
ghost use Rattle.std.specs.FinMap as finite;
ghost use Rattle.gr_logic.specs.NormalForms.{IsNormal};
ghost use Rattle.gr_arena.specs.Arenas.{Stored};
ghost use Rattle.gr_trail.specs.Trails.{IsTrail, true_in, value_in};
ghost use Rattle.gr_prop.specs.Bases.{BaseState, BaseClause, clauses_in, decisions, empty_base, LacksId, HasIdAt, IsBase};
ghost use Rattle.gr_prop.specs.BaseChanges.{IsAddable, IsAdded, IsSettled, IsGrown, with_decision, back_to, Ends, AreIdsOf, IsCompacted};

use crate::additions::{Standing, arrange, assess, forget, unwatch, watch};
use crate::compacting::{move_index, move_places, move_reasons, move_watches};
use crate::id_maps::IdMap;
use crate::pairs::pass;
use crate::walks::walk;
use gr_arena::Arena;
use gr_logic::{Clause, Ids, Lit, OutOfMemory, Place};
use gr_trail::Trail;
use gr_watch::Watches;
use std::alloc::Global;
use std::marker::Model;

/// How propagation ends.
#[derive(Clone, Copy, Debug, PartialEq, Eq)]
pub enum Propagated {
    /// The trail is the closure of the clauses and the decisions, without conflict.
    Quiet,
    /// All literals of the clause at the place are false.
    Conflict { place: Place },
}

/// A clause database with its trail. A contract sees the clauses by their places, each with its id, its
/// LBD and the set of its literals; the trail, with the decisions on it; whether nothing is left to
/// propagate; and the clause that the last propagation found false, if it did.
///
/// After `OutOfMemory` a base may only be dropped.
#[derive(Drop)]
pub struct Base {
    arena: Arena,
    trail: Trail,
    /// The watches of the clauses of more than two literals.
    watches: Watches,
    /// The watches of the clauses of two literals.
    pairs: Watches,
    /// Where the clause of each id is.
    places: IdMap,
    /// How many literals of the trail were propagated.
    head: usize,
    /// The clauses that were false when they came in.
    broken: Vec<Place>,
    quiet: bool,
    conflict: Option<Place>,
}

impl Model for Base {
    ghost use Rattle.gr_prop.specs.Bases.{BaseState, clauses_in};
    ghost use Rattle.gr_prop.specs.BaseCodes.{base_code};
    ghost use Rattle.gr_prop.specs.Watching.{IsKeptBase, ArePaired};

    ghost Value = { BaseState };

    ghost coded = { base_code };

    ghost view = { λ base. record {
      clauses = clauses_in base.arena.clauses;
      trail = base.trail;
      quiet = base.quiet;
      conflict = base.conflict;
    } };

    ghost invariant = { λ base. IsKeptBase base.arena.clauses base.trail base.watches base.places base.head
        base.broken.items base.quiet base.conflict × ArePaired base.arena.clauses base.trail.vars base.pairs };
}

impl Base {
    /// No clauses, and no literal is true, over the variables 1 to `vars`.
    pub fn new(alloc: Global, vars: u32) -> Result<Base, OutOfMemory>
        requires { vars ≤ 1_000_000 }
        ensures { IfOk result (λ base. base ≡ empty_base vars) }
    {
        let trail = Trail::new(alloc, vars)?;
        let watches = Watches::new(alloc, vars)?;
        let pairs = Watches::new(alloc, vars)?;
        Ok(Base {
            arena: Arena::new(alloc),
            trail,
            watches,
            pairs,
            places: IdMap::new(alloc),
            head: 0,
            broken: Vec::new(alloc),
            quiet: false,
            conflict: None,
        })
    }

    /// Adds a clause whose literals have different variables. Above level zero it is one that a conflict
    /// taught: its first literal has no value, the others are false, the second since the present level.
    /// Where the clause forces a literal that has no value, this one becomes true.
    pub fn add(&mut self, id: u64, lbd: u32, clause: &Clause) -> Result<Place, OutOfMemory>
        requires normal { IsNormal clause.now }
        requires known { All (λ l. l.index < self.old.trail.vars) clause.now }
        requires unused { LacksId self.old.clauses id }
        requires addable { IsAddable self.old.trail clause.now }
        ensures { IfOk result (λ place. IsAdded self.old self.new id lbd clause.now place) }
    {
        // A variable stands once in a clause, so that no clause is longer than this.
        let _longest = self.watches.vars();
        self.broken.reserve(1)?;
        let place = self.arena.add(id, lbd, clause.lits())?;
        arrange(&mut self.arena, &self.trail, place);
        if let Err(wanting) = self.places.insert(id, place) {
            self.arena.remove(place);
            return Err(wanting);
        }
        let lits = self.arena.lits(place);
        if let Err(wanting) = watch(&mut self.watches, &mut self.pairs, place, lits) {
            self.places.remove(id);
            self.arena.remove(place);
            return Err(wanting);
        }
        self.quiet = false;
        self.conflict = None;
        match assess(self.arena.lits(place), &self.trail) {
            Standing::Broken => self.broken.push(place).unwrap(),
            Standing::Forced(lit) => self.trail.assign(lit, place),
            Standing::Rests => {}
        }
        Ok(place)
    }

    /// Removes a clause that is no literal's reason.
    pub fn remove(&mut self, place: Place)
        requires there { IsSome (finite.get self.old.clauses place.0) }
        requires unneeded { All (λ a. a.reason ≢ Some place) self.old.trail.assigned }
        ensures { self.new
            ≡ record self.old { clauses = finite.remove self.old.clauses place.0; conflict = None } }
    {
        let lits = self.arena.lits(place);
        unwatch(&mut self.watches, &mut self.pairs, place, lits);
        self.places.remove(self.arena.id(place));
        forget(&mut self.broken, place);
        self.arena.remove(place);
        self.conflict = None;
    }

    /// Adds the unit clause of a literal that is true at level zero, and makes it the literal's reason.
    pub fn settle(&mut self, lit: Lit, id: u64) -> Result<Place, OutOfMemory>
        requires ground { self.old.trail.depth ≡ 0 }
        requires holds { true_in self.old.trail.assigned lit ≡ true }
        requires unused { LacksId self.old.clauses id }
        ensures { IfOk result (λ place. IsSettled self.old self.new lit id place) }
    {
        let place = self.arena.add(id, 1, &[lit])?;
        if let Err(wanting) = self.places.insert(id, place) {
            self.arena.remove(place);
            return Err(wanting);
        }
        self.trail.set_reason(lit.var(), place);
        self.conflict = None;
        Ok(place)
    }

    /// Opens a new level, and makes a literal true there.
    pub fn decide(&mut self, lit: Lit)
        requires quiet { self.old.quiet ≡ true }
        requires known { lit.index < self.old.trail.vars }
        requires unassigned { value_in self.old.trail.assigned lit ≡ None }
        ensures { self.new
            ≡ record self.old { trail = with_decision self.old.trail lit; quiet = false; conflict = None } }
    {
        self.trail.decide(lit);
        self.quiet = false;
        self.conflict = None;
    }

    /// Takes back what was assigned above the level, which becomes the present one.
    pub fn backtrack(&mut self, level: u32)
        requires { level ≤ self.old.trail.depth }
        ensures { self.new
            ≡ record self.old { trail = back_to self.old.trail level; quiet = false; conflict = None } }
    {
        self.quiet = false;
        self.conflict = None;
        if level == self.trail.depth() {
            return;
        }
        self.trail.backtrack(level);
        self.head = self.trail.lits().len();
    }

    /// Makes true what the clauses force, until nothing is left or a clause is false.
    pub fn propagate(&mut self) -> Result<Propagated, OutOfMemory>
        ensures clauses { self.new.clauses ≡ self.old.clauses }
        ensures decisions { decisions self.new.trail.assigned ≡ decisions self.old.trail.assigned }
        ensures grown { IsGrown self.old.trail self.new.trail }
        ensures ends { IfOk result (λ propagated. Ends propagated self.new) }
    {
        self.quiet = false;
        self.conflict = None;
        if let Some(place) = self.broken.first().copied() {
            self.conflict = Some(place);
            return Ok(Propagated::Conflict { place });
        }
        // So many literals of the trail passed the binary clauses.
        let mut ahead = self.head;
        while self.head < self.trail.lits().len() {
            if let Some(place) = pass(&self.arena, &mut self.trail, &self.pairs, ahead) {
                self.conflict = Some(place);
                return Ok(Propagated::Conflict { place });
            }
            ahead = self.trail.lits().len();
            let gone = self.trail.lits()[self.head].negate();
            let mut list = self.watches.take(gone);
            let found = walk(
                &mut self.arena,
                &mut self.trail,
                &mut self.watches,
                &mut list,
                gone,
            );
            self.watches.put(gone, list);
            match found? {
                Some(place) => {
                    self.conflict = Some(place);
                    return Ok(Propagated::Conflict { place });
                }
                None => self.head += 1,
            }
        }
        self.quiet = true;
        Ok(Propagated::Quiet)
    }

    /// The place of the clause with this id.
    pub fn find(&self, id: u64) -> Option<Place>
        ensures some { IfSome result (λ place. HasIdAt self.now.clauses id place) }
        ensures none { IfNone result (LacksId self.now.clauses id) }
    {
        self.places.get(id)
    }

    /// The clauses, each with its literals in some order.
    pub fn arena(&self) -> &Arena
        ensures clauses { clauses_in result.now.clauses ≡ self.now.clauses }
        ensures normal { (p : ℕ) (s : Stored) → finite.get result.now.clauses p ≡ Some s → IsNormal s.lits }
        ensures known { (p : ℕ) (s : Stored) → finite.get result.now.clauses p ≡ Some s
            → All (λ l. l.index < self.now.trail.vars) s.lits }
        ensures base { IsBase self.now }
    {
        &self.arena
    }

    /// The trail.
    pub fn trail(&self) -> &Trail
        ensures trail { result.now ≡ self.now.trail }
        ensures base { IsBase self.now }
        ensures legal { IsTrail self.now.trail }
        ensures small { self.now.trail.vars ≤ 1_000_000 }
    {
        // That it is a trail, and of how few variables, is what these two calls promise.
        let _depth = self.trail.depth();
        let _vars = self.watches.vars();
        &self.trail
    }

    /// The ids of the clauses, ascending.
    pub fn ids(&self) -> Result<Ids, OutOfMemory>
        ensures { IfOk result (λ ids. AreIdsOf self.now.clauses ids) }
    {
        self.places.ids()
    }

    /// Moves the clauses together, to new places, so that removed ones take no memory. The memory is
    /// taken first.
    pub fn compact(&mut self) -> Result<(), OutOfMemory>
        requires { self.old.trail.depth ≡ 0 }
        ensures { OnOk result (IsCompacted self.old self.new) }
    {
        let vars = self.watches.vars();
        let ids = self.places.ids()?;
        let moves = self.arena.compact()?;
        move_index(&mut self.places, ids.all(), &moves);
        move_reasons(&mut self.trail, &moves);
        move_watches(&mut self.watches, &moves, vars);
        move_watches(&mut self.pairs, &moves, vars);
        move_places(&mut self.broken, &moves);
        self.conflict = None;
        Ok(())
    }
}
