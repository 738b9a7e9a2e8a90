// What a reducer derives from.
ghost use Rattle.std.specs.Prelude.{◌≡◌, ◌<◌, None, length, IfOk, OnOk};
ghost use Rattle.std.specs.FinMap as finite;
ghost use Rattle.std.specs.FinSet as set;
ghost use Rattle.gr_logic.specs.Formulas.{VarsUpTo};
ghost use Rattle.gr_logic.specs.NormalForms.{IsNormal};
ghost use Rattle.gr_strengthen.specs.LettingGo.{AreLetGo};

use gr_logic::{Clause, Ids, OutOfMemory};
use gr_strengthen::Strengthener;

/// How many clauses of at least two literals a reducer keeps.
const ENOUGH: usize = 20_000;

/// A strengthener, and how many clauses of at least two literals it keeps.
#[derive(Drop)]
pub(crate) struct Keeping<'a> {
    pub(crate) strengthener: Strengthener<'a>,
    pub(crate) long: usize,
}

impl Keeping<'_> {
    /// Keeps a clause of different variables under an id of its own.
    pub(crate) fn keep(&mut self, id: u64, clause: &Clause) -> Result<(), OutOfMemory>
        requires above { length self.old.strengthener.formula.clauses < id }
        requires unused { finite.get self.old.strengthener.kept id ≡ None }
        requires normal { IsNormal clause.now }
        requires known { VarsUpTo self.old.strengthener.formula.vars clause.now }
        ensures { OnOk result (self.new.strengthener ≡ record self.old.strengthener {
          kept = finite.insert self.old.strengthener.kept id (set.from_list clause.now);
        }) }
    {
        if 2 <= clause.lits().len() {
            self.long = self.long.saturating_add(1);
        }
        self.strengthener.keep(id, clause)
    }

    /// Whether it keeps more than enough.
    pub(crate) fn is_full(&self) -> bool {
        ENOUGH < self.long
    }

    /// Lets half of the clauses that may go go: their ids, ascending.
    pub(crate) fn let_go_half(&mut self) -> Result<Ids, OutOfMemory>
        ensures formula { OnOk result (self.new.strengthener.formula ≡ self.old.strengthener.formula) }
        ensures kept { IfOk result (AreLetGo self.old.strengthener.kept self.new.strengthener.kept) }
    {
        let ids = self.strengthener.let_go_half()?;
        self.long = self.long.saturating_sub(ids.all().len());
        Ok(ids)
    }
}
