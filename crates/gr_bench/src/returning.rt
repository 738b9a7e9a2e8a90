// Reducers give back what became of the clauses that they took.
ghost use Rattle.std.specs.Prelude.{◌≡◌, ◌↔◌, None, if◌then◌else◌, IfOk, OnOk, OnErr};
ghost use Rattle.gr_logic.specs.declared.items.Strengthened.TheVariants.{Same, Shorter};
ghost use Rattle.gr_diary.specs.declared.entries.Entry.TheVariants.{Return};
ghost use Rattle.gr_bench.specs.Exchanges.{IsEnabledAt, IsClosedAt, IsOpenAt, IsGrown, IsUnchanged, state_at};
ghost use Rattle.gr_bench.specs.Answers.{id_of_outcome};

use crate::answers::BenchError;
use crate::benches::Bench;
use crate::learning::is_empty;
use crate::lone_ids::lone_of;
use crate::offers::Pending;
use gr_diary::Entry;
use gr_logic::{Clause, Ids, OutOfMemory, Strengthened};

impl Bench {
    /// What became of the clause that a reducer took. Answers the id of the shorter clause, if there is one.
    pub fn give_back(
        &mut self,
        actor: u32,
        outcome: Strengthened,
    ) -> Result<Option<u64>, BenchError>
        requires { IsEnabledAt self.old (Return actor outcome) }
        ensures ok { OnOk result (IsGrown self.old self.new (Return actor outcome)) }
        ensures id { IfOk result (λ id. id ≡ id_of_outcome (state_at self.old) outcome) }
        ensures closed { (result ≡ Err BenchError.Closed) ↔ IsClosedAt self.old }
        ensures err { OnErr result (IsUnchanged self.old self.new) }
    {
        if self.is_closed() {
            return Err(BenchError::Closed);
        }
        match outcome {
            Strengthened::Same => {
                self.give_same(actor)?;
                Ok(None)
            }
            Strengthened::Shorter { clause, hints } => {
                let id = self.give_shorter(actor, clause, hints)?;
                Ok(Some(id))
            }
        }
    }

    /// The taken clause stays as it is.
    fn give_same(&mut self, actor: u32) -> Result<(), OutOfMemory>
        requires still { IsOpenAt self.old }
        requires able { IsEnabledAt self.old (Return actor Same) }
        ensures ok { OnOk result (IsGrown self.old self.new (Return actor Same)) }
        ensures err { OnErr result (IsUnchanged self.old self.new) }
    {
        let entry = Entry::Return {
            actor,
            outcome: Strengthened::Same,
        };
        let left = Ids::new(self.alloc);
        self.diary.reserve(&entry, &left)?;
        self.books.note_taken(actor, None);
        self.diary.push(entry, left);
        Ok(())
    }

    /// A shorter clause takes the place of the taken one, which its reducer lets go.
    fn give_shorter(&mut self, actor: u32, clause: Clause, hints: Ids) -> Result<u64, OutOfMemory>
        requires still { IsOpenAt self.old }
        requires able { IsEnabledAt self.old (Return actor (Shorter clause hints)) }
        ensures ok { OnOk result (IsGrown self.old self.new (Return actor (Shorter clause hints))) }
        ensures id { IfOk result (λ id. id ≡ (state_at self.old).next) }
        ensures err { OnErr result (IsUnchanged self.old self.new) }
    {
        let id = self.books.next_id()?;
        let taken = self.books.taken[actor as usize];
        let ends = is_empty(&clause);
        // The empty clause ends the history, and lets no id leave.
        let candidate = unless(ends, taken);
        let left = lone_of(self.alloc, &self.books.holders, candidate)?;
        let copy = clause.copy()?;
        let entry = Entry::Return {
            actor,
            outcome: Strengthened::Shorter { clause, hints },
        };
        self.diary.reserve(&entry, &left)?;
        self.books.share(
            actor,
            Pending {
                old: taken,
                id,
                clause: copy,
            },
        )?;
        self.books.let_go(actor, taken);
        self.books.note_taken(actor, None);
        self.books.end_if(ends);
        self.diary.push(entry, left);
        Ok(id)
    }
}

/// The id, but none where this is so.
fn unless(ends: bool, id: Option<u64>) -> Option<u64>
    ensures { result ≡ (if ends then None else id) }
{
    if ends { None } else { id }
}
