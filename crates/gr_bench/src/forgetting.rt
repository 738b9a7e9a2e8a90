// Actors let ids go.
ghost use Rattle.std.specs.Prelude.{◌≡◌, ◌↔◌, OnOk, OnErr};
ghost use Rattle.gr_diary.specs.declared.entries.Entry.TheVariants.{Forget};
ghost use Rattle.gr_bench.specs.Exchanges.{IsEnabledAt, IsClosedAt, IsOpenAt, IsGrown, IsUnchanged};
ghost use Rattle.gr_bench.specs.Lone.{forgotten_ids};

use crate::answers::BenchError;
use crate::benches::Bench;
use crate::lone_ids::lone_among;
use gr_diary::Entry;
use gr_logic::{Ids, OutOfMemory};

impl Bench {
    /// An actor lets ids go.
    pub fn forget(&mut self, actor: u32, ids: Ids) -> Result<(), BenchError>
        requires { IsEnabledAt self.old (Forget actor ids) }
        ensures ok { OnOk result (IsGrown self.old self.new (Forget actor ids)) }
        ensures closed { (result ≡ Err BenchError.Closed) ↔ IsClosedAt self.old }
        ensures err { OnErr result (IsUnchanged self.old self.new) }
    {
        if self.is_closed() {
            return Err(BenchError::Closed);
        }
        self.forget_ids(actor, ids)?;
        Ok(())
    }

    /// The actor lets the ids go. Those that no one else holds leave.
    fn forget_ids(&mut self, actor: u32, ids: Ids) -> Result<(), OutOfMemory>
        requires still { IsOpenAt self.old }
        requires able { IsEnabledAt self.old (Forget actor ids) }
        ensures ok { OnOk result (IsGrown self.old self.new (Forget actor ids)) }
        ensures err { OnErr result (IsUnchanged self.old self.new) }
    {
        let left = lone_among(self.alloc, &self.books.holders, ids.all())?;
        let entry = Entry::Forget { actor, ids };
        self.diary.reserve(&entry, &left)?;
        self.books.forget(actor, forgotten(&entry));
        self.diary.push(entry, left);
        Ok(())
    }
}

/// The ids that a `Forget` lets go.
fn forgotten(entry: &Entry) -> &[u64]
    ensures { result.now ≡ forgotten_ids entry.now }
{
    match entry {
        Entry::Forget { ids, .. } => ids.all(),
        _ => &[],
    }
}
