// Holds that are given and dropped together.
ghost use Rattle.std.specs.Prelude.{◌≡◌, ◌≤◌, false, true, OnOk, OnErr};
ghost use Rattle.std.specs.FinSet as set;
ghost use Rattle.gr_bench.specs.Tables.{without_ids, HoldsEach, IsList};

use gr_hold::{Holder, Holders};
use gr_logic::OutOfMemory;

/// The actor holds the id, and so does the list.
pub(crate) fn give_both(
    holders: &mut Holders,
    id: u64,
    actor: u32,
    list: Holder,
) -> Result<(), OutOfMemory>
    requires actor { actor ≤ 8 }
    requires list { IsList list }
    requires held { set.contains holders.old (id, Holder.Actor actor) ≡ false }
    requires apart { set.contains holders.old (id, list) ≡ false }
    ensures ok { OnOk result (holders.new ≡ set.insert (set.insert holders.old (id, Holder.Actor actor)) (id, list)) }
    ensures err { OnErr result (holders.new ≡ holders.old) }
{
    holders.give(id, Holder::Actor(actor))?;
    match holders.give(id, list) {
        Ok(()) => Ok(()),
        Err(failed) => {
            holders.drop_hold(id, Holder::Actor(actor));
            Err(failed)
        }
    }
}

/// The actor holds the id no more, nor does the list.
pub(crate) fn drop_both(holders: &mut Holders, id: u64, actor: u32, list: Holder)
    requires actor { actor ≤ 8 }
    requires list { IsList list }
    requires held { set.contains holders.old (id, Holder.Actor actor) ≡ true }
    requires listed { set.contains holders.old (id, list) ≡ true }
    ensures { holders.new ≡ set.remove (set.remove holders.old (id, list)) (id, Holder.Actor actor) }
{
    holders.drop_hold(id, list);
    holders.drop_hold(id, Holder::Actor(actor));
}

/// The actor holds none of these ids any more.
pub(crate) fn drop_each(holders: &mut Holders, actor: u32, ids: &[u64])
    requires actor { actor ≤ 8 }
    requires held { HoldsEach holders.old actor ids.now }
    ensures { holders.new ≡ without_ids actor holders.old ids.now }
{
    let mut rest = ids;
    'ids: while let [id, later @ ..] = rest {
        holders.drop_hold(*id, Holder::Actor(actor));
        rest = later;
    }
}
