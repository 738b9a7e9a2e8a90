// Holders of a few ids, after each call.
ghost use Rattle.std.specs.Prelude.{◌<◌};
ghost use Rattle.gr_hold.specs.Holding.{IsHolder};

use crate::{Holder, Holders};
use std::test::Fail;

#[test]
fn counts_who_is_left(rt: HostRuntime) -> Result<(), Fail> {
    let mut holders = Holders::new(rt.alloc());
    holders.give(4, Holder::Actor(0))?;
    holders.give(4, Holder::Work)?;
    assert_eq!(rt; holders.count(4), 2);
    assert_eq!(rt; holders.drop_hold(4, Holder::Work), 1);
    assert_eq!(rt; holders.holds(4, Holder::Actor(0)), true);
    assert_eq!(rt; holders.holds(4, Holder::Work), false);
    assert_eq!(rt; holders.drop_hold(4, Holder::Actor(0)), 0);
    assert_eq!(rt; holders.count(4), 0);
    Ok(())
}

/// Steps of a random sequence: modulo 11 the holder, and beyond that the id.
const STEPS: [u32; 40] = [
    0, 9, 10, 8, 7, 20, 0, 31, 12, 11, 21, 10, 9, 22, 23, 30, 31, 32, 8, 3, 1, 2, 4, 5, 6, 0, 9,
    10, 17, 28, 21, 20, 11, 12, 22, 30, 8, 7, 10, 9,
];

#[test]
fn agrees_with_a_list_of_pairs(rt: HostRuntime) -> Result<(), Fail> {
    let alloc = rt.alloc();
    let mut holders = Holders::new(alloc);
    let mut pairs: Vec<(u64, u32)> = Vec::new(alloc);
    for step in STEPS {
        let id = (step / 11) as u64;
        let number = step % 11;
        let by = numbered(number);
        if holders.holds(id, by) {
            let left = holders.drop_hold(id, by);
            pairs.retain(|pair| *pair != (id, number));
            assert_eq!(rt; left, count(&pairs, id), "dropped at {step}");
        } else {
            holders.give(id, by)?;
            pairs.push((id, number))?;
        }
        for id in 0..4u64 {
            assert_eq!(rt;
                holders.count(id),
                count(&pairs, id),
                "the holders of {id} after {step}"
            );
            for number in 0..11u32 {
                let held = pairs.contains(&(id, number));
                assert_eq!(rt;
                    holders.holds(id, numbered(number)),
                    held,
                    "{number} holds {id} after {step}"
                );
            }
        }
    }
    Ok(())
}

#[test]
fn holds_many_ids(rt: HostRuntime) -> Result<(), Fail> {
    let mut holders = Holders::new(rt.alloc());
    for pair in 0..11_000u64 {
        let by = numbered((pair % 11) as u32);
        let id = (pair / 11).saturating_mul(5_000_000_000);
        if !holders.holds(id, by) {
            holders.give(id, by)?;
        }
    }
    let mut held: u64 = 0;
    for id in 0..1_000u64 {
        let far = id.saturating_mul(5_000_000_000);
        held = held.saturating_add(holders.count(far) as u64);
    }
    assert_eq!(rt; held, 11_000);
    Ok(())
}

/// The holder of a number: the actors, the work list, and the result list.
fn numbered(number: u32) -> Holder
    requires { number < 11 }
    ensures { IsHolder result }
{
    match number {
        9 => Holder::Work,
        10 => Holder::Result,
        actor => Holder::Actor(actor),
    }
}

/// How many pairs have this id.
fn count(pairs: &[(u64, u32)], id: u64) -> u32 {
    let mut count: u32 = 0;
    for pair in pairs {
        if pair.0 == id {
            count = count.saturating_add(1);
        }
    }
    count
}
