// Work sets, after each call.
ghost use Rattle.std.specs.Prelude.{◌<◌, ◌+◌, All};

use crate::WorkSet;
use gr_logic::{Item, OutOfMemory};
use std::test::Fail;

#[test]
fn takes_the_latest_of_equals(rt: HostRuntime) -> Result<(), Fail> {
    let mut work = WorkSet::new(rt.alloc(), 2)?;
    let worst = Item {
        id: 4,
        lbd: 5,
        len: 5,
    };
    let earlier = Item {
        id: 5,
        lbd: 3,
        len: 5,
    };
    let later = Item {
        id: 6,
        lbd: 3,
        len: 5,
    };
    assert_eq!(rt; work.enter(worst)?, None);
    assert_eq!(rt; work.enter(earlier)?, None);
    assert_eq!(rt; work.enter(later)?, Some(worst), "the earliest leaves");
    assert_eq!(rt;
        (work.best(), work.first(), work.len()),
        (Some(later), Some(earlier), 2)
    );
    assert_eq!(rt; work.take_best(), Some(later));
    assert_eq!(rt; work.take_best(), Some(earlier));
    assert_eq!(rt; work.take_best(), None);
    Ok(())
}

#[test]
fn takes_no_time_to_scan(rt: HostRuntime) -> Result<(), Fail> {
    let mut work = WorkSet::new(rt.alloc(), 100_000)?;
    let mut replaced: u64 = 0;
    for id in 1..300_001u64 {
        let lbd = (id % 7) as u32;
        let left = work.enter(Item { id, lbd, len: 3 })?;
        replaced = replaced.saturating_add(left.is_some() as u64);
    }
    assert_eq!(rt; replaced, 200_000);
    assert_eq!(rt; work.take_best().map(|item| item.id), Some(299_999));
    let mut taken: u64 = 0;
    for _turn in 0..100_000u64 {
        if work.take_best().is_some() {
            taken = taken.saturating_add(1);
        }
    }
    assert_eq!(rt; taken, 99_999);
    assert_eq!(rt; work.take_best(), None);
    Ok(())
}

/// Steps of a random sequence. Below 12 an item enters: modulo 4 is its LBD, and divided by 4 its number of literals.
/// From 12 on the best item is taken.
const STEPS: [u32; 48] = [
    5, 2, 11, 14, 7, 7, 0, 3, 9, 13, 10, 4, 4, 8, 12, 15, 1, 6, 6, 5, 9, 2, 12, 12, 13, 3, 11, 8,
    0, 14, 10, 1, 7, 5, 15, 12, 13, 14, 12, 12, 9, 9, 4, 2, 13, 6, 0, 11,
];

#[test]
fn agrees_with_a_scanned_list(rt: HostRuntime) -> Result<(), Fail> {
    let alloc = rt.alloc();
    let mut work = WorkSet::new(alloc, 5)?;
    let mut list: Vec<Item> = Vec::new(alloc);
    for id in 0..48u64 {
        let (answer, plain) = step(&mut work, &mut list, id, STEPS[id as usize])?;
        assert_eq!(rt; answer, plain, "the answer at step {id}");
        assert_eq!(rt; work.len(), list.len(), "after step {id}");
        assert_eq!(rt; work.first(), list.first().copied(), "after step {id}");
        assert_eq!(rt; work.best(), scanned(list.as_slice()), "after step {id}");
    }
    Ok(())
}

/// One step in both: what the set answers, and what the list does.
fn step(
    work: &mut WorkSet,
    list: &mut Vec<Item>,
    id: u64,
    step: u32,
) -> Result<(Option<Item>, Option<Item>), OutOfMemory>
    requires { All (λ item. item.id < id) work.old.items }
    ensures { All (λ item. item.id < id + 1) work.new.items }
{
    if step >= 12 {
        let best = scanned(list.as_slice());
        list.retain(|item| Some(*item) != best);
        return Ok((work.take_best(), best));
    }
    let item = Item {
        id,
        lbd: step % 4,
        len: step / 4,
    };
    let left = if list.len() == 5 {
        Some(list.remove(0))
    } else {
        None
    };
    list.push(item)?;
    Ok((work.enter(item)?, left))
}

/// The best item, by a scan.
fn scanned(list: &[Item]) -> Option<Item> {
    let mut best: Option<Item> = None;
    for item in list {
        best = match best {
            Some(earlier) if (earlier.lbd, earlier.len) < (item.lbd, item.len) => Some(earlier),
            _ => Some(*item),
        };
    }
    best
}
