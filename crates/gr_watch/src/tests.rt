// The lists of watches, after each call.
ghost use Rattle.std.specs.Prelude.{◌≡◌, ◌≢◌, ◌<◌};

use crate::{Watch, Watches};
use gr_logic::{Lit, Place};
use std::test::Fail;

#[test]
fn moves_a_watch(rt: HostRuntime) -> Result<(), Fail> {
    let mut watches = Watches::new(rt.alloc(), 2)?;
    let one = Lit::of_var(1, true);
    let two = Lit::of_var(2, true);
    let first = Watch {
        place: Place(0),
        blocker: two,
    };
    let second = Watch {
        place: Place(6),
        blocker: two,
    };
    watches.attach(one, first)?;
    watches.attach(one, second)?;
    watches.move_to(one, 0, two)?;
    assert_eq!(rt; (watches.list(one).len(), watches.list(two).len()), (1, 1));
    assert_eq!(rt; watches.list(one)[0], second, "the last fills the index");
    assert_eq!(rt; watches.list(two)[0], first);
    watches.renew(two, 0, second);
    assert_eq!(rt; watches.list(two)[0], second);
    watches.detach(one, Place(6));
    assert_eq!(rt; watches.list(one).len(), 0);
    let list = watches.take(two);
    assert_eq!(rt; watches.list(two).len(), 0);
    watches.put(two, list);
    assert_eq!(rt; watches.list(two).len(), 1);
    Ok(())
}

/// Attaches a watch of the clause at a place, whose blocker is the literal itself.
fn attach_at(watches: &mut Watches, place: usize, lit: Lit) -> Result<(), Fail>
    requires { lit.index < watches.old.vars }
    ensures { watches.new.vars ≡ watches.old.vars }
{
    let watch = Watch {
        place: Place(place),
        blocker: lit,
    };
    watches.attach(lit, watch)?;
    Ok(())
}

/// Moves the first watch of a list, where there is one, to another list.
fn move_first(watches: &mut Watches, from: Lit, to: Lit) -> Result<(), Fail>
    requires from { from.index < watches.old.vars }
    requires to { to.index < watches.old.vars }
    requires apart { from ≢ to }
    ensures { watches.new.vars ≡ watches.old.vars }
{
    if !watches.list(from).is_empty() {
        watches.move_to(from, 0, to)?;
    }
    Ok(())
}

#[test]
fn takes_a_thousand_watches(rt: HostRuntime) -> Result<(), Fail> {
    let mut watches = Watches::new(rt.alloc(), 300)?;
    let first = Lit::of_var(1, true);
    let last = Lit::of_var(300, false);
    for n in 0..1_000usize {
        attach_at(&mut watches, n, first)?;
        attach_at(&mut watches, n, Lit::of_var((n % 300) as u32 + 1, true))?;
    }
    for _round in 0..700 {
        move_first(&mut watches, first, last)?;
    }
    assert_eq!(rt; watches.list(first).len(), 304);
    assert_eq!(rt; watches.list(last).len(), 700);
    Ok(())
}
