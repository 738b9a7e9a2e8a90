// The trail of a small search: what is known after each step.
use crate::Trail;
use gr_logic::{Lit, Place};
use std::test::Fail;

#[test]
fn takes_back_what_is_above_the_level(rt: HostRuntime) -> Result<(), Fail> {
    let mut trail = Trail::new(rt.alloc(), 4)?;
    let first = Lit::of_var(1, false);
    let second = Lit::of_var(2, false);
    trail.decide(first);
    trail.assign(second, Place(6));
    assert_eq!(rt; trail.lits(), [first, second].as_slice());
    assert_eq!(rt; trail.depth(), 1);
    trail.backtrack(0);
    assert_eq!(rt; trail.lits().len(), 0);
    assert_eq!(rt; trail.depth(), 0);
    assert_eq!(rt; trail.value(first), None);
    Ok(())
}

#[test]
fn tells_each_assignment(rt: HostRuntime) -> Result<(), Fail> {
    let mut trail = Trail::new(rt.alloc(), 4)?;
    trail.assign(Lit::of_var(4, true), Place(0));
    trail.set_reason(4, Place(9));
    trail.decide(Lit::of_var(1, false));
    trail.assign(Lit::of_var(3, true), Place(5));
    assert_eq!(rt; trail.value(Lit::of_var(1, true)), Some(false));
    assert_eq!(rt; trail.value(Lit::of_var(2, true)), None);
    assert_eq!(rt; trail.value(Lit::of_var(3, true)), Some(true));
    assert_eq!(rt; trail.reason(4), Some(Place(9)));
    assert_eq!(rt; trail.reason(1), None, "a decision");
    assert_eq!(rt; trail.reason(3), Some(Place(5)));
    assert_eq!(rt; (trail.level(4), trail.position(4)), (0, 0));
    assert_eq!(rt; (trail.level(1), trail.position(1)), (1, 1));
    assert_eq!(rt; (trail.level(3), trail.position(3)), (1, 2));
    Ok(())
}

#[test]
fn is_made_for_many_variables(rt: HostRuntime) -> Result<(), Fail> {
    for vars in 0..1_000u32 {
        Trail::new(rt.alloc(), vars)?;
    }
    let mut trail = Trail::new(rt.alloc(), 1_000_000)?;
    trail.decide(Lit::of_var(1_000_000, true));
    assert_eq!(rt; trail.lits().len(), 1);
    Ok(())
}
