// The clauses of an arena, after each call.
use crate::Arena;
use gr_logic::Lit;
use std::test::Fail;

#[test]
fn keeps_the_clauses_that_were_not_removed(rt: HostRuntime) -> Result<(), Fail> {
    let one = Lit::of_var(1, true);
    let two = Lit::of_var(2, true);
    let three = Lit::of_var(3, true);
    let mut arena = Arena::new(rt.alloc());
    let first = arena.add(7, 2, &[one, two])?;
    assert_eq!(rt; arena.words(), 6);
    let second = arena.add(8, 1, &[two, three])?;
    assert_eq!(rt; arena.words(), 12);
    arena.swap(second, 0, 1);
    assert_eq!(rt; arena.lits(second), [three, two].as_slice());
    arena.remove(first);
    assert_eq!(rt; arena.words(), 12);
    let moves = arena.compact()?;
    assert_eq!(rt; arena.words(), 6);
    let place = moves.to(second);
    assert_eq!(rt; (arena.id(place), arena.lbd(place)), (8, 1));
    assert_eq!(rt; arena.lits(place), [three, two].as_slice());
    Ok(())
}

#[test]
fn takes_a_thousand_clauses_of_many_sizes(rt: HostRuntime) -> Result<(), Fail> {
    let lits = [Lit::of_var(1, true); 300];
    let mut arena = Arena::new(rt.alloc());
    for n in 0..1_000usize {
        let size = n % 300;
        let place = arena.add(n as u64, 2, &lits[..size])?;
        assert_eq!(rt; arena.lits(place).len(), size);
        if n % 2 == 0 {
            arena.remove(place);
        }
    }
    assert_eq!(rt; arena.words(), 143_500);
    arena.compact()?;
    assert_eq!(rt; arena.words(), 72_000);
    Ok(())
}
