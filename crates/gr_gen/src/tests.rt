// The smallest formulas of each kind, clause by clause, and the sizes of larger ones.
use crate::{odd_ring, pigeons};
use gr_logic::{Clause, Formula};
use std::alloc::Global;
use std::test::Fail;

/// The clauses as DIMACS CNF writes them.
fn text_of(alloc: Global, formula: &Formula) -> Result<String, Fail> {
    let mut text = String::new(alloc);
    for clause in formula.clauses() {
        for lit in clause.lits() {
            text.push_str(format!(in alloc; "{} ", lit.number())?.as_str())?;
        }
        text.push_str("0 ")?;
    }
    Ok(text)
}

#[test]
fn three_variables_in_a_ring(rt: HostRuntime) -> Result<(), Fail> {
    let ring = odd_ring(rt.alloc(), 3)?;
    assert_eq!(rt; ring.vars(), 3);
    assert_eq!(rt;
        text_of(rt.alloc(), &ring)?.as_str(),
        "1 2 0 -1 -2 0 2 3 0 -2 -3 0 3 1 0 -3 -1 0 "
    );
    Ok(())
}

#[test]
fn two_pigeons_in_one_hole(rt: HostRuntime) -> Result<(), Fail> {
    let two = pigeons(rt.alloc(), 2)?;
    assert_eq!(rt; two.vars(), 2);
    assert_eq!(rt; text_of(rt.alloc(), &two)?.as_str(), "1 0 2 0 -1 -2 0 ");
    Ok(())
}

#[test]
fn sizes_of_larger_ones(rt: HostRuntime) -> Result<(), Fail> {
    let four = pigeons(rt.alloc(), 4)?;
    assert_eq!(rt; (four.vars(), four.clauses().len()), (12, 22));
    let ring = odd_ring(rt.alloc(), 1_001)?;
    assert_eq!(rt; (ring.vars(), ring.clauses().len()), (1_001, 2_002));
    Ok(())
}
