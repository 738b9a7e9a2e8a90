// Gates, which a test closes to hold an actor at a point.

/// Where an actor stands when it passes a gate.
#[derive(Clone, Copy, Debug, PartialEq, Eq)]
pub enum Point {
    /// The solver learnt a clause.
    Learnt,
    /// A reducer took a clause.
    Taken,
}

/// What an actor passes between two turns. It tells the actor nothing, so no contract depends on
/// it: a test may hold an actor there until others have arrived.
pub trait Gate: Sync {
    /// Lets the actor of this number pass; the solver is 0.
    fn pass(&self, actor: u32, point: Point);
}

/// A gate that holds nobody.
#[derive(Clone, Copy, Debug, Default, PartialEq, Eq)]
pub struct Open;

impl Gate for Open {
    fn pass(&self, _actor: u32, _point: Point) {}
}

#[cfg(test)]
mod tests {
    use super::*;

    fn pass_both<G: Gate>(gate: &G) {
        gate.pass(0, Point::Learnt);
        gate.pass(1, Point::Taken);
    }

    #[test]
    fn an_open_gate_lets_all_pass() {
        pass_both(&Open);
    }
}
