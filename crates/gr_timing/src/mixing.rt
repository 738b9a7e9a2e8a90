// Numbers that look random and are the same in each run.
ghost use Rattle.std.specs.Prelude.{◌<◌, ◌≤◌, ◌+◌};
ghost use Rattle.gr_logic.specs.Literals.{Literal};

use gr_logic::Lit;

/// The next state of a linear congruential generator (Knuth's MMIX).
pub fn next(state: u64) -> u64 {
    state
        .wrapping_mul(6_364_136_223_846_793_005)
        .wrapping_add(1_442_695_040_888_963_407)
}

/// A number below the bound, from the upper bits of a state.
pub fn below(state: u64, bound: u32) -> u32
    requires { 0 < bound }
    ensures { result < bound }
{
    ((state >> 33) % bound as u64) as u32
}

/// A literal over the variables 1 to `vars`, from the upper bits of a state.
pub fn literal(state: u64, vars: u32) -> Lit
    requires some { 0 < vars }
    requires few { vars ≤ 1_000_000 }
    ensures { result.index < vars }
{
    Lit::of_var(1 + below(state, vars), (state >> 62) % 2 == 0)
}
