// A set of literals.
ghost use Rattle.std.specs.Prelude.{◌≡◌, ◌<◌, ◌||◌, ℕ, false, nat_eq, slice_index_or, OnOk, OnErr};
ghost use Rattle.std.specs.FinSet as set;

use crate::literals::Lit;
use crate::memory::OutOfMemory;
use std::alloc::Global;
use std::marker::Model;

/// A set of literals: a contract sees a finite set. Both literals of a variable may be in it. A
/// look-up takes constant time, and the set takes a byte for each code up to the greatest in it.
#[derive(Debug, Drop)]
pub struct LitSet {
    /// Whether a literal is in the set, by its code. Literals beyond the end are not.
    flags: Vec<bool>,
}

impl Model for LitSet {
    ghost use Rattle.gr_logic.specs.LiteralSets.{FiniteSet, finite_set_code, flagged};

    ghost Value = { FiniteSet };

    ghost coded = { finite_set_code };

    ghost view = { λ literals. flagged literals.flags.items };
}

impl LitSet {
    /// The empty set. Takes no memory.
    pub fn new(alloc: Global) -> LitSet
        ensures { result ≡ set.empty }
    {
        LitSet {
            flags: Vec::new(alloc),
        }
    }

    /// Puts a literal in. One that is there already stays.
    pub fn add(&mut self, lit: Lit) -> Result<(), OutOfMemory>
        ensures ok { OnOk result (self.new ≡ set.insert self.old lit) }
        ensures err { OnErr result (self.new ≡ self.old) }
    {
        set_flag(&mut self.flags, lit.code())?;
        Ok(())
    }

    /// Whether the literal is in the set. Takes no memory.
    pub fn has(&self, lit: Lit) -> bool
        ensures { result ≡ set.contains self.now lit }
    {
        let code = lit.code();
        code < self.flags.len() && self.flags[code]
    }
}

/// Sets a flag. Where the list is too short it grows, by flags that are not set.
fn set_flag(flags: &mut Vec<bool>, at: usize) -> Result<(), OutOfMemory>
    requires { at < 2_000_000 }
    ensures ok { OnOk result ((i : ℕ) → slice_index_or flags.new.items i false
        ≡ (nat_eq i at || slice_index_or flags.old.items i false)) }
    ensures err { OnErr result (flags.new.items ≡ flags.old.items) }
{
    if at < flags.len() {
        flags[at] = true;
        return Ok(());
    }
    flags.resize(at + 1, false)?;
    flags[at] = true;
    Ok(())
}
