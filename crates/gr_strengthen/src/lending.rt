// What a base lends.
ghost use Rattle.std.specs.Prelude.{◌≡◌};
ghost use Rattle.gr_prop.specs.Bases.{IsBase};
ghost use Rattle.gr_trail.specs.Trails.{IsTrail};

use gr_prop::Base;
use gr_trail::Trail;

/// The base's trail.
pub(crate) fn trail_of(base: &Base) -> &Trail
    ensures trail { result.now ≡ base.now.trail }
    ensures is_trail { IsTrail result.now }
    ensures base { IsBase base.now }
{
    let trail = base.trail();
    // Its calls tell that no variable has two values.
    let _depth = trail.depth();
    trail
}
