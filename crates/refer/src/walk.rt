// The walking place, lent by the caller and moved forward where it stands: a thin function over the by-value step.
ghost use Rattle.std.specs.Prelude.{◌≡◌};
ghost use Rattle.paper.specs.Reference.{walk};

use crate::walk_step;
use paper::{Cell, Ordinality, Refusal};

// Where a walk is: the ordinality of the cell to be seen next.
#[derive(Clone, Copy)]
pub struct WalkingPlace {
    pub place: Ordinality,
}

// One step of a walk over array k, from the place that is lent: the cell there, or the end. The place is moved forward; at the end it
// stays, and any refusal leaves it.
pub fn walk_on(s: &[u8], k: u32, at: &mut WalkingPlace) -> Result<Option<Cell>, Refusal>
    ensures { (result ≡ (walk s.now k at.old.place.0).answer)
        × (at.new.place.0 ≡ (walk s.now k at.old.place.0).place) }
{
    let step = walk_step(s, k, at.place);
    at.place = step.place;
    step.answer
}
