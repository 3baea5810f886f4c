// The form of an array that a call names, judged in the paper's order: its type and axis count, its names and its extent.
#![tactic(auto)]

ghost use Rattle.std.specs.Prelude.{◌≡◌};
ghost use Rattle.paper.specs.Limits.{sizes_of};
ghost use Rattle.paper.specs.Answers.{axes_of, names_for};
ghost use Rattle.form.specs.Judged.{form_cells};

use extent::names::names_fit;
use extent::{good_extent, rank_of};
use paper::{AXES, Extent, Name, Refusal, TYPES, Version};
use refusals::{in_range, refuse};
use versions::sizes;

// How many cells it has; 1 for its type or axis count, 2 for a name that is too long or its extent, at the place told.
pub fn form_cells(
    v: Version,
    kind: u8,
    names: [Name; AXES],
    e: Extent,
    place: u32,
) -> Result<usize, Refusal>
    ensures { result ≡ form_cells (sizes_of v) kind (names_for (axes_of e) names) (axes_of e) place }
{
    let rank = rank_of(e);
    if !in_range(kind as usize, TYPES) || !in_range(rank, sizes(v).axes) {
        return Err(refuse(1, place));
    }
    if !names_fit(v, names, rank) {
        return Err(refuse(2, place));
    }
    let Some(n) = good_extent(names, e) else {
        return Err(refuse(2, place));
    };
    Ok(n)
}
