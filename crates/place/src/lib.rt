// Places in an extent: whether a coordinate lies inside, its ordinality, the coordinate of an ordinality, and where a coordinate lies in
// an array. A coordinate's positions are distances above -1,000,000, the first as many as the extent has axes.
#![tactic(auto)]

ghost use Rattle.std.specs.Prelude.{◌≡◌, List, ℕ, ◌+◌, ◌-◌, ◌*◌, ◌≤◌};
ghost use Rattle.paper.specs.declared.Name.{Name};
ghost use Rattle.paper.specs.Limits.{reach};
ghost use Rattle.paper.specs.Axes.{inside, ordinality, coordinate, place_of, shaped};
ghost use Rattle.paper.specs.Answers.{axes_of};
ghost use Rattle.laws.specs.Places.{Inside};
ghost use Rattle.extent.specs.Judged.{Small};
ghost use Rattle.place.specs.Positions.{positions_of, Counted};

use paper::{Axis, Extent, Ordinality, Place};

#[derive(Clone, Copy)]
pub struct Coordinate {
    pub at: [u32; paper::AXES],
}

// How far a position lies above the axis's lower limit.
fn above(a: Axis, x: u32) -> u64
    requires { a.lo ≤ x }
    ensures { result ≡ x - a.lo }
{
    (x - a.lo) as u64
}

// The position n above the axis's lower limit.
fn risen(a: Axis, n: u64) -> u32
    requires { (a.lo + n ≤ a.hi) × (a.hi ≤ 2 * reach) }
    ensures { result ≡ a.lo + n }
{
    a.lo + n as u32
}

// The coordinate lies inside the extent.
pub fn is_inside(e: Extent, p: Coordinate) -> bool
    ensures { result ≡ inside (axes_of e) (positions_of (axes_of e) p) }
{
    let rank = extent::rank_of(e);
    e.axes[..rank]
        .iter()
        .zip(&p.at[..rank])
        .all(|(a, x)| extent::on_axis(*a, *x))
}

// The ordinality of a coordinate: 1 plus the sum over the axes, from the last to the first, with the product of the later widths.
pub fn ordinality_of(e: Extent, p: Coordinate) -> Ordinality
    requires small { Small (axes_of e) }
    requires inside { Inside (axes_of e) (positions_of (axes_of e) p) }
    ensures { result.0 ≡ ordinality (axes_of e) (positions_of (axes_of e) p) }
{
    let mut sum: u64 = 0;
    let mut later: u64 = 1;
    for i in (0..extent::rank_of(e)).rev() {
        let a = e.axes[i];
        sum = above(a, p.at[i]) * later + sum;
        later *= extent::width_of(a);
    }
    Ordinality((sum + 1) as u32)
}

// The coordinate of an ordinality, from the last axis to the first.
pub fn coordinate_of(e: Extent, o: Ordinality) -> Coordinate
    requires small { Small (axes_of e) }
    requires counted { Counted (axes_of e) o.0 }
    ensures { positions_of (axes_of e) result ≡ coordinate (axes_of e) o.0 }
{
    let mut at = [0u32; paper::AXES];
    let mut left = o.0 as u64 - 1;
    for i in (0..extent::rank_of(e)).rev() {
        let a = e.axes[i];
        let w = extent::width_of(a);
        at[i] = risen(a, left % w);
        left /= w;
    }
    Coordinate { at }
}

// Where a coordinate lies: inside the extent, inside the maximum only, or beyond it. Neither type nor names count.
pub fn found(e: Extent, maximum: Extent, p: Coordinate) -> Place
    requires { Small (axes_of e) }
    ensures { (t : ℕ) (N : List Name) → result ≡ place_of (shaped t N (axes_of e) (axes_of maximum)) (positions_of (axes_of e) p) }
{
    if is_inside(e, p) {
        return Place::At(ordinality_of(e, p));
    }
    if extent::rank_of(maximum) != extent::rank_of(e) {
        return Place::Beyond;
    }
    if is_inside(maximum, p) {
        return Place::InMaximum;
    }
    Place::Beyond
}
