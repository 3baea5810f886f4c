// An extent judged as the paper does: names, limits, number of cells, inside its maximum; and one extent inside another, by one function that
// is told which test each two axes have to meet. An extent's axes are the first `rank`, never more than there is room for; names stand apart.
#![tactic(auto)]

ghost use Rattle.std.specs.Prelude.{◌≡◌, Bool, ◌+◌, ◌-◌, ◌*◌, ◌≤◌};
ghost use Rattle.paper.specs.Limits.{most_axes, most_cells, reach};
ghost use Rattle.paper.specs.Axes.{good_limits, width, axis_within, axis_at, on_axis};
ghost use Rattle.paper.specs.Numbers.{alike};
ghost use Rattle.paper.specs.Recipe.{covers};
ghost use Rattle.paper.specs.Answers.{axis_count, axes_of, names_for};
ghost use Rattle.laws.specs.Limits.{Sound};
ghost use Rattle.extent.specs.Rank.{Rank};
ghost use Rattle.extent.specs.Judged.{few_cells, good_cells, cells_within};
ghost use Rattle.extent.specs.Tests.{Ranged, in_range};
ghost use Rattle.extent.specs.Meeting.{axis_covers};
ghost use Rattle.paper.specs.declared.Axis.{Axis};

use names::good_names;
use paper::{AXES, Axis, AxisIndex, CELLS, Extent, Name, TOP};

pub mod names;

// As many axes as a count tells of; none where an array has no room for so many.
pub fn axis_count(n: usize) -> usize
    ensures { (result ≡ axis_count n) × (result ≤ most_axes) }
{
    if AXES < n {
        return 0;
    }
    n
}

// The number of an extent's axes.
pub fn rank_of(e: Extent) -> usize
    ensures { Rank e result }
{
    axis_count(e.rank)
}

// An axis's index, from 1, counted from 0.
fn from_zero(k: AxisIndex) -> usize
    ensures { result ≡ k.0 - 1 }
{
    if k.0 == 0 {
        return 0;
    }
    k.0 as usize - 1
}

// The axis of an index, from 1.
pub fn axis_of(e: Extent, k: AxisIndex) -> Axis
    ensures { result ≡ axis_at k.0 (axes_of e) }
{
    let rank = rank_of(e);
    let i = from_zero(k);
    if rank <= i {
        return Axis { lo: 0, hi: 0 };
    }
    e.axes[i]
}

// The axis's limits are in range, lower at most upper.
fn axis_in_range(a: Axis) -> bool
    ensures { result ≡ in_range a }
{
    a.lo <= a.hi && a.hi <= TOP
}

// Every limit in range, lower at most upper.
pub fn good_limits(e: Extent) -> bool
    ensures { result ≡ good_limits (axes_of e) }
{
    e.axes[..rank_of(e)].iter().all(|a| axis_in_range(*a))
}

// The number of an axis's positions.
pub fn width_of(a: Axis) -> u64
    requires { Ranged a }
    ensures { (result ≡ width a) × (result ≤ 2 * reach + 1) }
{
    (a.hi as u64) + 1 - (a.lo as u64)
}

// The number of cells, if an array may have so many. From the last axis to the first.
pub fn cells_of(e: Extent) -> Option<usize>
    requires { Sound (axes_of e) }
    ensures { result ≡ few_cells (axes_of e) }
{
    let rank = rank_of(e);
    let mut n: u64 = 1;
    for i in (0..rank).rev() {
        n *= width_of(e.axes[i]);
        if CELLS < n {
            return None;
        }
    }
    Some(n as usize)
}

// The number of cells, if the extent is good.
pub fn good_extent(names: [Name; AXES], e: Extent) -> Option<usize>
    ensures { result ≡ good_cells (names_for (axes_of e) names) (axes_of e) }
{
    if !good_names(names, rank_of(e)) {
        return None;
    }
    if !good_limits(e) {
        return None;
    }
    cells_of(e)
}

// ---- one extent inside another

// The axis lies inside the maximum's, whose limits are in range.
fn axis_within(a: Axis, m: Axis) -> bool
    ensures { result ≡ axis_within a m }
{
    m.lo <= a.lo && a.hi <= m.hi && m.hi <= TOP
}

// The position lies inside the axis.
pub fn on_axis(a: Axis, x: u32) -> bool
    ensures { result ≡ on_axis a x }
{
    a.lo <= x && x <= a.hi
}

// Both limits of the second axis lie on the first.
fn axis_covers(a: Axis, b: Axis) -> bool
    ensures { result ≡ axis_covers a b }
{
    on_axis(a, b.lo) && on_axis(a, b.hi)
}

// As many axes, and each two meet.
fn all_meet<F: Fn(Axis, Axis) -> bool>(e: Extent, f: Extent, meets: F) -> bool
    requires { (a b : _) → F.pre meets a b }
    ensures { (m : Axis → Axis → Bool) → ((a b : _) (r : Bool) → F.post meets a b r → r ≡ m a b) → result ≡ alike m (axes_of e) (axes_of f) }
{
    let rank = rank_of(e);
    if rank_of(f) != rank {
        return false;
    }
    e.axes[..rank]
        .iter()
        .zip(&f.axes[..rank])
        .all(|(a, b)| meets(*a, *b))
}

// All coordinates of the second extent lie inside the first.
pub fn covers_all(e: Extent, f: Extent) -> bool
    ensures { result ≡ covers (axes_of e) (axes_of f) }
{
    all_meet(e, f, axis_covers)
}

// The number of cells, if the extent is good and lies inside its maximum.
pub fn extent_cells(names: [Name; AXES], e: Extent, maximum: Extent) -> Option<usize>
    ensures { result ≡ cells_within (names_for (axes_of e) names) (axes_of e) (axes_of maximum) }
{
    if !all_meet(e, maximum, axis_within) {
        return None;
    }
    good_extent(names, e)
}
