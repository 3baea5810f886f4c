// New extents from old, by value: with the limits or amounts of a step's detail, with an axis removed, and two glued. An extent is built
// axis by axis, so that nothing stands past its last axis. Names follow on their own.
#![tactic(auto)]

ghost use Rattle.std.specs.Prelude.{◌≡◌, [], map, ◌*◌, length, drop};
ghost use Rattle.paper.specs.Limits.{pair_bytes, limit_bytes};
ghost use Rattle.paper.specs.Axes.{without, star};
ghost use Rattle.paper.specs.Recipe.{each_anew, with_limits, shifted, glued};
ghost use Rattle.paper.specs.Answers.{axes_of, extent_of};
ghost use Rattle.positions.specs.Runs.{Holds};
ghost use Rattle.extent.specs.Tests.{Ranged};
ghost use Rattle.extent.specs.Judged.{Small};
ghost use Rattle.shape.specs.Built.{Room, with_axis};
ghost use Rattle.shape.specs.Renewed.{pair_of, fresh, bytes_for};
ghost use Rattle.shape.specs.declared.Change.TheVariants.{Limits, Moved};
ghost use Rattle.shape.specs.Joined.{Gluing};

use cell::bytes::half;
use paper::{Axis, AxisIndex, Extent, LIMIT_BYTES, PAIR_BYTES, TOP};
use positions::{moved_by, position_at};

pub mod names;

// What of each axis is made anew from the detail.
#[derive(Clone, Copy)]
pub enum Change {
    Limits,
    Moved,
}

// ---- built axis by axis

// No axis yet.
pub fn empty() -> Extent
    ensures { result ≡ extent_of [] }
{
    Extent {
        rank: 0,
        axes: [Axis { lo: 0, hi: 0 }; paper::AXES],
    }
}

// One axis more.
pub fn with_axis(e: Extent, a: Axis) -> Extent
    requires { Room e }
    ensures { result ≡ with_axis e a }
{
    let rank = e.rank;
    let mut new = e;
    new.axes[rank] = a;
    new.rank = rank + 1;
    new
}

// The extent without the axis of that index.
pub fn removed(e: Extent, k: AxisIndex) -> Extent
    ensures { axes_of result ≡ without k.0 (axes_of e) }
{
    let out = k.0 as usize;
    let rank = extent::rank_of(e);
    let mut new = empty();
    for i in 0..rank {
        if i + 1 != out {
            new = with_axis(new, e.axes[i]);
        }
    }
    new
}

// The extent with `*` for every limit: a step result's maximum.
pub fn starred(e: Extent) -> Extent
    ensures { axes_of result ≡ map star (axes_of e) }
{
    Extent {
        rank: e.rank,
        axes: [Axis { lo: 0, hi: TOP }; paper::AXES],
    }
}

// ---- from a step's detail

// An axis with the limits of the pair at byte `at`.
fn limits_at(s: &[u8], at: usize) -> Axis
    requires { Holds at pair_bytes s.now }
    ensures { result ≡ pair_of (drop at s.now) }
{
    let lo = position_at(s, at);
    let hi = position_at(s, at + LIMIT_BYTES);
    Axis { lo, hi }
}

// An axis moved by the amount at byte `at`.
fn moved_at(a: Axis, s: &[u8], at: usize) -> Axis
    requires ranged { Ranged a }
    requires holds { Holds at limit_bytes s.now }
    ensures { result ≡ fresh Moved a (drop at s.now) }
{
    let by = half(s, at);
    let lo = moved_by(a.lo, by);
    let hi = moved_by(a.hi, by);
    Axis { lo, hi }
}

// The bytes that the detail has for each axis.
fn bytes_for(how: Change) -> usize
    ensures { result ≡ bytes_for how }
{
    match how {
        Change::Limits => PAIR_BYTES,
        Change::Moved => LIMIT_BYTES,
    }
}

// An axis made anew from the bytes at `at`.
fn axis_anew(how: Change, a: Axis, s: &[u8], at: usize) -> Axis
    requires ranged { Ranged a }
    requires holds { Holds at (bytes_for how) s.now }
    ensures { result ≡ fresh how a (drop at s.now) }
{
    match how {
        Change::Limits => limits_at(s, at),
        Change::Moved => moved_at(a, s, at),
    }
}

// Every axis made anew from the detail at byte `at`.
fn anew(how: Change, e: Extent, s: &[u8], at: usize) -> Extent
    requires small { Small (axes_of e) }
    requires holds { Holds at (length (axes_of e) * bytes_for how) s.now }
    ensures { axes_of result ≡ each_anew (fresh how) (bytes_for how) (axes_of e) (drop at s.now) }
{
    let width = bytes_for(how);
    let rank = extent::rank_of(e);
    let mut new = empty();
    for i in 0..rank {
        new = with_axis(new, axis_anew(how, e.axes[i], s, at + i * width));
    }
    new
}

// The extent with the limits of the pairs.
pub fn with_limits(e: Extent, s: &[u8], at: usize) -> Extent
    requires small { Small (axes_of e) }
    requires holds { Holds at (length (axes_of e) * pair_bytes) s.now }
    ensures { axes_of result ≡ with_limits (axes_of e) (drop at s.now) }
{
    anew(Change::Limits, e, s, at)
}

// The extent moved by the amounts.
pub fn shifted_by(e: Extent, s: &[u8], at: usize) -> Extent
    requires small { Small (axes_of e) }
    requires holds { Holds at (length (axes_of e) * limit_bytes) s.now }
    ensures { axes_of result ≡ shifted (axes_of e) (drop at s.now) }
{
    anew(Change::Moved, e, s, at)
}

// ---- two extents

// The first extent with its axis k longer by the second's. An upper limit may pass the range: the result is judged later.
pub fn glued_along(e: Extent, f: Extent, k: AxisIndex) -> Extent
    requires { Gluing k.0 (axes_of e) (axes_of f) }
    ensures { axes_of result ≡ glued k.0 (axes_of e) (axes_of f) }
{
    let a = extent::axis_of(e, k);
    let b = extent::axis_of(f, k);
    let hi = a.hi + extent::width_of(b) as u32;
    let i = k.0 as usize - 1;
    let mut new = e;
    new.axes[i] = Axis { lo: a.lo, hi };
    new
}
