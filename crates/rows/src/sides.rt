// Two extents side by side: how many cells of one, from a cell on, are found in the other side by side or all lie outside it; and how
// many lines of cells are found alike, each as many cells later as the line before.
ghost use Rattle.std.specs.Prelude.{◌≡◌, ◌*◌, ◌≤◌, ◌<◌, length, take};
ghost use Rattle.paper.specs.Limits.{most_cells};
ghost use Rattle.paper.specs.Axes.{width, cells};
ghost use Rattle.paper.specs.Answers.{axes_of};
ghost use Rattle.extent.specs.Judged.{Small};
ghost use Rattle.extent.specs.Tests.{Ranged};
ghost use Rattle.origin.specs.Asks.{Beside};
ghost use Rattle.rows.specs.Sides.{SideBySide, Lined, one_line, OneSide, SideLeft};

use extent::{on_axis, rank_of, width_of};
use origin::{cells_after, found_at};
use paper::{Axis, Extent};

// Lines of so many cells; each is found `stride` cells later than the line before.
#[derive(Clone, Copy)]
pub struct Lines {
    pub line: usize,
    pub lines: usize,
    pub stride: usize,
}

// From position x of axis a on: how many positions up to its end stand on the same side of axis e, or on it.
fn same_side(a: Axis, e: Axis, x: u32) -> usize
    requires ranged { Ranged a }
    requires ranged_2 { Ranged e }
    requires lo_le_x { (a.lo ≤ x) × (x ≤ a.hi) }
    ensures { OneSide a e x result }
{
    let rest = (a.hi - x) as usize + 1;
    if x < e.lo {
        return rest.min((e.lo - x) as usize);
    }
    if e.hi < x {
        return rest;
    }
    rest.min((e.hi - x) as usize + 1)
}

// Cell k of axis a and the axes behind it, blocks of so many cells: the cells left of its positions on one side of axis e.
fn side_left(a: Axis, e: Axis, block: usize, k: usize) -> usize
    requires ranged { Ranged a }
    requires ranged_2 { Ranged e }
    requires le_block { (1 ≤ block) × (width a * block ≤ most_cells) }
    ensures { SideLeft a e block k result }
{
    let w = width_of(a) as usize;
    let x = a.lo + (k / block % w) as u32;
    same_side(a, e, x) * block - k % block
}

// Cell k of t: how many cells from it on lie in e side by side, or outside. The last axes that have the same limits in both count as
// one.
pub fn side_by_side(t: Extent, k: usize, e: Extent) -> usize
    requires { Beside (axes_of t) (axes_of e) k }
    ensures { SideBySide (axes_of t) (axes_of e) k result }
{
    let mut block: usize = 1;
    for i in (0..rank_of(t)).rev() {
        let a = t.axes[i];
        let b = e.axes[i];
        if a != b {
            return side_left(a, b, block, k);
        }
        block *= width_of(a) as usize;
    }
    block - k
}

// The last axis whose limits differ, counted from 0; as many as t has axes where none does.
fn uneven(t: Extent, e: Extent) -> usize
    ensures { result ≤ length (axes_of t) }
{
    let rank = rank_of(t);
    let mut pairs = t.axes[..rank].iter().zip(&e.axes[..rank]);
    pairs.rposition(|(a, b)| a != b).unwrap_or(rank)
}

// How many axes are left of t's first c without the last of them that have one position.
fn past_single(t: Extent, c: usize) -> usize
    requires { c ≤ length (axes_of t) }
    ensures { result ≤ length (axes_of t) }
{
    t.axes[..c]
        .iter()
        .rposition(|a| a.lo != a.hi)
        .map_or(0, |i| i + 1)
}

// Where lines are cut: at the last uneven axis, or before axes of one position in front of it. Where its positions lie all inside e's, so
// that a row is one run, up to three rows make a line.
fn cut(t: Extent, e: Extent, last: usize) -> usize
    requires small { Small (axes_of t) }
    requires last_in_bounds { last < length (axes_of t) }
    ensures { result ≤ length (axes_of t) }
{
    let c = past_single(t, last);
    if c == 0 {
        return c;
    }
    let a = t.axes[last];
    let b = e.axes[last];
    if !on_axis(b, a.lo) {
        return c;
    }
    if !on_axis(b, a.hi) {
        return c;
    }
    if 3 * cells_after(t, c) < cells_after(t, c - 1) {
        return c;
    }
    past_single(t, c - 1)
}

// The first c axes.
fn first_axes(e: Extent, c: usize) -> Extent
    requires { c ≤ length (axes_of e) }
    ensures { axes_of result ≡ take c (axes_of e) }
{
    let axes = e.axes;
    Extent { rank: c, axes }
}

// The same as `side_by_side`, but what is outside by the axes before the last uneven one is taken as one, over all lines that are so.
pub fn side_around(t: Extent, k: usize, e: Extent) -> usize
    requires { Beside (axes_of t) (axes_of e) k }
    ensures { SideBySide (axes_of t) (axes_of e) k result }
{
    let c = uneven(t, e);
    let line = cells_after(t, c);
    let first = first_axes(t, c);
    let other = first_axes(e, c);
    let found = found_at(first, k / line, other);
    match found {
        Some(_) => side_by_side(t, k, e),
        None => side_by_side(first, k / line, other) * line - k % line,
    }
}

// One line of the cells left.
fn one_line(t: Extent, k: usize) -> Lines
    requires small { Small (axes_of t) }
    requires k_bound { k < cells (axes_of t) }
    ensures { result ≡ one_line (axes_of t) k }
{
    Lines {
        line: cells_after(t, 0) - k,
        lines: 1,
        stride: 0,
    }
}

// Lines alike from cell k on.
pub fn lines_of(t: Extent, k: usize, e: Extent) -> Lines
    requires { Beside (axes_of t) (axes_of e) k }
    ensures { Lined (axes_of t) (axes_of e) k result }
{
    let last = uneven(t, e);
    if last == rank_of(t) {
        return one_line(t, k);
    }
    let c = cut(t, e, last);
    let line = cells_after(t, c);
    if k % line != 0 {
        return one_line(t, k);
    }
    Lines {
        line,
        lines: side_by_side(first_axes(t, c), k / line, first_axes(e, c)),
        stride: cells_after(e, c),
    }
}
