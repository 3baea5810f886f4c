// Where each cell of a moved result comes from: a cell of A, a cell of B, or none. Cells are counted from 0 in row-major order. Around an
// axis they go in blocks, so that an axis left out, put in or glued is a matter of counting.
#![tactic(auto)]

ghost use Rattle.std.specs.Prelude.{◌≡◌, ◌+◌, ◌*◌, ◌≤◌, ◌<◌, length, drop};
ghost use Rattle.paper.specs.Limits.{most_cells};
ghost use Rattle.paper.specs.Axes.{cells, offset, at_offset, axis_at, without, put_in};
ghost use Rattle.paper.specs.Answers.{axes_of};
ghost use Rattle.laws.specs.Glue.{block_cells};
ghost use Rattle.positions.specs.Runs.{Holds};
ghost use Rattle.extent.specs.Judged.{Small};
ghost use Rattle.step.specs.Steps.{detail_of, step_in};
ghost use Rattle.origin.specs.Origins.{Moving, found_in, in_a, over_a, turn_origin};
ghost use Rattle.origin.specs.Patches.{Insertable, spot};
ghost use Rattle.origin.specs.Asks.{Beside, Axial, Sliced, InTurns, Countable};
ghost use Rattle.origin.specs.Comes.{comes};
ghost use Rattle.origin.specs.declared.Origin.TheVariants.{FromA};

use paper::{Axis, AxisIndex, Extent, Move, Ordinality};
use positions::position_at;
use step::StepHead;

// Nowhere: the cell is empty. Else so many cells after the first of A, or of B.
#[derive(Clone, Copy)]
pub enum Origin {
    Nowhere,
    FromA(usize),
    FromB(usize),
}

// A step that moves cells: its move, its bytes, the extents of its operands a and b and of its result t.
#[derive(Clone, Copy)]
pub struct MovedStep {
    pub m: Move,
    pub step: StepHead,
    pub a: Extent,
    pub b: Extent,
    pub t: Extent,
}

// ---- by coordinate

// Where the coordinate of cell k of an extent is found in another: so many cells after the first, or nowhere.
pub fn found_at(t: Extent, k: usize, e: Extent) -> Option<usize>
    requires { Beside (axes_of t) (axes_of e) k }
    ensures { result ≡ found_in (axes_of e) (at_offset (axes_of t) k) }
{
    let p = place::coordinate_of(t, Ordinality(k as u32 + 1));
    if !place::is_inside(e, p) {
        return None;
    }
    let o = place::ordinality_of(e, p);
    Some(o.0 as usize - 1)
}

// A's cell there, or none.
fn in_first(t: Extent, k: usize, e: Extent) -> Origin
    requires { Beside (axes_of t) (axes_of e) k }
    ensures { result ≡ in_a (found_in (axes_of e) (at_offset (axes_of t) k)) }
{
    let found = found_at(t, k, e);
    match found {
        Some(j) => Origin::FromA(j),
        None => Origin::Nowhere,
    }
}

// B's cell there, or A's cell j.
fn laid_over(t: Extent, k: usize, f: Extent, j: usize) -> Origin
    requires { Beside (axes_of t) (axes_of f) k }
    ensures { result ≡ over_a j (found_in (axes_of f) (at_offset (axes_of t) k)) }
{
    let found = found_at(t, k, f);
    match found {
        Some(i) => Origin::FromB(i),
        None => Origin::FromA(j),
    }
}

// ---- a patch

// The axis of index j, of an extent with an axis put in as its axis k.
fn axis_in(f: Extent, k: AxisIndex, a: Axis, j: AxisIndex) -> Axis
    requires insertable { Insertable k.0 (axes_of f) }
    requires le_j { 1 ≤ j.0 }
    ensures { result ≡ axis_at j.0 (put_in k.0 a (axes_of f)) }
{
    if j.0 < k.0 {
        return extent::axis_of(f, j);
    }
    if j.0 == k.0 {
        return a;
    }
    extent::axis_of(f, AxisIndex(j.0 - 1))
}

// The extent with an axis of the one position x put in as its axis k.
pub fn patch_of(f: Extent, k: AxisIndex, x: u32) -> Extent
    requires { Insertable k.0 (axes_of f) }
    ensures { axes_of result ≡ put_in k.0 (spot x) (axes_of f) }
{
    let a = Axis { lo: x, hi: x };
    let n = extent::rank_of(f) + 1;
    let mut new = shape::empty();
    for i in 0..n {
        new = shape::with_axis(new, axis_in(f, k, a, AxisIndex(i as u32 + 1)));
    }
    new
}

// ---- by blocks

// The cells of the axes after the first `before`.
pub fn cells_after(e: Extent, before: usize) -> usize
    requires small { Small (axes_of e) }
    requires before_in_bounds { before ≤ length (axes_of e) }
    ensures { (result ≡ cells (drop before (axes_of e))) × (1 ≤ result) × (result ≤ most_cells) }
{
    let mut n: u64 = 1;
    for i in (before..extent::rank_of(e)).rev() {
        n *= extent::width_of(e.axes[i]);
    }
    n as usize
}

// The cells of a block: of axis k and the axes after it.
pub fn block_of(e: Extent, k: AxisIndex) -> usize
    requires { Axial k.0 (axes_of e) }
    ensures { (result ≡ block_cells k.0 (axes_of e)) × (1 ≤ result) × (result ≤ most_cells) }
{
    cells_after(e, k.0 as usize - 1)
}

// The cells of a layer: of the axes after axis k.
pub fn layer_of(e: Extent, k: AxisIndex) -> usize
    requires { Axial k.0 (axes_of e) }
    ensures { (result ≡ cells (drop k.0 (axes_of e))) × (1 ≤ result) × (result ≤ most_cells) }
{
    cells_after(e, k.0 as usize)
}

// So many blocks of a size, and a rest.
fn counted(blocks: usize, size: usize, rest: usize) -> usize
    requires { Countable blocks size rest }
    ensures { result ≡ blocks * size + rest }
{
    blocks * size + rest
}

// Cell j of the axes but axis k, at position x of that axis.
fn sliced(e: Extent, k: AxisIndex, x: u32, j: usize) -> Origin
    requires { Sliced k.0 (axes_of e) x j }
    ensures { result ≡ FromA (offset (axes_of e) (put_in k.0 x (at_offset (without k.0 (axes_of e)) j))) }
{
    let block = block_of(e, k);
    let layer = layer_of(e, k);
    let a = extent::axis_of(e, k);
    let layers = (x - a.lo) as usize;
    Origin::FromA(counted(j / layer, block, counted(layers, layer, j % layer)))
}

// m cells of A and n of B in turn: cell j of them.
pub fn in_turns(m: usize, n: usize, j: usize) -> Origin
    requires { InTurns m n j }
    ensures { result ≡ turn_origin m n j }
{
    let turn = j / (m + n);
    let inner = j % (m + n);
    if inner < m {
        return Origin::FromA(counted(turn, m, inner));
    }
    Origin::FromB(counted(turn, n, inner - m))
}

// ---- by move

// Where cell k of the step's result comes from.
pub fn origin_of(w: &MovedStep, k: usize, s: &[u8]) -> Origin
    requires holds { Holds w.now.step.at (detail_of w.now.step) s.now }
    requires moving { Moving w.now.m (step_in s.now w.now.step) (axes_of w.now.a) (axes_of w.now.b) (axes_of w.now.t) }
    requires k_bound { k < cells (axes_of w.now.t) }
    ensures { result ≡ comes w.now.m (step_in s.now w.now.step) (axes_of w.now.a) (axes_of w.now.b) (axes_of w.now.t) k }
{
    let at = w.step.at;
    let axis = AxisIndex(w.step.axis as u32);
    match w.m {
        Move::Trim => in_first(w.t, k, w.a),
        Move::Slice => sliced(w.a, axis, position_at(s, at), k),
        Move::Reshape => in_first(w.t, k, w.a),
        Move::Shift => Origin::FromA(k),
        Move::Rename => Origin::FromA(k),
        Move::Update => laid_over(w.t, k, w.b, k),
        Move::Put => laid_over(w.t, k, patch_of(w.b, axis, position_at(s, at)), k),
        Move::Glue => in_turns(block_of(w.a, axis), block_of(w.b, axis), k),
    }
}
