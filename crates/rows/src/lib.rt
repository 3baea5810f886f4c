// A moved result by rows: runs of cells that come from cells side by side, or that are all empty; lines of up to three such runs; and
// bands of lines that are alike, each line's cells coming from as many cells after those of the line before.
#![tactic(auto)]

pub mod sides;

ghost use Rattle.std.specs.Prelude.{◌≡◌, ◌+◌, ◌-◌, ◌≤◌, ◌<◌};
ghost use Rattle.paper.specs.Limits.{most_cells};
ghost use Rattle.paper.specs.Axes.{cells};
ghost use Rattle.paper.specs.Answers.{axes_of};
ghost use Rattle.positions.specs.Runs.{Holds};
ghost use Rattle.step.specs.Steps.{detail_of, step_in};
ghost use Rattle.origin.specs.Origins.{Moving};
ghost use Rattle.origin.specs.Comes.{comes};
ghost use Rattle.rows.specs.Bands.{pattern, no_run, band_of, Along, Again, Begins, Banded};
ghost use Rattle.rows.specs.Moves.{lines_left, turn_left};

use origin::{MovedStep, Origin, block_of, cells_after, layer_of, origin_of, patch_of};
use paper::{AxisIndex, Extent, Move};
use positions::position_at;
use sides::{Lines, lines_of, side_around, side_by_side};
use step::StepHead;

// Cells that come from the cells from an origin on, side by side; or blanks.
#[derive(Clone, Copy)]
pub struct Run {
    pub from: Origin,
    pub length: usize,
}

// Lines of so many cells; each comes from `a` cells later in A than the line before, and `b` in B.
#[derive(Clone, Copy)]
pub struct Pattern {
    pub line: usize,
    pub lines: usize,
    pub a: usize,
    pub b: usize,
}

// Lines alike. A line is three runs, of which some may have no cell; the next line's come from `a` cells later in A, `b` in B.
#[derive(Clone, Copy)]
pub struct Band {
    pub lines: usize,
    pub a: usize,
    pub b: usize,
    pub first: Run,
    pub second: Run,
    pub third: Run,
}

// ---- runs

// m cells of one array and n of another in turn: the cells from cell k on to the end of its array's.
fn turn_left(m: usize, n: usize, k: usize) -> usize
    requires { (1 ≤ m) × (m ≤ most_cells) × (n ≤ most_cells) }
    ensures { (result ≡ turn_left m n k) × (1 ≤ result) }
{
    let inner = k % (m + n);
    if inner < m {
        return m - inner;
    }
    m + n - inner
}

// From cell k of a step's result on: how many cells come from cells side by side, or are blank.
fn run_length(w: &MovedStep, k: usize, s: &[u8]) -> usize
    requires holds { Holds w.now.step.at (detail_of w.now.step) s.now }
    requires moving { Moving w.now.m (step_in s.now w.now.step) (axes_of w.now.a) (axes_of w.now.b) (axes_of w.now.t) }
    requires k_bound { k < cells (axes_of w.now.t) }
    ensures { (1 ≤ result) × Along (comes w.now.m (step_in s.now w.now.step) (axes_of w.now.a) (axes_of w.now.b) (axes_of w.now.t)) (cells (axes_of w.now.t)) k result }
{
    let axis = AxisIndex(w.step.axis as u32);
    match w.m {
        Move::Trim => side_by_side(w.t, k, w.a),
        Move::Slice => {
            let layer = layer_of(w.a, axis);
            layer - k % layer
        }
        Move::Reshape => side_by_side(w.t, k, w.a),
        Move::Shift => cells_after(w.t, 0),
        Move::Rename => cells_after(w.t, 0),
        Move::Update => side_around(w.t, k, w.b),
        Move::Put => side_around(w.t, k, patch_of(w.b, axis, position_at(s, w.step.at))),
        Move::Glue => turn_left(block_of(w.a, axis), block_of(w.b, axis), k),
    }
}

// The run that begins with cell k, of at most so many cells, one at least.
fn run_at(w: &MovedStep, k: usize, most: usize, s: &[u8]) -> Run
    requires holds { Holds w.now.step.at (detail_of w.now.step) s.now }
    requires moving { Moving w.now.m (step_in s.now w.now.step) (axes_of w.now.a) (axes_of w.now.b) (axes_of w.now.t) }
    requires le_most { (1 ≤ most) × (k + most ≤ cells (axes_of w.now.t)) }
    ensures { Begins (comes w.now.m (step_in s.now w.now.step) (axes_of w.now.a) (axes_of w.now.b) (axes_of w.now.t)) k most result }
{
    let from = origin_of(w, k, s);
    let length = run_length(w, k, s);
    Run {
        from,
        length: length.min(most),
    }
}

// ---- lines

// All that is left as one line.
fn one_line(left: usize) -> Pattern
    ensures { result ≡ pattern left 1 0 0 }
{
    Pattern {
        line: left,
        lines: 1,
        a: 0,
        b: 0,
    }
}

// As many whole lines as are left, or else what is left as one line.
fn lines_left(left: usize, line: usize, a: usize, b: usize) -> Pattern
    requires { 1 ≤ line }
    ensures { result ≡ lines_left left line a b }
{
    if left < line {
        return one_line(left);
    }
    Pattern {
        line,
        lines: left / line,
        a,
        b,
    }
}

// Lines found in an array, with the cells that they come from in A, and in B.
fn patterned(l: Lines, a: usize, b: usize) -> Pattern
    ensures { result ≡ pattern l.line l.lines a b }
{
    Pattern {
        line: l.line,
        lines: l.lines,
        a,
        b,
    }
}

// B's lines where they are found, and A's own around them.
fn laid_lines(l: Lines) -> Pattern
    ensures { result ≡ pattern l.line l.lines l.line l.stride }
{
    patterned(l, l.line, l.stride)
}

// A's lines where they are found, and blanks around them.
fn kept_lines(l: Lines) -> Pattern
    ensures { result ≡ pattern l.line l.lines l.stride 0 }
{
    patterned(l, l.stride, 0)
}

// From cell k of a step's result on: the lines that are alike.
fn pattern_of(w: &MovedStep, k: usize, s: &[u8]) -> Pattern
    requires holds { Holds w.now.step.at (detail_of w.now.step) s.now }
    requires moving { Moving w.now.m (step_in s.now w.now.step) (axes_of w.now.a) (axes_of w.now.b) (axes_of w.now.t) }
    requires k_bound { k < cells (axes_of w.now.t) }
    ensures { Again (comes w.now.m (step_in s.now w.now.step) (axes_of w.now.a) (axes_of w.now.b) (axes_of w.now.t)) (cells (axes_of w.now.t)) k result }
{
    let axis = AxisIndex(w.step.axis as u32);
    let left = cells_after(w.t, 0) - k;
    match w.m {
        Move::Trim => kept_lines(lines_of(w.t, k, w.a)),
        Move::Slice => lines_left(left, layer_of(w.a, axis), block_of(w.a, axis), 0),
        Move::Reshape => kept_lines(lines_of(w.t, k, w.a)),
        Move::Shift => one_line(left),
        Move::Rename => one_line(left),
        Move::Update => laid_lines(lines_of(w.t, k, w.b)),
        Move::Put => laid_lines(lines_of(w.t, k, patch_of(w.b, axis, position_at(s, w.step.at)))),
        Move::Glue => {
            let m = block_of(w.a, axis);
            let n = block_of(w.b, axis);
            lines_left(left, m + n, m, n)
        }
    }
}

// ---- bands

// No run.
fn none() -> Run
    ensures { result ≡ no_run }
{
    Run {
        from: Origin::Nowhere,
        length: 0,
    }
}

// Lines of up to three runs.
fn band_with(p: Pattern, lines: usize, first: Run, second: Run, third: Run) -> Band
    ensures { result ≡ band_of p lines first second third }
{
    Band {
        lines,
        a: p.a,
        b: p.b,
        first,
        second,
        third,
    }
}

// The lines of a pattern, if its runs fill a line; else only this one, as far as they go.
fn lines_filled(filled: usize, rest: usize, lines: usize) -> usize
    ensures { (rest ≤ filled → result ≡ lines) × (filled < rest → result ≡ 1) }
{
    if filled < rest {
        return 1;
    }
    lines
}

// The band of the step's result that begins with cell k.
pub fn band_of(w: &MovedStep, k: usize, s: &[u8]) -> Band
    requires holds { Holds w.now.step.at (detail_of w.now.step) s.now }
    requires moving { Moving w.now.m (step_in s.now w.now.step) (axes_of w.now.a) (axes_of w.now.b) (axes_of w.now.t) }
    requires k_bound { k < cells (axes_of w.now.t) }
    ensures { Banded (comes w.now.m (step_in s.now w.now.step) (axes_of w.now.a) (axes_of w.now.b) (axes_of w.now.t)) (cells (axes_of w.now.t)) k result }
{
    let p = pattern_of(w, k, s);
    let first = run_at(w, k, p.line, s);
    let left = p.line - first.length;
    if left == 0 {
        return band_with(p, p.lines, first, none(), none());
    }
    let second = run_at(w, k + first.length, left, s);
    let rest = left - second.length;
    if rest == 0 {
        return band_with(p, p.lines, first, second, none());
    }
    let third = run_at(w, k + first.length + second.length, rest, s);
    let lines = lines_filled(third.length, rest, p.lines);
    band_with(p, lines, first, second, third)
}
