// A step's tests that hang on its operation, its types and what must lie inside A; and the type, extent and names of its result.
ghost use Rattle.std.specs.Prelude.{◌≡◌, true, not, ◌&&◌, ◌||◌, eqb, ◌+◌, ◌*◌, length, drop};
ghost use Rattle.paper.specs.declared.Operation.TheVariants.{Moves};
ghost use Rattle.paper.specs.Limits.{limit_bytes, pair_bytes, scalar_at, word_bytes, sizes_of};
ghost use Rattle.paper.specs.Numbers.{le_of, part, position_at};
ghost use Rattle.paper.specs.Axes.{without, on_axis, axis_at};
ghost use Rattle.paper.specs.Cells.{filled};
ghost use Rattle.paper.specs.Operators.{takes};
ghost use Rattle.paper.specs.Recipe.{uses, axis_in, is_scalar, takes_type, types_fit, covers, with_limits, fits_in, result_type, result_axes};
ghost use Rattle.paper.specs.Answers.{axes_of, shape_of};
ghost use Rattle.positions.specs.Runs.{Holds};
ghost use Rattle.extent.specs.Judged.{Small};
ghost use Rattle.step.specs.Steps.{detail_of, step_in, Detailed};
ghost use Rattle.step.specs.Named.{NamesTold};

use crate::StepHead;
use cell::bytes::{from_word, word};
use extent::{axis_of, covers_all, on_axis, rank_of};
use operators::types::{gives_pair, gives_single, takes_pair, takes_single};
use paper::{AXES, AxisIndex, Extent, Form, Move, Name, Operation, PairOp, SCALAR_AT, Work};
use positions::position_at;
use shape::names::{names_at, without_name};
use shape::{glued_along, removed, shifted_by, with_limits};

// ---- types

// Where B is used, both have one type.
fn one_type(b: bool, t: u8, u: u8) -> bool
    ensures { result ≡ (not b || eqb t u) }
{
    if !b {
        return true;
    }
    t == u
}

// The operator takes A's type, and the scalar of the detail at `at` is of it.
fn scalar_fits(o: PairOp, t: u8, s: &[u8], at: usize) -> bool
    requires { Holds at (scalar_at + word_bytes) s.now }
    ensures { result ≡ (takes o t && is_scalar (filled t (le_of (part (at + scalar_at) word_bytes s.now)))) }
{
    if !takes_pair(o, t) {
        return false;
    }
    from_word(t, word(s, at + SCALAR_AT)).is_some()
}

// The operator takes A's type, with its scalar.
fn takes_type(w: Work, step: StepHead, t: u8, s: &[u8]) -> bool
    requires { Holds step.at (detail_of step) s.now }
    ensures { result ≡ takes_type w (step_in s.now step) t }
{
    match w {
        Work::Pair(o) => takes_pair(o, t),
        Work::Scalar(_, o) => scalar_fits(o, t, s, step.at),
        Work::Single(o) => takes_single(o, t),
    }
}

// The types fit the operation; b tells whether it uses B.
pub fn types_fit(step: StepHead, b: bool, t: u8, u: u8, s: &[u8]) -> bool
    requires holds { Holds step.at (detail_of step) s.now }
    requires b_value { b ≡ (uses step.operation).b }
    ensures { result ≡ types_fit step.operation (step_in s.now step) t u }
{
    let op = step.operation;
    let one = one_type(b, t, u);
    match op {
        Operation::Moves(_) => one,
        Operation::Works(w) => {
            if !one {
                return false;
            }
            takes_type(w, step, t, s)
        }
    }
}

// ---- inside A

// Both ends of each pair of the detail lie inside A.
fn trim_fits(e: Extent, s: &[u8], at: usize) -> bool
    requires small { Small (axes_of e) }
    requires holds { Holds at (length (axes_of e) * pair_bytes) s.now }
    ensures { result ≡ covers (axes_of e) (with_limits (axes_of e) (drop at s.now)) }
{
    covers_all(e, with_limits(e, s, at))
}

// The position of the detail lies on the axis of A.
fn slice_fits(e: Extent, k: AxisIndex, s: &[u8], at: usize) -> bool
    requires { Holds at limit_bytes s.now }
    ensures { result ≡ on_axis (axis_at k.0 (axes_of e)) (position_at at s.now) }
{
    on_axis(axis_of(e, k), position_at(s, at))
}

// The same, and B lies inside the rest of A.
fn put_fits(e: Extent, f: Extent, k: AxisIndex, s: &[u8], at: usize) -> bool
    requires { Holds at limit_bytes s.now }
    ensures { result ≡ (on_axis (axis_at k.0 (axes_of e)) (position_at at s.now)
        && covers (without k.0 (axes_of e)) (axes_of f)) }
{
    if !slice_fits(e, k, s, at) {
        return false;
    }
    covers_all(removed(e, k), f)
}

// What a move wants inside A is.
fn move_fits(m: Move, step: StepHead, a: Form, b: Form, s: &[u8]) -> bool
    requires small { Small (axes_of a.extent) }
    requires detailed { Detailed s.now step (axes_of a.extent) }
    ensures { result ≡ fits_in (Moves m) (step_in s.now step) (shape_of a) (shape_of b) }
{
    match m {
        Move::Trim => trim_fits(a.extent, s, step.at),
        Move::Slice => slice_fits(a.extent, AxisIndex(step.axis as u32), s, step.at),
        Move::Reshape => true,
        Move::Shift => true,
        Move::Rename => true,
        Move::Update => covers_all(a.extent, b.extent),
        Move::Put => put_fits(a.extent, b.extent, AxisIndex(step.axis as u32), s, step.at),
        Move::Glue => true,
    }
}

// What must lie inside A does.
pub fn fits_in(step: StepHead, a: Form, b: Form, s: &[u8]) -> bool
    requires small { Small (axes_of a.extent) }
    requires detailed { Detailed s.now step (axes_of a.extent) }
    ensures { result ≡ fits_in step.operation (step_in s.now step) (shape_of a) (shape_of b) }
{
    let op = step.operation;
    match op {
        Operation::Moves(m) => move_fits(m, step, a, b, s),
        Operation::Works(_) => true,
    }
}

// ---- the result

// Its type, A's being `kind`.
pub fn result_kind(op: Operation, kind: u8) -> u8
    ensures { result ≡ result_type op kind }
{
    match op {
        Operation::Moves(_) => kind,
        Operation::Works(w) => match w {
            Work::Pair(o) => gives_pair(o, kind),
            Work::Scalar(_, o) => gives_pair(o, kind),
            Work::Single(o) => gives_single(o, kind),
        },
    }
}

// The extent of a moved result.
fn moved_extent(m: Move, step: StepHead, e: Extent, f: Extent, s: &[u8]) -> Extent
    requires small { Small (axes_of e) }
    requires small_2 { Small (axes_of f) }
    requires detailed { Detailed s.now step (axes_of e) }
    requires axis_value { axis_in (uses (Moves m)) (length (axes_of e)) step.axis ≡ true }
    ensures { axes_of result ≡ result_axes (Moves m) (step_in s.now step) (axes_of e) (axes_of f) }
{
    match m {
        Move::Trim => with_limits(e, s, step.at),
        Move::Slice => removed(e, AxisIndex(step.axis as u32)),
        Move::Reshape => with_limits(e, s, step.at),
        Move::Shift => shifted_by(e, s, step.at),
        Move::Rename => e,
        Move::Update => e,
        Move::Put => e,
        Move::Glue => glued_along(e, f, AxisIndex(step.axis as u32)),
    }
}

// Its extent, which is judged after; e and f are those of A and B.
pub fn result_extent(step: StepHead, e: Extent, f: Extent, s: &[u8]) -> Extent
    requires small { Small (axes_of e) }
    requires small_2 { Small (axes_of f) }
    requires detailed { Detailed s.now step (axes_of e) }
    requires axis_value { axis_in (uses step.operation) (length (axes_of e)) step.axis ≡ true }
    ensures { axes_of result ≡ result_axes step.operation (step_in s.now step) (axes_of e) (axes_of f) }
{
    let op = step.operation;
    match op {
        Operation::Moves(m) => moved_extent(m, step, e, f, s),
        Operation::Works(_) => e,
    }
}

// The names of a moved result's axes; m are those of A, e is its extent.
fn moved_names(mv: Move, step: StepHead, m: [Name; AXES], e: Extent, s: &[u8]) -> [Name; AXES]
    requires { Detailed s.now step (axes_of e) }
    ensures { NamesTold (sizes_of step.version).name (Moves mv) (step_in s.now step) m e result }
{
    let v = step.version;
    match mv {
        Move::Trim => m,
        Move::Slice => without_name(m, rank_of(e), AxisIndex(step.axis as u32)),
        Move::Reshape => m,
        Move::Shift => m,
        Move::Rename => names_at(v, rank_of(e), s, step.at),
        Move::Update => m,
        Move::Put => m,
        Move::Glue => m,
    }
}

// The names of its axes.
pub fn result_names(step: StepHead, m: [Name; AXES], e: Extent, s: &[u8]) -> [Name; AXES]
    requires { Detailed s.now step (axes_of e) }
    ensures { NamesTold (sizes_of step.version).name step.operation (step_in s.now step) m e result }
{
    let op = step.operation;
    match op {
        Operation::Moves(mv) => moved_names(mv, step, m, e, s),
        Operation::Works(_) => m,
    }
}
