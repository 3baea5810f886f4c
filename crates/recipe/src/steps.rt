// One step judged: its operation, its operands, its tests in the paper's order, its result.
ghost use Rattle.std.specs.Prelude.{◌≡◌, ◌+◌, ◌≤◌, length};
ghost use Rattle.paper.specs.Limits.{sizes_of};
ghost use Rattle.paper.specs.Recipe.{step_tests as paper_tests};
ghost use Rattle.paper.specs.Answers.{axes_of, shape_of};
ghost use Rattle.positions.specs.Runs.{Holds};
ghost use Rattle.extent.specs.Judged.{Small};
ghost use Rattle.step.specs.Steps.{detail_of, step_in, Detailed};
ghost use Rattle.step.specs.Using.{used_by};
ghost use Rattle.recipe.specs.Stepped.{Fitting, no_step, Finishing, Finished, Judged, PlannedAs};

use crate::Operand;
use crate::operands::used_b;
use extent::{good_extent, rank_of};
use paper::{AxisIndex, Form, HEAD_BYTES, Head, Move, Operation, Refusal, StepNumber, Version};
use refusals::{refuse, refuse_at};
use shape::starred;
use step::StepHead;
use step::agreeing::difference;
use step::operation::operation_of;
use step::tests::{fits_in, result_extent, result_kind, result_names, types_fit};
use step::unused::{Used, axis_in, unused_zero, used_by};

// A step that passed its tests, and its result, whose maximum is `*` everywhere.
#[derive(Clone, Copy)]
pub struct Stepped {
    pub step: StepHead,
    pub result: Head,
}

// What stands where there is no step.
pub fn no_step() -> StepHead
    ensures { result ≡ no_step }
{
    StepHead {
        operation: Operation::Moves(Move::Trim),
        a: 0,
        b: 0,
        axis: 0,
        at: 0,
        version: Version::One,
    }
}

// What step k asks of A and B, in the order 4 (unused bytes), 5, 7, 8, 6; `used` is what it uses.
fn step_tests(
    step: StepHead,
    used: Used,
    a: Form,
    b: Form,
    k: StepNumber,
    s: &[u8],
) -> Result<(), Refusal>
    requires small { Small (axes_of a.extent) }
    requires detailed { Detailed s.now step (axes_of a.extent) }
    requires used_value { used ≡ used_by step.operation (sizes_of step.version).name (length (axes_of a.extent)) }
    ensures { result ≡ paper_tests (sizes_of step.version) k.0 (step_in s.now step) (shape_of a) (shape_of b) }
{
    if !unused_zero(used, step, s) {
        return Err(refuse(4, k.0));
    }
    if !axis_in(used, rank_of(a.extent), step.axis) {
        return Err(refuse(5, k.0));
    }
    if !types_fit(step, used.b, a.kind, b.kind, s) {
        return Err(refuse(7, k.0));
    }
    let op = step.operation;
    let axis = AxisIndex(step.axis as u32);
    let m = a.names;
    let n = b.names;
    let d = difference(op, axis, m, a.extent, n, b.extent);
    if d != 0 {
        return Err(refuse_at(8, k.0, d));
    }
    if !fits_in(step, a, b, s) {
        return Err(refuse(6, k.0));
    }
    Ok(())
}

// The step with its result, whose cells begin at byte `at` of the work area; or 9. It passed its other tests.
fn finish(
    step: StepHead,
    a: Form,
    b: Form,
    at: usize,
    k: StepNumber,
    s: &[u8],
) -> Result<Stepped, Refusal>
    requires { Finishing s.now step a b }
    ensures { Finished s.now step a b at k.0 result }
{
    let extent = result_extent(step, a.extent, b.extent, s);
    let old = a.names;
    let names = result_names(step, old, a.extent, s);
    let Some(cells) = good_extent(names, extent) else {
        return Err(refuse(9, k.0));
    };
    if rank_of(extent) == 0 {
        return Err(refuse(9, k.0));
    }
    let op = step.operation;
    let kind = result_kind(op, a.kind);
    let maximum = starred(extent);
    let form = Form {
        kind,
        names,
        extent,
        maximum,
    };
    Ok(Stepped {
        step,
        result: Head { form, at, cells },
    })
}

// A step whose operation is known, over what stands under its operands' numbers.
fn judge(
    step: StepHead,
    a: Operand,
    b: Operand,
    at: usize,
    k: StepNumber,
    s: &[u8],
) -> Result<Stepped, Refusal>
    requires fitting { Fitting step.version (axes_of a.head.form.extent) }
    requires fitting_2 { Fitting step.version (axes_of b.head.form.extent) }
    requires holds { Holds step.at (detail_of step) s.now }
    ensures { Judged s.now step a b at k.0 result }
{
    let op = step.operation;
    let v = step.version;
    let used = used_by(op, v, rank_of(a.head.form.extent));
    let second = used_b(used.b, b);
    if !a.found {
        return Err(refuse(4, k.0));
    }
    if !second.found {
        return Err(refuse(4, k.0));
    }
    step_tests(step, used, a.head.form, second.head.form, k, s)?;
    finish(step, a.head.form, second.head.form, at, k, s)
}

// Step k, from the byte `base` of a recipe of version v on.
pub fn plan_step(
    a: Operand,
    b: Operand,
    v: Version,
    base: usize,
    at: usize,
    k: StepNumber,
    s: &[u8],
) -> Result<Stepped, Refusal>
    requires fitting { Fitting v (axes_of a.head.form.extent) }
    requires fitting_2 { Fitting v (axes_of b.head.form.extent) }
    requires v_in_bounds { base + (sizes_of v).step ≤ length s.now }
    ensures { PlannedAs s.now base v a b at k.0 result }
{
    let Some(operation) = operation_of(s[base], s[base + HEAD_BYTES]) else {
        return Err(refuse(4, k.0));
    };
    let step = StepHead {
        operation,
        a: s[base + 1],
        b: s[base + 2],
        axis: s[base + 3],
        at: base + HEAD_BYTES,
        version: v,
    };
    judge(step, a, b, at, k, s)
}
