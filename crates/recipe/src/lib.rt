// A recipe judged as the paper does: its length, then each step in turn. The plan keeps every array that a step can name, the bundle's
// and the results: its type, extent and maximum, where its cells lie, and how many they are.
#![tactic(auto)]

pub mod operands;
pub mod steps;

ghost use Rattle.std.specs.Prelude.{◌≡◌, eqb, ◌&&◌, ◌/◌, ◌%◌, ◌<◌};
ghost use Rattle.paper.specs.Limits.{most_steps};
ghost use Rattle.paper.specs.Refusals.{between};
ghost use Rattle.recipe.specs.Whole.{empty_plan, lent, GoodArrays, Begun, PlannedAll};

use crate::operands::{in_work, no_operand, slot_of};
use crate::steps::{no_step, plan_step};
use paper::{ARRAYS, CELL_BYTES, Head, Reading, Refusal, STEPS, StepNumber, Version};
use quick::operands::IN_BUNDLE;
use refusals::{in_range, refuse};
use step::StepHead;
use versions::sizes;

// What a step can name by an operand's number: an array, and whether its cells lie in the bundle or in the work area; or nothing.
#[derive(Clone, Copy)]
pub struct Operand {
    pub found: bool,
    pub which: u8,
    pub head: Head,
}

// The bundle's version and the number of its arrays; the steps planned, the first `count` of these; the number of cells of all their
// results; and what steps can name: nothing at 0, then the arrays, and the results behind the most arrays that a bundle has.
#[derive(Clone, Copy)]
pub struct Plan {
    pub version: Version,
    pub arrays: usize,
    pub count: usize,
    pub cells: usize,
    pub steps: [StepHead; STEPS],
    pub operands: [Operand; ARRAYS + STEPS + 1],
}

// ---- no step yet

// No step planned, and nothing to name.
pub fn empty_plan(version: Version) -> Plan
    ensures { result ≡ empty_plan version }
{
    Plan {
        version,
        arrays: 0,
        count: 0,
        cells: 0,
        steps: [no_step(); STEPS],
        operands: [no_operand(false); ARRAYS + STEPS + 1],
    }
}

// No step planned yet over the bundle's arrays, whatever was planned before.
fn over_arrays(reading: Reading, plan: &mut Plan)
    requires { GoodArrays reading }
    ensures { Begun reading plan.new × (plan.new.arrays ≡ reading.count) }
{
    *plan = empty_plan(reading.version);
    while plan.arrays < reading.count {
        let j = plan.arrays;
        let next = j + 1;
        plan.operands[next] = Operand {
            found: true,
            which: IN_BUNDLE,
            head: reading.heads[j],
        };
        plan.arrays = next;
    }
}

// ---- the recipe

// A recipe of n bytes has 1 to 16 steps of so many bytes.
fn good_length(n: usize, step: usize) -> bool
    requires { 0 < step }
    ensures { result ≡ (eqb (n % step) 0 && between 1 most_steps (n / step)) }
{
    if n % step != 0 {
        return false;
    }
    in_range(n / step, STEPS)
}

// The recipe's steps planned over a bundle's arrays, in the plan that is lent, or the first refusal. A plan is large: answered, and not
// lent, it would be cleared and copied at each call on the way.
pub fn plan_recipe(reading: Reading, s: &[u8], plan: &mut Plan) -> Result<(), Refusal>
    requires { GoodArrays reading }
    ensures { PlannedAll reading s.now (lent result plan.new) }
{
    let v = reading.version;
    let z = sizes(v);
    let long = z.step;
    if !good_length(s.len(), long) {
        return Err(refuse(4, 0));
    }
    let n = s.len() / long;
    over_arrays(reading, plan);
    while plan.count < n {
        let k = plan.count;
        let next = k + 1;
        let result_at = ARRAYS + next;
        let base = k * long;
        let one = plan_step(
            plan.operands[slot_of(s[base + 1])],
            plan.operands[slot_of(s[base + 2])],
            v,
            base,
            plan.cells * CELL_BYTES,
            StepNumber(next as u32),
            s,
        )?;
        plan.steps[k] = one.step;
        plan.operands[result_at] = in_work(one.result);
        plan.cells = plan.cells + one.result.cells;
        plan.count = next;
    }
    Ok(())
}
