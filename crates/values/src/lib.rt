// The values of a recipe's steps, one after the other in the work area, nine bytes a cell. Operations 1 to 8 move runs of cells, a
// band of lines at a time (lay); 9 to 12 work cells out, first in a quick loop that ends at a cell that refuses, then in the loop over
// steps and cells, which begins where that ended and which a label leaves at the first cell that refuses.
#![tactic(auto)]

mod bands;

ghost use Rattle.std.specs.Prelude.{◌≡◌, ◌+◌, ◌<◌};
ghost use Rattle.paper.specs.Limits.{most_steps, most_cells};
ghost use Rattle.paper.specs.Refusals.{fault_no, refusal};
ghost use Rattle.quick.specs.Operands.{pairing as paired_as};
ghost use Rattle.quick.specs.Cells.{Workable, Ahead};
ghost use Rattle.values.specs.Turns.{cells_at, handed};
ghost use Rattle.values.specs.Runs.{Asked, AskedToMove, Filled, Started, Running, Valued};

use crate::bands::lay_band;
use cell::bytes::{word, write_cell};
use coded::{computed, pair_code, single_code};
use origin::MovedStep;
use paper::{
    ARRAYS, CELL_BYTES, Fault, Hand, Head, Move, Operation, Ordinality, Refusal, SCALAR_AT,
    StepNumber, Work,
};
use quick::codes::ahead;
use quick::operands::{Pairing, SCALAR, Source, raw_of};
use recipe::operands::slot_of;
use recipe::{Operand, Plan};
use refusals::refuse_fault;
use rows::band_of;
use step::StepHead;

// A step in its turn: what it names, and its result.
#[derive(Clone, Copy)]
pub struct Turn {
    pub step: StepHead,
    pub a: Operand,
    pub b: Operand,
    pub result: Head,
}

// How many cells of a step are there, and how to work out the others.
#[derive(Clone, Copy)]
pub struct Begun {
    pub count: usize,
    pub pairing: Pairing,
}

// Where an operand's cells lie.
fn cells_of(o: Operand) -> Source
    ensures { result ≡ cells_at o }
{
    Source {
        which: o.which,
        at: o.head.at,
    }
}

// ---- operations 9 to 12

fn paired(code: u8, scalar: u64, first: Source, second: Source) -> Pairing
    ensures { result ≡ paired_as code scalar first second }
{
    Pairing {
        code,
        scalar,
        first,
        second,
    }
}

// n cells of a step of operation 9 or 12, up to the first that refuses, by the quick loop: what the code makes of cells that lie at x and
// at y. `base` is where the result begins.
//
// The quick loop is called here and for scalars: a function with one caller becomes a part of it, and in the loop over steps the quick
// loops would have to share the registers.
fn begin_arrays(
    bundle: &[u8],
    work: &mut [u8],
    base: usize,
    n: usize,
    code: u8,
    x: Source,
    y: Source,
) -> Begun
    requires { Workable bundle.now work.old base (paired_as code 0 x y) n }
    ensures { (result.pairing ≡ paired_as code 0 x y)
        × Ahead bundle.now work.old base (paired_as code 0 x y) n result.count work.new }
{
    let pairing = paired(code, 0, x, y);
    let count = ahead(bundle, work, base, pairing, n);
    Begun { count, pairing }
}

// The same of operation 10 or 11: cells that lie at x and a scalar's number, on its hand.
fn begin_scalar(
    bundle: &[u8],
    work: &mut [u8],
    base: usize,
    n: usize,
    code: u8,
    scalar: u64,
    hand: Hand,
    x: Source,
) -> Begun
    requires { Workable bundle.now work.old base (handed hand code scalar x) n }
    ensures { (result.pairing ≡ handed hand code scalar x)
        × Ahead bundle.now work.old base (handed hand code scalar x) n result.count work.new }
{
    let all = Source {
        which: SCALAR,
        at: 0,
    };
    let pairing = match hand {
        Hand::Right => paired(code, scalar, x, all),
        Hand::Left => paired(code, scalar, all, x),
    };
    let count = ahead(bundle, work, base, pairing, n);
    Begun { count, pairing }
}

// ---- operations 1 to 8

// The cells that a step moves, as they lie, band after band.
fn move_cells(bundle: &[u8], recipe: &[u8], work: &mut [u8], m: Move, turn: Turn)
    requires { AskedToMove bundle.now recipe.now work.old m turn }
    ensures { Filled bundle.now recipe.now work.old turn turn.result.cells
        work.new }
{
    let a = cells_of(turn.a);
    let b = cells_of(turn.b);
    let base = turn.result.at;
    let n = turn.result.cells;
    let moved = MovedStep {
        m,
        step: turn.step,
        a: turn.a.head.form.extent,
        b: turn.b.head.form.extent,
        t: turn.result.form.extent,
    };
    let mut k: usize = 0;
    while k < n {
        let band = band_of(&moved, k, recipe);
        lay_band(bundle, work, base + k * CELL_BYTES, a, b, band);
        let line = band.first.length + (band.second.length + band.third.length);
        k += band.lines * line;
    }
}

// ---- the first cells of a step

// The cells of a step that are moved, or worked out ahead by the quick loop. No cell of them refuses.
fn begin_cells(bundle: &[u8], recipe: &[u8], work: &mut [u8], turn: Turn) -> Begun
    requires { Asked bundle.now recipe.now work.old turn }
    ensures { Started bundle.now recipe.now work.old turn result work.new }
{
    let step = turn.step;
    let op = step.operation;
    match op {
        Operation::Moves(m) => {
            move_cells(bundle, recipe, work, m, turn);
            let x = cells_of(turn.a);
            return Begun {
                count: turn.result.cells,
                pairing: paired(0, 0, x, x),
            };
        }
        Operation::Works(w) => {
            let kind = turn.a.head.form.kind;
            let x = cells_of(turn.a);
            let base = turn.result.at;
            let n = turn.result.cells;
            match w {
                Work::Pair(o) => {
                    let y = cells_of(turn.b);
                    return begin_arrays(bundle, work, base, n, pair_code(kind, o), x, y);
                }
                Work::Scalar(hand, o) => {
                    let scalar = word(recipe, step.at + SCALAR_AT);
                    return begin_scalar(bundle, work, base, n, pair_code(kind, o), scalar, hand, x);
                }
                Work::Single(o) => {
                    return begin_arrays(bundle, work, base, n, single_code(kind, o), x, x);
                }
            }
        }
    }
}

// ---- all steps

// The refusal of cell k, from 0, of step s, from 0.
fn refusal_of(fault: Fault, s: usize, k: usize) -> Refusal
    requires { (s < most_steps) × (k < most_cells) }
    ensures { result ≡ refusal (fault_no fault) (s + 1) (k + 1) }
{
    let step = StepNumber((s + 1) as u32);
    let o = Ordinality((k + 1) as u32);
    refuse_fault(fault, step.0, o.0)
}

// Each step's values in turn: those moved or worked out ahead, then those worked out one by one. The first cell in row-major order that
// refuses leaves both loops.
pub fn run_steps(bundle: &[u8], recipe: &[u8], plan: Plan, work: &mut [u8]) -> Result<(), Refusal>
    requires { Running bundle.now recipe.now plan work.old }
    ensures { Valued bundle.now recipe.now plan work.old result work.new }
{
    let m = plan.count;
    let mut out = Ok(());
    'steps: for s in 0..m {
        let step = plan.steps[s];
        let a = plan.operands[slot_of(step.a)];
        let b = plan.operands[slot_of(step.b)];
        let last = plan.operands[ARRAYS + (s + 1)];
        let result = last.head;
        let base = result.at;
        let n = result.cells;
        let begun = begin_cells(bundle, recipe, work, Turn { step, a, b, result });
        'cells: for k in begun.count..n {
            let done = &work[..base];
            let x = raw_of(bundle, done, begun.pairing.first, begun.pairing.scalar, k);
            let y = raw_of(bundle, done, begun.pairing.second, begun.pairing.scalar, k);
            let got = computed(begun.pairing.code, x.mark, x.bits, y.mark, y.bits);
            match got {
                Ok(c) => write_cell(work, base + k * CELL_BYTES, c),
                Err(fault) => {
                    out = Err(refusal_of(fault, s, k));
                    break 'steps;
                }
            }
        }
    }
    out
}
