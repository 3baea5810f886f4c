// Moved cells laid down in the work area as they lie in their array: a run of cells by one copy, a cell by its mark and its word, or blanks
// as zeros.
#![tactic(auto)]

ghost use Rattle.std.specs.Prelude.{◌≡◌, ◌+◌, ◌*◌, ◌≤◌, length};
ghost use Rattle.paper.specs.Limits.{cell_bytes};
ghost use Rattle.paper.specs.Numbers.{part};
ghost use Rattle.laws.specs.Put.{put};
ghost use Rattle.lay.specs.Lay.{last_cells, Brings, Brought, Lays, RunLaid};

use cell::bytes::{clear_bytes, copy_bytes, copy_on, put9, word};
use origin::Origin;
use paper::CELL_BYTES;
use quick::operands::{IN_WORK, Source};
use rows::Run;

// The bytes that a turn of the compiled copy loop takes.
const TURN: usize = 32;
// The cells at the end of a row that are copied one by one.
const LAST: usize = 4;

// One cell of s, whose nine bytes begin at `from`, to byte `at` of d.
fn copy_nine(s: &[u8], from: usize, d: &mut [u8], at: usize)
    requires { (from + cell_bytes ≤ length s.now) × (at + cell_bytes ≤ length d.old) }
    ensures { d.new ≡ put d.old at (part from cell_bytes s.now) }
{
    put9(d, at, s[from], word(s, from + 1));
}

// The same within d, where it ends at or before `at`.
fn nine_on(d: &mut [u8], from: usize, at: usize)
    requires { (from + cell_bytes ≤ at) × (at + cell_bytes ≤ length d.old) }
    ensures { d.new ≡ put d.old at (part from cell_bytes d.old) }
{
    let done = &d[..at];
    let mark = done[from];
    let bits = word(done, from + 1);
    put9(d, at, mark, bits);
}

// The four cells of s from byte `from` on, to byte `at` of d.
fn copy_four(s: &[u8], from: usize, d: &mut [u8], at: usize)
    requires { (from + 4 * cell_bytes ≤ length s.now) × (at + 4 * cell_bytes ≤ length d.old) }
    ensures { d.new ≡ put d.old at (part from (4 * cell_bytes) s.now) }
{
    copy_nine(s, from, d, at);
    copy_nine(s, from + CELL_BYTES, d, at + CELL_BYTES);
    copy_nine(s, from + 2 * CELL_BYTES, d, at + 2 * CELL_BYTES);
    copy_nine(s, from + 3 * CELL_BYTES, d, at + 3 * CELL_BYTES);
}

// The same within d, where they end at or before `at`.
fn four_on(d: &mut [u8], from: usize, at: usize)
    requires { (from + 4 * cell_bytes ≤ at) × (at + 4 * cell_bytes ≤ length d.old) }
    ensures { d.new ≡ put d.old at (part from (4 * cell_bytes) d.old) }
{
    nine_on(d, from, at);
    nine_on(d, from + CELL_BYTES, at + CELL_BYTES);
    nine_on(d, from + 2 * CELL_BYTES, at + 2 * CELL_BYTES);
    nine_on(d, from + 3 * CELL_BYTES, at + 3 * CELL_BYTES);
}

// n cells, four or more: whole turns by the loop, then the last four cells, of which some may be there already. So no bytes are left that
// the loop would copy one by one.
fn copy_row(s: &[u8], from: usize, d: &mut [u8], at: usize, n: usize)
    requires { (last_cells ≤ n) × (from + n * cell_bytes ≤ length s.now) × (at + n * cell_bytes ≤ length d.old) }
    ensures { d.new ≡ put d.old at (part from (n * cell_bytes) s.now) }
{
    let turns = n * CELL_BYTES / TURN;
    let last = (n - LAST) * CELL_BYTES;
    copy_bytes(s, from, d, at, turns * TURN);
    copy_four(s, from + last, d, at + last);
}

// The same within d, where they end at or before `at`.
fn row_on(d: &mut [u8], from: usize, at: usize, n: usize)
    requires { (last_cells ≤ n) × (from + n * cell_bytes ≤ at) × (at + n * cell_bytes ≤ length d.old) }
    ensures { d.new ≡ put d.old at (part from (n * cell_bytes) d.old) }
{
    let turns = n * CELL_BYTES / TURN;
    let last = (n - LAST) * CELL_BYTES;
    copy_on(d, from, at, turns * TURN);
    four_on(d, from + last, at + last);
}

// Cell i of an operand, to byte `at` of the work area.
fn bring_one(bundle: &[u8], work: &mut [u8], at: usize, from: Source, i: usize)
    requires { Brings bundle.now work.old at from i 1 }
    ensures { Brought bundle.now work.old at from i 1 work.new }
{
    let start = from.at + i * CELL_BYTES;
    if from.which == IN_WORK {
        nine_on(work, start, at);
        return;
    }
    copy_nine(bundle, start, work, at);
}

// n cells of an operand, from its cell i on, to byte `at` of the work area. Where they are alone on their line, four or more go as a row.
fn bring(bundle: &[u8], work: &mut [u8], at: usize, from: Source, i: usize, n: usize, alone: bool)
    requires { Brings bundle.now work.old at from i n }
    ensures { Brought bundle.now work.old at from i n work.new }
{
    if n == 1 {
        bring_one(bundle, work, at, from, i);
        return;
    }
    let start = from.at + i * CELL_BYTES;
    let long = n * CELL_BYTES;
    if from.which == IN_WORK {
        if alone && n >= LAST {
            row_on(work, start, at, n);
            return;
        }
        copy_on(work, start, at, long);
        return;
    }
    if alone && n >= LAST {
        copy_row(bundle, start, work, at, n);
        return;
    }
    copy_bytes(bundle, start, work, at, long);
}

// The cells of a run that has some, on a line whose cells of A are x later than the run tells, those of B y. Whether the run is alone on
// its line decides only how they are copied.
pub fn lay_cells(
    bundle: &[u8],
    work: &mut [u8],
    at: usize,
    a: Source,
    b: Source,
    run: Run,
    x: usize,
    y: usize,
    alone: bool,
)
    requires lays { Lays bundle.now work.old at a b run x y }
    requires le_length { 1 ≤ run.length }
    ensures { RunLaid bundle.now work.old at a b run x y work.new }
{
    let n = run.length;
    let o = run.from;
    match o {
        Origin::Nowhere => {
            clear_bytes(work, at, n * CELL_BYTES);
            return;
        }
        Origin::FromA(i) => {
            bring(bundle, work, at, a, i + x, n, alone);
            return;
        }
        Origin::FromB(i) => {
            bring(bundle, work, at, b, i + y, n, alone);
            return;
        }
    }
}

// The same of any run. The test is apart from the work, so that a run of no cells costs no call.
pub fn lay_run(
    bundle: &[u8],
    work: &mut [u8],
    at: usize,
    a: Source,
    b: Source,
    run: Run,
    x: usize,
    y: usize,
)
    requires { Lays bundle.now work.old at a b run x y }
    ensures { RunLaid bundle.now work.old at a b run x y work.new }
{
    if run.length == 0 {
        return;
    }
    lay_cells(bundle, work, at, a, b, run, x, y, false);
}
