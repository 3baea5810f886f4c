// The six totals of a bundle array. Each goes over the cells in row-major order and skips the empty ones; the loop carries the total of
// the cells before, by value.
#![tactic(auto)]

ghost use Rattle.std.specs.Prelude.{◌≡◌, ℕ};
ghost use Rattle.std.specs.Float.{nan};
ghost use Rattle.std.specs.List.{FoldsTo};
ghost use Rattle.paper.specs.Operators.{answered};
ghost use Rattle.paper.specs.Totals.{filled_from, below, best_of, int_sum, float_sum, totals?, total_of, totals};
ghost use Rattle.totals.specs.Cells.{Lying, cells_at, tally_of, tally_true, counted};
ghost use Rattle.totals.specs.Best.{beats_of, better_of};
ghost use Rattle.totals.specs.Sums.{ExactNext, MeanNext, Summed, as_total, made_of};

use cell::means::{Mean, mean_average, mean_none, mean_sum, mean_with};
use cell::sums::{Exact, exact_answer, exact_none, exact_with};
use operators::logic::{is_empty, is_truth};
use operators::operators::lt;
use paper::{BOOLEAN, Cell, FLOAT, Fault, INT, Refusal, Total, Totalled};
use refer::{choose, held_cell};
use refusals::{refuse, refuse_at, refuse_fault};

// ---- the cells one after the other

// What comes of going over the cells: `next` makes each value from the one before and a cell.
fn over_cells<T, F: Fn(T, Cell) -> T>(
    s: &[u8],
    at: usize,
    kind: u8,
    n: usize,
    first: T,
    next: F,
) -> T
    requires lying { Lying at n s.now }
    requires called { F.IsAlwaysCallable next }
    ensures { FoldsTo (λ t c r. F.post next t c r) first (cells_at s.now at kind n) result }
{
    let mut t = first;
    for i in 0..n {
        t = next(t, held_cell(s, at, kind, i));
    }
    t
}

// ---- counts

// 1 for a cell that is TRUE.
fn tally_true(c: Cell) -> u32
    ensures { result ≡ tally_true c }
{
    if is_truth(true, c) {
        return 1;
    }
    0
}

// The same, or 1 for a filled cell.
fn tally(trues: bool, c: Cell) -> u32
    ensures { result ≡ tally_of trues c }
{
    if trues {
        return tally_true(c);
    }
    if is_empty(c) {
        return 0;
    }
    1
}

// How many cells are TRUE, or filled.
fn count_cells(s: &[u8], at: usize, kind: u8, n: usize, trues: bool) -> u32
    requires { Lying at n s.now }
    ensures { result ≡ counted trues (cells_at s.now at kind n) }
{
    let mut count: u32 = 0;
    for i in 0..n {
        count += tally(trues, held_cell(s, at, kind, i));
    }
    count
}

// ---- smallest and largest

// a is below b.
fn is_below(a: Cell, b: Cell) -> bool
    ensures { result ≡ below a b }
{
    let answer = lt(a, b);
    match answer {
        Ok(c) => is_truth(true, c),
        Err(_) => false,
    }
}

// c beats b: it is smaller, or larger where the largest is asked for.
fn beats(largest: bool, c: Cell, b: Cell) -> bool
    ensures { result ≡ beats_of largest c b }
{
    if largest {
        return is_below(b, c);
    }
    is_below(c, b)
}

// The best of the cells before, b, or c where it is filled and beats it.
fn better(largest: bool, c: Cell, b: Cell) -> Cell
    ensures { result ≡ better_of largest c b }
{
    if is_empty(c) {
        return b;
    }
    if is_empty(b) {
        return c;
    }
    if beats(largest, c, b) {
        return c;
    }
    b
}

// The smallest or the largest of the filled cells, the first of equals; empty where none is filled.
fn best_cell(s: &[u8], at: usize, kind: u8, n: usize, largest: bool) -> Cell
    requires { Lying at n s.now }
    ensures { result ≡ best_of (beats_of largest) (filled_from 1 (cells_at s.now at kind n)) }
{
    over_cells(s, at, kind, n, Cell::Empty, |b, c| better(largest, c, b))
}

// ---- INT sum

// The exact total with one cell more.
fn exact_next(t: Exact, c: Cell) -> Exact
    ensures { ExactNext t c result }
{
    match c {
        Cell::Empty => t,
        Cell::Int(z) => exact_with(t, z),
        Cell::Float(_) => exact_with(t, 0),
        Cell::Truth(_) => exact_with(t, 0),
    }
}

// The exact total of the filled cells, or 12.
fn int_sum(s: &[u8], at: usize, kind: u8, n: usize) -> Result<Cell, Fault>
    requires { Lying at n s.now }
    ensures { (k : ℕ) → answered k 0 result ≡ int_sum k (filled_from 1 (cells_at s.now at kind n)) }
{
    exact_answer(over_cells(s, at, kind, n, exact_none(), exact_next))
}

// ---- FLOAT sum and average

// What a cell that is no FLOAT has for a FLOAT number: none.
fn no_number() -> f64
    ensures { result ≡ nan }
{
    0.0 / 0.0
}

// The running sum with one cell more.
fn mean_next(m: Mean, c: Cell) -> Option<Mean>
    ensures { MeanNext m c result }
{
    match c {
        Cell::Empty => Some(m),
        Cell::Int(_) => mean_with(m, no_number()),
        Cell::Float(x) => mean_with(m, x),
        Cell::Truth(_) => mean_with(m, no_number()),
    }
}

// The running sum of all filled cells, or the ordinality of the cell whose addition fails.
fn float_run(s: &[u8], at: usize, kind: u8, n: usize) -> Result<Mean, usize>
    requires { Lying at n s.now }
    ensures { Summed s.now at kind n result }
{
    let mut mean = mean_none();
    for i in 0..n {
        mean = mean_next(mean, held_cell(s, at, kind, i)).ok_or(i + 1)?;
    }
    Ok(mean)
}

// ---- the totals

// The INT sum of array k.
fn int_total(s: &[u8], at: usize, kind: u8, n: usize, k: u32) -> Result<Totalled, Refusal>
    requires { Lying at n s.now }
    ensures { result ≡ as_total (int_sum k (filled_from 1 (cells_at s.now at kind n))) }
{
    let answer = int_sum(s, at, kind, n);
    match answer {
        Ok(c) => Ok(Totalled::Is(c)),
        Err(fault) => Err(refuse_fault(fault, k, 0)),
    }
}

// The FLOAT sum of array k, or its average.
fn float_total(
    s: &[u8],
    at: usize,
    kind: u8,
    n: usize,
    k: u32,
    mean: bool,
) -> Result<Totalled, Refusal>
    requires { Lying at n s.now }
    ensures { result ≡ as_total (float_sum (made_of mean) k (filled_from 1 (cells_at s.now at kind n))) }
{
    match float_run(s, at, kind, n) {
        Ok(run) => {
            if mean {
                return Ok(Totalled::Is(mean_average(run)));
            }
            Ok(Totalled::Is(mean_sum(run)))
        }
        Err(o) => Err(refuse_at(12, k, o as u32)),
    }
}

// A total is to be had of a type.
fn has_total(which: Total, kind: u8) -> bool
    ensures { result ≡ totals? which kind }
{
    match which {
        Total::Filled => true,
        Total::Trues => kind == BOOLEAN,
        Total::Smallest => kind != BOOLEAN,
        Total::Largest => kind != BOOLEAN,
        Total::Sum => kind != BOOLEAN,
        Total::Average => kind == FLOAT,
    }
}

// Each total of array k, of a type, with its cells.
fn total_of(
    s: &[u8],
    at: usize,
    kind: u8,
    n: usize,
    k: u32,
    which: Total,
) -> Result<Totalled, Refusal>
    requires { Lying at n s.now }
    ensures { result ≡ total_of which k kind (cells_at s.now at kind n) }
{
    match which {
        Total::Filled => Ok(Totalled::Count(count_cells(s, at, kind, n, false))),
        Total::Trues => Ok(Totalled::Count(count_cells(s, at, kind, n, true))),
        Total::Smallest => Ok(Totalled::Is(best_cell(s, at, kind, n, false))),
        Total::Largest => Ok(Totalled::Is(best_cell(s, at, kind, n, true))),
        Total::Sum => {
            if kind == INT {
                int_total(s, at, kind, n, k)
            } else {
                float_total(s, at, kind, n, k, false)
            }
        },
        Total::Average => float_total(s, at, kind, n, k, true),
    }
}

// A total of array k of a bundle: the bundle's own refusal, then 4, 7 and 12.
pub fn total(s: &[u8], k: u32, which: Total) -> Result<Totalled, Refusal>
    ensures { result ≡ totals s.now k which }
{
    let head = choose(s, k)?;
    let kind = head.form.kind;
    if !has_total(which, kind) {
        return Err(refuse(7, k));
    }
    total_of(s, head.at, kind, head.cells, k, which)
}
