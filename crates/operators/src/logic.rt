// Truth values that may be unknown, as SQL has them. AND and OR are one function: AND is decided by FALSE, OR by TRUE.
ghost use Rattle.std.specs.Prelude.{◌≡◌, true, false, ◌||◌};
ghost use Rattle.paper.specs.Cells.{is_truth};
ghost use Rattle.paper.specs.Operators.{not_cell, empty_cell};
ghost use Rattle.operators.specs.Logic.{decided_by};

use paper::Cell;

// Whether c is the truth value v, and nothing else.
pub fn is_truth(v: bool, c: Cell) -> bool
    ensures { result ≡ is_truth v c }
{
    match c {
        Cell::Empty => false,
        Cell::Int(_) => false,
        Cell::Float(_) => false,
        Cell::Truth(b) => v == b,
    }
}

// Whether c is a truth value.
fn is_known(c: Cell) -> bool
    ensures { result ≡ (is_truth true c || is_truth false c) }
{
    is_truth(true, c) | is_truth(false, c)
}

// v where one is v, its opposite where both are that, else unknown: where both are known and none is v, both are its opposite. No test
// waits for another, so that a loop over cells has no branch here.
pub fn decided_by(v: bool, a: Cell, b: Cell) -> Cell
    ensures { result ≡ decided_by v a b }
{
    let one = is_truth(v, a) | is_truth(v, b);
    let both = is_known(a) & is_known(b);
    if one | both {
        Cell::Truth(one == v)
    } else {
        Cell::Empty
    }
}

pub fn not_cell(c: Cell) -> Cell
    ensures { result ≡ not_cell c }
{
    if is_truth(true, c) {
        return Cell::Truth(false);
    }
    if is_truth(false, c) {
        return Cell::Truth(true);
    }
    Cell::Empty
}

pub fn is_empty(c: Cell) -> bool
    ensures { result ≡ empty_cell c }
{
    cell::bytes::mark_of(c) == 0
}
