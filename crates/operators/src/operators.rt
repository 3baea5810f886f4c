// Each operator on cells, as the paper has it; `pair` and `single` choose by the operator. An operator of numbers is a match on what
// the two cells are: what it says of truth values and of unlike types is never met, as its types were tested before.
ghost use Rattle.std.specs.Prelude.{◌≡◌, ℤ, Bool, Float};
ghost use Rattle.paper.specs.Operators.{Answer, two, worked, compared, pair_cell, single_cell};
ghost use Rattle.paper.specs.declared.PairOp.TheVariants.{Add, Sub, Mul, Div, Mod, Eq, Ne, Lt, Le, Gt, Ge, And, Or};
ghost use Rattle.paper.specs.declared.SingleOp.TheVariants.{Negate, Absolute, Not, IsEmpty, IsTrue, IsFalse, IsUnknown};

use crate::pairs::both;
use cell::floats::{float_abs, float_add, float_div, float_mul, float_sub};
use cell::ints::{int_abs, int_add, int_div, int_eq, int_mod, int_mul, int_neg, int_sub};
use paper::{Cell, Fault, PairOp, SingleOp, Two};

// Arithmetic: what `ints` or `floats` makes of two numbers; empty where a cell is empty.
fn worked<I: FnOnce(i64, i64) -> Result<Cell, Fault>, F: FnOnce(f64, f64) -> Result<Cell, Fault>>(
    a: Cell,
    b: Cell,
    ints: I,
    floats: F,
) -> Result<Cell, Fault>
    requires { ((x y : _) → I.pre ints x y) × ((x y : _) → F.pre floats x y) }
    ensures { (f : ℤ → ℤ → Answer) (g : Float → Float → Answer) → ((x y : _) (r : Answer) → I.post ints x y r → r ≡ f x y)
        → ((x y : _) (r : Answer) → F.post floats x y r → r ≡ g x y) → result ≡ worked f g (two a b) }
{
    match both(a, b) {
        Two::Ints(x, y) => ints(x, y),
        Two::Floats(x, y) => floats(x, y),
        _ => Ok(Cell::Empty),
    }
}

// A comparison, by the test of two cells of one type; empty where a cell is empty.
fn compared<
    I: FnOnce(i64, i64) -> bool,
    F: FnOnce(f64, f64) -> bool,
    T: FnOnce(bool, bool) -> bool,
>(a: Cell, b: Cell, ints: I, floats: F, truths: T) -> Result<Cell, Fault>
    requires { ((x y : _) → I.pre ints x y) × ((x y : _) → F.pre floats x y) × ((x y : _) → T.pre truths x y) }
    ensures { (f : ℤ → ℤ → Bool) (g : Float → Float → Bool) (h : Bool → Bool → Bool) → ((x y : _) (r : Bool) → I.post ints x y r → r ≡ f x y)
        → ((x y : _) (r : Bool) → F.post floats x y r → r ≡ g x y) → ((x y : _) (r : Bool) → T.post truths x y r → r ≡ h x y)
        → result ≡ compared f g h (two a b) }
{
    Ok(match both(a, b) {
        Two::Ints(x, y) => Cell::Truth(ints(x, y)),
        Two::Floats(x, y) => Cell::Truth(floats(x, y)),
        Two::Truths(x, y) => Cell::Truth(truths(x, y)),
        _ => Cell::Empty, // of two empty cells too
    })
}

pub fn add(a: Cell, b: Cell) -> Result<Cell, Fault>
    ensures { result ≡ pair_cell Add a b }
{
    worked(a, b, int_add, float_add)
}

pub fn sub(a: Cell, b: Cell) -> Result<Cell, Fault>
    ensures { result ≡ pair_cell Sub a b }
{
    worked(a, b, int_sub, float_sub)
}

pub fn mul(a: Cell, b: Cell) -> Result<Cell, Fault>
    ensures { result ≡ pair_cell Mul a b }
{
    worked(a, b, int_mul, float_mul)
}

pub fn div(a: Cell, b: Cell) -> Result<Cell, Fault>
    ensures { result ≡ pair_cell Div a b }
{
    worked(a, b, int_div, float_div)
}

pub fn modulo(a: Cell, b: Cell) -> Result<Cell, Fault>
    ensures { result ≡ pair_cell Mod a b }
{
    worked(a, b, int_mod, |_, _| Ok(Cell::Empty))
}

pub fn eq(a: Cell, b: Cell) -> Result<Cell, Fault>
    ensures { result ≡ pair_cell Eq a b }
{
    compared(a, b, int_eq, |x, y| x == y, |x, y| x == y)
}

pub fn ne(a: Cell, b: Cell) -> Result<Cell, Fault>
    ensures { result ≡ pair_cell Ne a b }
{
    compared(a, b, |x, y| !int_eq(x, y), |x, y| x != y, |x, y| x != y)
}

// These two are not told by `compared`: by it the quick loop has a branch at each mark, and here it has none.
pub fn lt(a: Cell, b: Cell) -> Result<Cell, Fault>
    ensures { result ≡ pair_cell Lt a b }
{
    Ok(match both(a, b) {
        Two::Ints(x, y) => Cell::Truth(x < y),
        Two::Floats(x, y) => Cell::Truth(x < y),
        Two::Truths(_, _) => Cell::Truth(false),
        _ => Cell::Empty,
    })
}

pub fn le(a: Cell, b: Cell) -> Result<Cell, Fault>
    ensures { result ≡ pair_cell Le a b }
{
    Ok(match both(a, b) {
        Two::Ints(x, y) => Cell::Truth(x <= y),
        Two::Floats(x, y) => Cell::Truth(x <= y),
        Two::Truths(_, _) => Cell::Truth(false),
        _ => Cell::Empty,
    })
}

pub fn gt(a: Cell, b: Cell) -> Result<Cell, Fault>
    ensures { result ≡ pair_cell Gt a b }
{
    lt(b, a)
}

pub fn ge(a: Cell, b: Cell) -> Result<Cell, Fault>
    ensures { result ≡ pair_cell Ge a b }
{
    le(b, a)
}

pub fn negate(c: Cell) -> Result<Cell, Fault>
    ensures { result ≡ single_cell Negate c }
{
    match c {
        Cell::Int(x) => int_neg(x),
        Cell::Float(x) => Ok(Cell::Float(-x)),
        _ => Ok(Cell::Empty),
    }
}

pub fn absolute(c: Cell) -> Result<Cell, Fault>
    ensures { result ≡ single_cell Absolute c }
{
    match c {
        Cell::Int(x) => int_abs(x),
        Cell::Float(x) => Ok(Cell::Float(float_abs(x))),
        _ => Ok(Cell::Empty),
    }
}

pub fn and(a: Cell, b: Cell) -> Result<Cell, Fault>
    ensures { result ≡ pair_cell And a b }
{
    Ok(crate::logic::decided_by(false, a, b))
}

pub fn or(a: Cell, b: Cell) -> Result<Cell, Fault>
    ensures { result ≡ pair_cell Or a b }
{
    Ok(crate::logic::decided_by(true, a, b))
}

pub fn negation(c: Cell) -> Result<Cell, Fault>
    ensures { result ≡ single_cell Not c }
{
    Ok(crate::logic::not_cell(c))
}

pub fn emptiness(c: Cell) -> Result<Cell, Fault>
    ensures { result ≡ single_cell IsEmpty c }
{
    Ok(Cell::Truth(crate::logic::is_empty(c)))
}

pub fn trueness(c: Cell) -> Result<Cell, Fault>
    ensures { result ≡ single_cell IsTrue c }
{
    Ok(Cell::Truth(crate::logic::is_truth(true, c)))
}

pub fn falseness(c: Cell) -> Result<Cell, Fault>
    ensures { result ≡ single_cell IsFalse c }
{
    Ok(Cell::Truth(crate::logic::is_truth(false, c)))
}

// Unknown is what an empty cell is.
pub fn unknownness(c: Cell) -> Result<Cell, Fault>
    ensures { result ≡ single_cell IsUnknown c }
{
    emptiness(c)
}

// cell, operator, cell
pub fn pair(op: PairOp, a: Cell, b: Cell) -> Result<Cell, Fault>
    ensures { result ≡ pair_cell op a b }
{
    match op {
        PairOp::Add => add(a, b),
        PairOp::Sub => sub(a, b),
        PairOp::Mul => mul(a, b),
        PairOp::Div => div(a, b),
        PairOp::Mod => modulo(a, b),
        PairOp::Eq => eq(a, b),
        PairOp::Ne => ne(a, b),
        PairOp::Lt => lt(a, b),
        PairOp::Le => le(a, b),
        PairOp::Gt => gt(a, b),
        PairOp::Ge => ge(a, b),
        PairOp::And => and(a, b),
        PairOp::Or => or(a, b),
    }
}

// operator, cell
pub fn single(op: SingleOp, c: Cell) -> Result<Cell, Fault>
    ensures { result ≡ single_cell op c }
{
    match op {
        SingleOp::Negate => negate(c),
        SingleOp::Absolute => absolute(c),
        SingleOp::Not => negation(c),
        SingleOp::IsEmpty => emptiness(c),
        SingleOp::IsTrue => trueness(c),
        SingleOp::IsFalse => falseness(c),
        SingleOp::IsUnknown => unknownness(c),
    }
}
