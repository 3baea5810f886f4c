// Coded operators, for the loop over cells: one number for type and operator, operands as mark and word, of cells that were judged, and
// the cells built in the arm of the code's match. A pair code is 16 * (type - 1) + operator, a single code 48 + 4 * operator + type.
#![tactic(auto)]

ghost use Rattle.std.specs.Prelude.{◌≡◌, ◌≤◌, ◌<◌};
ghost use Rattle.paper.specs.Limits.{INT, FLOAT, BOOLEAN};
ghost use Rattle.coded.specs.Codes.{standing, NoNan, Judged, answered, pair_code_of, single_code_of};

use operators::numbers::{pair_number, single_number};
use operators::operators::{
    absolute, add, and, div, emptiness, eq, falseness, ge, gt, le, lt, modulo, mul, ne, negate,
    negation, or, sub, trueness, unknownness,
};
use operators::types::{takes_pair, takes_single};
use paper::{BOOLEAN, Cell, Fault, PairOp, SingleOp};

// The codes of INT operators are below FLOAT_CODES, those of FLOAT below TRUTH_CODES, those of BOOLEAN below SINGLE_CODES.
pub const FLOAT_CODES: u8 = 16;

pub const TRUTH_CODES: u8 = 32;

pub const SINGLE_CODES: u8 = 48;

pub fn int_cell(mark: u8, n: u64) -> Cell
    ensures { result ≡ standing INT mark n }
{
    if mark % 2 == 0 {
        Cell::Empty
    } else {
        Cell::Int(cell::bytes::signed(n))
    }
}

pub fn float_cell(mark: u8, n: u64) -> Cell
    requires { NoNan n }
    ensures { result ≡ standing FLOAT mark n }
{
    if mark % 2 == 0 {
        Cell::Empty
    } else {
        Cell::Float(f64::from_bits(n))
    }
}

pub fn truth_cell(mark: u8, n: u64) -> Cell
    ensures { result ≡ standing BOOLEAN mark n }
{
    if mark % 2 == 0 {
        Cell::Empty
    } else {
        Cell::Truth(n % 2 == 1)
    }
}

// The code of a type and an operator; 0 where the operator doesn't take the type.
pub fn pair_code(kind: u8, op: PairOp) -> u8
    ensures { result ≡ pair_code_of kind op }
{
    if kind == 0 {
        return 0;
    }
    if BOOLEAN < kind {
        return 0;
    }
    if takes_pair(op, kind) {
        (kind - 1) * 16 + pair_number(op)
    } else {
        0
    }
}

pub fn single_code(kind: u8, op: SingleOp) -> u8
    ensures { result ≡ single_code_of kind op }
{
    if kind == 0 {
        return 0;
    }
    if BOOLEAN < kind {
        return 0;
    }
    if takes_single(op, kind) {
        48 + single_number(op) * 4 + kind
    } else {
        0
    }
}

// ---- what a code's operator gives at two cells, of which a single operator sees the first; a number that is no code gives an empty
// cell. The words of FLOAT cells, once judged, are no NaN's.

pub fn ints(code: u8, ma: u8, na: u64, mb: u8, nb: u64) -> Result<Cell, Fault>
    requires code_bound { code < 16 }
    requires judged { Judged code na nb }
    ensures { result ≡ answered code ma na mb nb }
{
    let a = int_cell(ma, na);
    let b = int_cell(mb, nb);
    match code {
        1 => add(a, b),
        2 => sub(a, b),
        3 => mul(a, b),
        4 => div(a, b),
        5 => modulo(a, b),
        6 => eq(a, b),
        7 => ne(a, b),
        8 => lt(a, b),
        9 => le(a, b),
        10 => gt(a, b),
        11 => ge(a, b),
        _ => Ok(Cell::Empty),
    }
}

pub fn floats(code: u8, ma: u8, na: u64, mb: u8, nb: u64) -> Result<Cell, Fault>
    requires le_code { (16 ≤ code) × (code < 32) }
    requires judged { Judged code na nb }
    ensures { result ≡ answered code ma na mb nb }
{
    match code {
        17 => add(float_cell(ma, na), float_cell(mb, nb)),
        18 => sub(float_cell(ma, na), float_cell(mb, nb)),
        19 => mul(float_cell(ma, na), float_cell(mb, nb)),
        20 => div(float_cell(ma, na), float_cell(mb, nb)),
        22 => eq(float_cell(ma, na), float_cell(mb, nb)),
        23 => ne(float_cell(ma, na), float_cell(mb, nb)),
        24 => lt(float_cell(ma, na), float_cell(mb, nb)),
        25 => le(float_cell(ma, na), float_cell(mb, nb)),
        26 => gt(float_cell(ma, na), float_cell(mb, nb)),
        27 => ge(float_cell(ma, na), float_cell(mb, nb)),
        _ => Ok(Cell::Empty),
    }
}

pub fn truths(code: u8, ma: u8, na: u64, mb: u8, nb: u64) -> Result<Cell, Fault>
    requires le_code { (32 ≤ code) × (code < 48) }
    requires judged { Judged code na nb }
    ensures { result ≡ answered code ma na mb nb }
{
    let a = truth_cell(ma, na);
    let b = truth_cell(mb, nb);
    match code {
        38 => eq(a, b),
        39 => ne(a, b),
        44 => and(a, b),
        45 => or(a, b),
        _ => Ok(Cell::Empty),
    }
}

pub fn singles(code: u8, ma: u8, na: u64, mb: u8, nb: u64) -> Result<Cell, Fault>
    requires le_code { 48 ≤ code }
    requires judged { Judged code na nb }
    ensures { result ≡ answered code ma na mb nb }
{
    match code {
        53 => negate(int_cell(ma, na)),
        54 => negate(float_cell(ma, na)),
        57 => absolute(int_cell(ma, na)),
        58 => absolute(float_cell(ma, na)),
        63 => negation(truth_cell(ma, na)),
        65 => emptiness(int_cell(ma, na)),
        66 => emptiness(float_cell(ma, na)),
        67 => emptiness(truth_cell(ma, na)),
        71 => trueness(truth_cell(ma, na)),
        75 => falseness(truth_cell(ma, na)),
        79 => unknownness(truth_cell(ma, na)),
        _ => Ok(Cell::Empty),
    }
}

// By the code's type.
pub fn computed(code: u8, ma: u8, na: u64, mb: u8, nb: u64) -> Result<Cell, Fault>
    requires { Judged code na nb }
    ensures { result ≡ answered code ma na mb nb }
{
    if code < FLOAT_CODES {
        return ints(code, ma, na, mb, nb);
    }
    if code < TRUTH_CODES {
        return floats(code, ma, na, mb, nb);
    }
    if code < SINGLE_CODES {
        return truths(code, ma, na, mb, nb);
    }
    singles(code, ma, na, mb, nb)
}
