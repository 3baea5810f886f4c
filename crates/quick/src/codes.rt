// The quick loop entered once for each code, by type, and once for each of the ways in which operands are arrays or scalars.
ghost use Rattle.std.specs.Prelude.{◌≡◌};
ghost use Rattle.quick.specs.Cells.{Workable, Ahead};

use crate::cells::quick_cells;
use crate::operands::{Pairing, SCALAR};
use coded::{FLOAT_CODES, SINGLE_CODES, TRUTH_CODES};

// By which operand is a scalar; `code` is q's own. Two scalars make no step.
fn sided(bundle: &[u8], work: &mut [u8], base: usize, q: Pairing, n: usize, code: u8) -> usize
    requires workable { Workable bundle.now work.old base q n }
    requires code_value { code ≡ q.code }
    ensures { Ahead bundle.now work.old base q n result work.new }
{
    let a = q.first;
    let b = q.second;
    if a.which == SCALAR {
        if b.which == SCALAR {
            return 0;
        }
        return quick_cells(bundle, work, base, q, n, true, false, code);
    }
    if b.which == SCALAR {
        return quick_cells(bundle, work, base, q, n, false, true, code);
    }
    quick_cells(bundle, work, base, q, n, false, false, code)
}

fn ints(bundle: &[u8], work: &mut [u8], base: usize, q: Pairing, n: usize) -> usize
    requires { Workable bundle.now work.old base q n }
    ensures { Ahead bundle.now work.old base q n result work.new }
{
    let code = q.code;
    match code {
        1 => sided(bundle, work, base, q, n, 1),
        2 => sided(bundle, work, base, q, n, 2),
        3 => sided(bundle, work, base, q, n, 3),
        4 => sided(bundle, work, base, q, n, 4),
        5 => sided(bundle, work, base, q, n, 5),
        6 => sided(bundle, work, base, q, n, 6),
        7 => sided(bundle, work, base, q, n, 7),
        8 => sided(bundle, work, base, q, n, 8),
        9 => sided(bundle, work, base, q, n, 9),
        10 => sided(bundle, work, base, q, n, 10),
        11 => sided(bundle, work, base, q, n, 11),
        _ => 0,
    }
}

fn floats(bundle: &[u8], work: &mut [u8], base: usize, q: Pairing, n: usize) -> usize
    requires { Workable bundle.now work.old base q n }
    ensures { Ahead bundle.now work.old base q n result work.new }
{
    let code = q.code;
    match code {
        17 => sided(bundle, work, base, q, n, 17),
        18 => sided(bundle, work, base, q, n, 18),
        19 => sided(bundle, work, base, q, n, 19),
        20 => sided(bundle, work, base, q, n, 20),
        22 => sided(bundle, work, base, q, n, 22),
        23 => sided(bundle, work, base, q, n, 23),
        24 => sided(bundle, work, base, q, n, 24),
        25 => sided(bundle, work, base, q, n, 25),
        26 => sided(bundle, work, base, q, n, 26),
        27 => sided(bundle, work, base, q, n, 27),
        _ => 0,
    }
}

fn truths(bundle: &[u8], work: &mut [u8], base: usize, q: Pairing, n: usize) -> usize
    requires { Workable bundle.now work.old base q n }
    ensures { Ahead bundle.now work.old base q n result work.new }
{
    let code = q.code;
    match code {
        38 => sided(bundle, work, base, q, n, 38),
        39 => sided(bundle, work, base, q, n, 39),
        44 => sided(bundle, work, base, q, n, 44),
        45 => sided(bundle, work, base, q, n, 45),
        _ => 0,
    }
}

fn singles(bundle: &[u8], work: &mut [u8], base: usize, q: Pairing, n: usize) -> usize
    requires { Workable bundle.now work.old base q n }
    ensures { Ahead bundle.now work.old base q n result work.new }
{
    let code = q.code;
    match code {
        53 => sided(bundle, work, base, q, n, 53),
        54 => sided(bundle, work, base, q, n, 54),
        57 => sided(bundle, work, base, q, n, 57),
        58 => sided(bundle, work, base, q, n, 58),
        63 => sided(bundle, work, base, q, n, 63),
        65 => sided(bundle, work, base, q, n, 65),
        66 => sided(bundle, work, base, q, n, 66),
        67 => sided(bundle, work, base, q, n, 67),
        71 => sided(bundle, work, base, q, n, 71),
        75 => sided(bundle, work, base, q, n, 75),
        79 => sided(bundle, work, base, q, n, 79),
        _ => 0,
    }
}

// The first cells of a step, up to the one that refuses; and how many they are.
pub fn ahead(bundle: &[u8], work: &mut [u8], base: usize, q: Pairing, n: usize) -> usize
    requires { Workable bundle.now work.old base q n }
    ensures { Ahead bundle.now work.old base q n result work.new }
{
    if q.code < FLOAT_CODES {
        return ints(bundle, work, base, q, n);
    }
    if q.code < TRUTH_CODES {
        return floats(bundle, work, base, q, n);
    }
    if q.code < SINGLE_CODES {
        return truths(bundle, work, base, q, n);
    }
    singles(bundle, work, base, q, n)
}
