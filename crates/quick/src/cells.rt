// The one loop. Called with constants for the code and for which operand is a scalar, the compiler makes a tight loop of each call.
ghost use Rattle.std.specs.Prelude.{◌≡◌};
ghost use Rattle.coded.specs.Codes.{Judged, answered};
ghost use Rattle.quick.specs.Operands.{Sides};
ghost use Rattle.quick.specs.Cells.{Workable, Ahead};

use crate::operands::{Pairing, Raw, raw_told};
use cell::bytes::write_cell;
use coded::{FLOAT_CODES, SINGLE_CODES, TRUTH_CODES, floats, ints, singles, truths};
use paper::{CELL_BYTES, Cell, Fault};

// What a code gives at two cells as they lie. The four are called here as well as by `computed`: a function with one caller becomes a part
// of it, and a part that large is never put in line in a loop.
fn worked(code: u8, a: Raw, b: Raw) -> Result<Cell, Fault>
    requires { Judged code a.bits b.bits }
    ensures { result ≡ answered code a.mark a.bits b.mark b.bits }
{
    if code < FLOAT_CODES {
        return ints(code, a.mark, a.bits, b.mark, b.bits);
    }
    if code < TRUTH_CODES {
        return floats(code, a.mark, a.bits, b.mark, b.bits);
    }
    if code < SINGLE_CODES {
        return truths(code, a.mark, a.bits, b.mark, b.bits);
    }
    singles(code, a.mark, a.bits, b.mark, b.bits)
}

// The first cells of a step, up to the one that refuses; and how many they are. `code` is q's own, `left` and `right` tell which of its
// operands is a scalar. The loop counts bytes, which all that it reads and writes are found by.
pub fn quick_cells(
    bundle: &[u8],
    work: &mut [u8],
    base: usize,
    q: Pairing,
    n: usize,
    left: bool,
    right: bool,
    code: u8,
) -> usize
    requires workable { Workable bundle.now work.old base q n }
    requires sides { Sides q left right }
    requires code_value { code ≡ q.code }
    ensures { Ahead bundle.now work.old base q n result work.new }
{
    let end = n * CELL_BYTES;
    let mut off: usize = 0;
    while off < end {
        let done = &work[..base];
        let a = raw_told(bundle, done, q.first, q.scalar, left, off);
        let b = raw_told(bundle, done, q.second, q.scalar, right, off);
        let got = worked(code, a, b);
        match got {
            Ok(c) => write_cell(work, base + off, c),
            Err(_) => return off / CELL_BYTES,
        }
        off += CELL_BYTES;
    }
    n
}
