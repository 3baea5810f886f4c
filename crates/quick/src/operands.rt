// Where operands lie, and a cell of one as it lies: in the bundle, among the results so far, or one scalar that stands for all.
ghost use Rattle.std.specs.Prelude.{◌≡◌, eqb};
ghost use Rattle.quick.specs.Operands.{scalar_side, bytes_in, mark_from, word_from, mark_at, word_at, Lies, Reaches};

use cell::bytes::word;
use paper::CELL_BYTES;

// Where an operand's cells lie: in the bundle or in the work area, from a byte on; or one scalar stands for all.
#[derive(Clone, Copy)]
pub struct Source {
    pub which: u8,
    pub at: usize,
}

pub const IN_BUNDLE: u8 = 0;

pub const IN_WORK: u8 = 1;

pub const SCALAR: u8 = 2;

// Operations 9 to 12 as the loop over cells wants them: one code for type and operator, and two operands.
#[derive(Clone, Copy)]
pub struct Pairing {
    pub code: u8,
    pub scalar: u64,
    pub first: Source,
    pub second: Source,
}

// A cell as it lies: its mark and its word.
#[derive(Clone, Copy)]
pub struct Raw {
    pub mark: u8,
    pub bits: u64,
}

// The bundle, or the results so far.
fn side_of<'a>(bundle: &'a [u8], done: &'a [u8], which: u8) -> &'a [u8]
    ensures { result.now ≡ bytes_in which bundle.now done.now }
{
    if which == IN_WORK { done } else { bundle }
}

// The cell that lies off bytes after an operand's first, of which the caller tells whether it is a scalar for all: told by a constant, the
// loop has no test of it.
pub fn raw_told<'a>(
    bundle: &'a [u8],
    done: &'a [u8],
    from: Source,
    scalar: u64,
    all: bool,
    off: usize,
) -> Raw
    requires lies { Lies bundle.now done.now from off }
    requires scalar_side_value { eqb from.which scalar_side ≡ all }
    ensures { (result.mark ≡ mark_from bundle.now done.now from off)
        × (result.bits ≡ word_from bundle.now done.now scalar from off) }
{
    if all {
        return Raw {
            mark: 1,
            bits: scalar,
        };
    }
    let side = side_of(bundle, done, from.which);
    let at = from.at + off;
    Raw {
        mark: side[at],
        bits: word(side, at + 1),
    }
}

// Cell k of an operand.
pub fn raw_of<'a>(bundle: &'a [u8], done: &'a [u8], from: Source, scalar: u64, k: usize) -> Raw
    requires { Reaches bundle.now done.now from k }
    ensures { (result.mark ≡ mark_at bundle.now done.now from k)
        × (result.bits ≡ word_at bundle.now done.now scalar from k) }
{
    if from.which == SCALAR {
        return raw_told(bundle, done, from, scalar, true, 0);
    }
    raw_told(bundle, done, from, scalar, false, k * CELL_BYTES)
}
