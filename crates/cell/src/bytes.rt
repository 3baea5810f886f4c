// The nine bytes of a cell, read and written; numbers of four and eight bytes; bytes copied.
ghost use Rattle.std.specs.Prelude.{◌≡◌, ◌+◌, ◌<◌, ◌≤◌, [], ◌∷◌, ◌++◌, length, take, drop, replicate};
ghost use Rattle.std.specs.Int.{w64};
ghost use Rattle.std.proofs.Common.{to_z, of_z};
ghost use Rattle.paper.specs.Limits.{limit_bytes, word_bytes, cell_bytes};
ghost use Rattle.paper.specs.Numbers.{le_of, le_bytes, part};
ghost use Rattle.paper.specs.Cells.{filled, cell_from, cell_of, mark_of, word_of, encode};
ghost use Rattle.laws.specs.Put.{put};

use paper::{CELL_BYTES, Cell, LIMIT_BYTES, WORD_BYTES};

// The number whose eight bytes start at `at`, the lowest first. The compiler makes a single load of it, as of a store in `put9`.
pub fn word(s: &[u8], at: usize) -> u64
    requires { at + word_bytes ≤ length s.now }
    ensures { result ≡ le_of (part at word_bytes s.now) }
{
    u64::from_le_bytes(*s[at..at + WORD_BYTES].as_array().unwrap())
}

// The bits of a word read as a signed number. The compiler makes nothing of it.
pub fn signed(n: u64) -> i64
    ensures { result ≡ to_z w64 n }
{
    n.cast_signed()
}

// The bits of a signed number.
pub fn unsigned(z: i64) -> u64
    ensures { result ≡ of_z w64 z }
{
    z.cast_unsigned()
}

// Nine bytes from `at` on: a mark, and the eight bytes of n, the lowest first.
pub fn put9(d: &mut [u8], at: usize, mark: u8, n: u64)
    requires { at + cell_bytes ≤ length d.old }
    ensures { d.new ≡ take at d.old ++ (mark ∷ le_bytes word_bytes n) ++ drop (at + cell_bytes) d.old }
{
    d[at] = mark;
    d[at + 1..at + CELL_BYTES].copy_from_slice(&n.to_le_bytes());
}

// The same at 32 bits, for limits, amounts and positions.
pub fn half(s: &[u8], at: usize) -> u32
    requires { at + limit_bytes ≤ length s.now }
    ensures { result ≡ le_of (part at limit_bytes s.now) }
{
    u32::from_le_bytes(*s[at..at + LIMIT_BYTES].as_array().unwrap())
}

pub fn put4(d: &mut [u8], at: usize, n: u32)
    requires { at + limit_bytes ≤ length d.old }
    ensures { d.new ≡ take at d.old ++ le_bytes limit_bytes n ++ drop (at + limit_bytes) d.old }
{
    d[at..at + LIMIT_BYTES].copy_from_slice(&n.to_le_bytes());
}

// The n bytes of s from `from` on, into d from `at` on. The rest of d stays. (Few bytes go sooner by a loop than by the call that
// `copy_from_slice` becomes.)
pub fn copy_bytes(s: &[u8], from: usize, d: &mut [u8], at: usize, n: usize)
    requires { (from + n ≤ length s.now) × (at + n ≤ length d.old) }
    ensures { d.new ≡ put d.old at (part from n s.now) }
{
    for k in 0..n {
        d[at + k] = s[from + k];
    }
}

// The n bytes of d from `from` on, into d from `at` on, which is not before their end. The rest of d stays.
pub fn copy_on(d: &mut [u8], from: usize, at: usize, n: usize)
    requires { (from + n ≤ at) × (at + n ≤ length d.old) }
    ensures { d.new ≡ put d.old at (part from n d.old) }
{
    for k in 0..n {
        d[at + k] = d[from + k];
    }
}

// n zeros, into d from `at` on. The rest of d stays.
pub fn clear_bytes(d: &mut [u8], at: usize, n: usize)
    requires { at + n ≤ length d.old }
    ensures { d.new ≡ put d.old at (replicate n 0) }
{
    d[at..at + n].fill(0);
}

// A filled cell of the type `kind`, from its eight bytes' number. With the sign bit taken off, the bits of a finite number
// are below those of an infinity.
pub fn from_word(kind: u8, n: u64) -> Option<Cell>
    ensures { result ≡ filled kind n }
{
    match kind {
        1 => Some(Cell::Int(signed(n))),
        2 => {
            if n % 0x8000_0000_0000_0000 < 0x7ff0_0000_0000_0000 {
                Some(Cell::Float(f64::from_bits(n)))
            } else {
                None
            }
        }
        _ => {
            if n <= 1 {
                Some(Cell::Truth(n == 1))
            } else {
                None
            }
        }
    }
}

// A cell, from its mark and its number.
pub fn from_parts(kind: u8, mark: u8, n: u64) -> Option<Cell>
    ensures { result ≡ cell_from kind mark n }
{
    if mark == 1 {
        return from_word(kind, n);
    }
    if mark == 0 {
        if n == 0 {
            return Some(Cell::Empty);
        }
    }
    None
}

// The cell whose nine bytes start at `at`, in an array of the type `kind`.
pub fn read_cell(s: &[u8], at: usize, kind: u8) -> Option<Cell>
    requires { at + cell_bytes ≤ length s.now }
    ensures { result ≡ cell_of kind (part at cell_bytes s.now) }
{
    from_parts(kind, s[at], word(s, at + 1))
}

pub fn mark_of(c: Cell) -> u8
    ensures { result ≡ mark_of c }
{
    match c {
        Cell::Empty => 0,
        Cell::Int(_) => 1,
        Cell::Float(_) => 1,
        Cell::Truth(_) => 1,
    }
}

// No cell that the engine makes holds a NaN; its number is that of `paper` all the same, so that every cell can be written.
pub fn word_of(c: Cell) -> u64
    ensures { result ≡ word_of c }
{
    match c {
        Cell::Empty => 0,
        Cell::Int(z) => unsigned(z),
        Cell::Float(x) => if x.is_nan() {
            0x7ff8_0000_0000_0000
        } else {
            x.to_bits()
        },
        Cell::Truth(b) => b as u64,
    }
}

// The nine bytes of c, from `at` on. The rest of d stays.
pub fn write_cell(d: &mut [u8], at: usize, c: Cell)
    requires { at + cell_bytes ≤ length d.old }
    ensures { d.new ≡ take at d.old ++ encode c ++ drop (at + cell_bytes) d.old }
{
    put9(d, at, mark_of(c), word_of(c));
}
