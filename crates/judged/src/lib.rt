// An array's cells judged: eight at a time while all are cells, without a branch on what they hold, so that blanks among them cost no time;
// then one after the other up to the first that is none.
#![tactic(auto)]

ghost use Rattle.std.specs.Prelude.{◌≡◌, ◌+◌, ◌*◌, ◌≤◌, true, length, drop, is_some};
ghost use Rattle.paper.specs.Limits.{cell_bytes};
ghost use Rattle.paper.specs.Numbers.{part};
ghost use Rattle.paper.specs.Cells.{cell_of, filled};
ghost use Rattle.laws.specs.Judged.{first_bad};
ghost use Rattle.judged.specs.Looks.{Sound, FourAt, EightAt, Ahead};

use cell::bytes::{read_cell, word};
use paper::CELL_BYTES;

// ---- cells without a branch

// What was seen of some cells: their marks, what should be 0 of their numbers, and whether each number fits its type.
#[derive(Clone, Copy)]
pub struct Look {
    pub marks: u64,
    pub left: u64,
    pub fit: bool,
}

// A filled cell's number is one of the type `kind`.
fn is_filled(kind: u8, n: u64) -> bool
    ensures { result ≡ is_some (filled kind n) }
{
    match kind {
        1 => true,
        2 => n % 0x8000_0000_0000_0000 < 0x7ff0_0000_0000_0000,
        _ => n <= 1,
    }
}

// A cell's number where its mark is 0. (Where it is 1, nothing is left of it.)
fn unmarked(mark: u64, n: u64) -> u64
    ensures { mark ≡ 0 → result ≡ n }
{
    mark.wrapping_sub(1) & n
}

// One cell.
fn look_at(s: &[u8], at: usize, kind: u8) -> Look
    requires { at + cell_bytes ≤ length s.now }
    ensures { Sound result → is_some (cell_of kind (part at cell_bytes s.now)) ≡ true }
{
    let mark = u64::from(s[at]);
    let n = word(s, at + 1);
    Look {
        marks: mark,
        left: unmarked(mark, n),
        fit: is_filled(kind, n),
    }
}

// These and those.
fn joined(a: Look, b: Look) -> Look
    ensures { Sound result → Sound a × Sound b }
{
    Look {
        marks: a.marks | b.marks,
        left: a.left | b.left,
        fit: a.fit & b.fit,
    }
}

// All of them are cells: no mark is over 1, and nothing is left of a number.
fn is_sound(l: Look) -> bool
    ensures { result ≡ true → Sound l }
{
    ((l.marks / 2 | l.left) == 0) & l.fit
}

// The four cells from `at` on.
fn four_at(s: &[u8], at: usize, kind: u8) -> Look
    requires { at + 4 * cell_bytes ≤ length s.now }
    ensures { Sound result → FourAt kind s.now at }
{
    let first = joined(look_at(s, at, kind), look_at(s, at + CELL_BYTES, kind));
    let second = joined(
        look_at(s, at + 2 * CELL_BYTES, kind),
        look_at(s, at + 3 * CELL_BYTES, kind),
    );
    joined(first, second)
}

// The eight cells from `at` on are cells of the type `kind`.
fn eight_at(s: &[u8], at: usize, kind: u8) -> bool
    requires { at + 8 * cell_bytes ≤ length s.now }
    ensures { result ≡ true → EightAt kind s.now at }
{
    is_sound(joined(four_at(s, at, kind), four_at(s, at + 4 * CELL_BYTES, kind)))
}

// How many of n cells from `at` on are cells, in eights, up to one that may be none.
fn eights_ahead(s: &[u8], at: usize, kind: u8, n: usize) -> usize
    requires { at + n * cell_bytes ≤ length s.now }
    ensures { Ahead kind s.now at n result }
{
    let turns = n / 8;
    for t in 0..turns {
        if !eight_at(s, at + t * 8 * CELL_BYTES, kind) {
            return t * 8;
        }
    }
    turns * 8
}

// The same, with a loop of its own for each type: the compiler then has no test of it in the loop.
fn ahead(s: &[u8], at: usize, kind: u8, n: usize) -> usize
    requires { at + n * cell_bytes ≤ length s.now }
    ensures { Ahead kind s.now at n result }
{
    match kind {
        1 => eights_ahead(s, at, 1, n),
        2 => eights_ahead(s, at, 2, n),
        3 => eights_ahead(s, at, 3, n),
        _ => 0,
    }
}

// ---- one after the other

// The nine bytes at `at` are a cell of the type `kind`.
fn cell_at(s: &[u8], at: usize, kind: u8) -> bool
    requires { at + cell_bytes ≤ length s.now }
    ensures { result ≡ is_some (cell_of kind (part at cell_bytes s.now)) }
{
    read_cell(s, at, kind).is_some()
}

// The ordinality of the first of n cells of the type `kind` from `at` on that is none, or 0.
pub fn first_bad(s: &[u8], at: usize, kind: u8, n: usize) -> usize
    requires { at + n * cell_bytes ≤ length s.now }
    ensures { (result ≡ first_bad kind 1 n (drop at s.now)) × (result ≤ n) }
{
    for i in ahead(s, at, kind, n)..n {
        if !cell_at(s, at + i * CELL_BYTES, kind) {
            return i + 1;
        }
    }
    0
}
