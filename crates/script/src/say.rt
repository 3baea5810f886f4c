// Numbers, extents, cells and refusals, printed.
ghost use Rattle.std.specs.Prelude.{◌≤◌};

use crate::line::at_most;
use cell::bytes::{half, read_cell, word_of};
use paper::{CELL_BYTES, Cell, LIMIT_BYTES, PAIR_BYTES, Refusal, Version};
use std::io;
use versions::sizes;

// Where an axis has its limits and its maximum's, in bytes after its name.
pub const LIMITS: usize = 0;

pub const MAXIMUM: usize = PAIR_BYTES;

// The bytes of an axis or its name at most, in any version.
const WIDEST: usize = 32;

pub fn say(rt: &impl Print, text: &[u8]) -> io::Result<()> {
    rt.write_all(text)
}

pub fn say_number(rt: &impl Print, n: u64) -> io::Result<()> {
    rt.print(n)
}

pub fn say_byte(rt: &impl Print, b: u8) -> io::Result<()> {
    let byte = [b];
    say(rt, &byte)
}

// A word and a number.
pub fn say_count(rt: &impl Print, word: &[u8], n: u64) -> io::Result<()> {
    say(rt, word)?;
    say_number(rt, n)
}

// A number that is not 0, between two words.
pub fn say_some(rt: &impl Print, before: &[u8], n: u32, after: &[u8]) -> io::Result<()> {
    if n != 0 {
        say_count(rt, before, n as u64)?;
        say(rt, after)?;
    }
    Ok(())
}

pub fn say_refusal(rt: &impl Print, r: Refusal) -> io::Result<()> {
    say_count(rt, b"refused ", r.number as u64)?;
    say_count(rt, b" ", r.place as u64)?;
    say_count(rt, b" ", r.ordinality as u64)?;
    say_byte(rt, b'\n')
}

// A signed number from its 64 bits, or from its 32.
fn say_int(rt: &impl Print, bits: u64) -> io::Result<()> {
    if bits < 0x8000_0000_0000_0000 {
        say_number(rt, bits)
    } else {
        say_byte(rt, b'-')?;
        say_number(rt, 0xffff_ffff_ffff_ffff - bits + 1)
    }
}

pub fn say_signed(rt: &impl Print, bits: u32) -> io::Result<()> {
    if bits < 0x8000_0000 {
        say_number(rt, bits as u64)
    } else {
        say_byte(rt, b'-')?;
        say_number(rt, 0x1_0000_0000 - bits as u64)
    }
}

// ---- cells

fn say_truth(rt: &impl Print, t: bool) -> io::Result<()> {
    if t {
        say(rt, b"TRUE")
    } else {
        say(rt, b"FALSE")
    }
}

// A FLOAT is printed as the 16 digits of its bits.
pub fn say_cell(rt: &impl Print, c: Cell) -> io::Result<()> {
    match c {
        Cell::Empty => say(rt, b"empty"),
        Cell::Int(_) => say_int(rt, word_of(c)),
        Cell::Float(_) => print!(rt; "{:016x}", word_of(c)),
        Cell::Truth(t) => say_truth(rt, t),
    }
}

// The k-th cell, from 0.
fn say_one(rt: &impl Print, kind: u8, cells: &[u8], k: usize) -> io::Result<()> {
    if k < cells.len() / CELL_BYTES {
        match read_cell(cells, k * CELL_BYTES, kind) {
            Some(c) => {
                say_byte(rt, b' ')?;
                say_cell(rt, c)?;
            }
            None => say(rt, b" bad")?,
        }
    }
    Ok(())
}

// Cells `from` up to `to`, counted from 0, and the end of the line.
pub fn say_cells(
    rt: &impl Print,
    kind: u8,
    cells: &[u8],
    from: usize,
    to: usize,
) -> io::Result<()> {
    for k in from..to {
        say_one(rt, kind, cells, k)?;
    }
    say_byte(rt, b'\n')
}

// ---- extents, from the bytes of axes

// A name of so many bytes, but for its padding.
fn say_name(rt: &impl Print, s: &[u8], at: usize, name: usize) -> io::Result<()> {
    say_byte(rt, b' ')?;
    for letter in s.iter().skip(at).take(name) {
        if *letter != 0 {
            say_byte(rt, *letter)?;
        }
    }
    Ok(())
}

// Two limits of an axis.
fn say_limits(rt: &impl Print, s: &[u8], at: usize) -> io::Result<()> {
    if at < s.len() && 2 * LIMIT_BYTES <= s.len() - at {
        say_byte(rt, b'(')?;
        say_signed(rt, half(s, at))?;
        say_byte(rt, b':')?;
        say_signed(rt, half(s, at + LIMIT_BYTES))?;
        say_byte(rt, b')')?;
    }
    Ok(())
}

// The bytes of so many axes of a version, of at most six.
pub fn axes_bytes(v: Version, n: usize) -> usize
    ensures { result ≤ 192 }
{
    at_most(n, paper::AXES) * at_most(sizes(v).axis, WIDEST)
}

// The k-th axis, from 0, of those of a version that begin at byte `at`: its name, and the limits that are so many bytes after it.
fn say_axis(
    rt: &impl Print,
    s: &[u8],
    at: usize,
    k: usize,
    v: Version,
    limits: usize,
) -> io::Result<()> {
    if at < 0x1_0000_0000 {
        let name = at_most(sizes(v).name, WIDEST);
        let here = at + axes_bytes(v, k);
        say_name(rt, s, here, name)?;
        say_limits(rt, s, here + name + at_most(limits, WIDEST))?;
    }
    Ok(())
}

pub fn say_axes(
    rt: &impl Print,
    s: &[u8],
    at: usize,
    rank: usize,
    v: Version,
    limits: usize,
) -> io::Result<()> {
    for k in 0..at_most(rank, paper::AXES) {
        say_axis(rt, s, at, k, v, limits)?;
    }
    Ok(())
}
