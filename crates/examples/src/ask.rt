// Recipes run and listed, with what is answered on the rest of the line.
use cell::bytes::half;
use paper::{Foreseen, LIMIT_BYTES, Listed, Ordinality, Version};
use script::arrays::{number_of, version_of};
use script::desk::WHOLE_HEAD;
use script::line::at_most;
use script::say::{
    LIMITS, say, say_axes, say_byte, say_cells, say_count, say_refusal, say_signed, say_some,
};
use std::io;

// A row's bytes at most, and up to four rows.
const ROW: usize = LIMIT_BYTES + paper::AXES * LIMIT_BYTES;

const ROWS: usize = 4 * ROW;

// The last result of a recipe that was run: its extent, from a head of the bundle's version, and its cells.
fn show_foreseen(
    rt: &impl Print,
    v: Version,
    head: &[u8; WHOLE_HEAD],
    last: Foreseen,
    work: &[u8],
) -> io::Result<()> {
    say_axes(rt, head, 2, last.axes as usize, v, LIMITS)?;
    if last.cells <= last.total {
        say_cells(
            rt,
            last.kind,
            work,
            (last.total - last.cells) as usize,
            last.total as usize,
        )?;
    }
    Ok(())
}

fn show_last(rt: &impl Print, bundle: &[u8], steps: &[u8], work: &[u8]) -> io::Result<()> {
    let mut head = [0u8; WHOLE_HEAD];
    let _ = run::extent(bundle, steps, &mut head);
    match run::plan(bundle, steps) {
        Ok(last) => show_foreseen(rt, version_of(bundle), &head, last, work),
        Err(r) => say_refusal(rt, r),
    }
}

pub fn show_run(rt: &impl Print, bundle: &[u8], steps: &[u8], work: &mut [u8]) -> io::Result<()> {
    match run::run(bundle, steps, work) {
        Ok(_) => show_last(rt, bundle, steps, work),
        Err(r) => {
            say_byte(rt, b' ')?;
            say_refusal(rt, r)
        }
    }
}

// How many cells a run in a work area of so many bytes has.
pub fn show_area(rt: &impl Print, bundle: &[u8], steps: &[u8], work: &mut [u8]) -> io::Result<()> {
    say_count(rt, b"work area of ", work.len() as u64)?;
    say(rt, b" bytes: ")?;
    let answer = run::run(bundle, steps, work);
    say_some(rt, b"done, ", number_of(rt, answer)?, b" cells\n")
}

// The row of so many positions that begins at byte `at`.
fn say_row(rt: &impl Print, rows: &[u8; ROWS], at: usize, rank: usize) -> io::Result<()> {
    if at <= ROWS - ROW {
        say_count(rt, b", ", half(rows, at) as u64)?;
        for j in 1..=at_most(rank, paper::AXES) {
            say_byte(rt, b' ')?;
            say_signed(rt, half(rows, at + j * LIMIT_BYTES))?;
        }
    }
    Ok(())
}

// The first four of n rows of so many positions.
fn say_rows(rt: &impl Print, rows: &[u8; ROWS], n: u32, rank: usize) -> io::Result<()> {
    let size = LIMIT_BYTES + at_most(rank, paper::AXES) * LIMIT_BYTES;
    for k in 0..at_most(n as usize, 4) {
        say_row(rt, rows, k * size, rank)?;
    }
    Ok(())
}

// How many rows were written, where to go on, and up to four rows of so many positions.
fn say_listed(rt: &impl Print, rows: &[u8; ROWS], listed: Listed, rank: usize) -> io::Result<()> {
    let next = listed.next;
    say_count(rt, b" found ", listed.written as u64)?;
    say_count(rt, b", next ", next.0 as u64)?;
    say_rows(rt, rows, listed.written, rank)?;
    say_byte(rt, b'\n')
}

// A page of up to four rows, or more where they are shorter than there is room for.
pub fn show_page(
    rt: &impl Print,
    bundle: &[u8],
    steps: &[u8],
    start: u32,
    work: &mut [u8],
) -> io::Result<()> {
    let mut rows = [0u8; ROWS];
    match run::page_rows(bundle, steps, work, Ordinality(start), &mut rows) {
        Ok(paged) => say_listed(rt, &rows, paged.listed, paged.axes),
        Err(r) => {
            say_byte(rt, b' ')?;
            say_refusal(rt, r)
        }
    }
}
