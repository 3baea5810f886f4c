// Questions about a bundle and its arrays, with what is answered on the rest of the line.
use crate::desk::put_words;
use crate::line::Words;
use crate::parts::{first, first_lent};
use crate::say::{
    LIMITS, MAXIMUM, axes_bytes, say, say_axes, say_byte, say_cell, say_cells, say_count,
    say_number, say_refusal, say_some,
};
use bundle::no_head;
use paper::{AxisIndex, CELL_BYTES, Cell, HALF_NAME, Head, Ordinality, Refusal, Totalled, Version};
use refer::choose;
use std::io;

// The bytes of a JSON text and of a coordinate at most: of one position more than there may be.
const TEXT: usize = 64;

const COORDINATE: usize = 28;

// ---- numbers

// The number that was asked for; or 0, and the refusal is printed.
pub fn number_of(rt: &impl Print, answer: Result<u32, Refusal>) -> io::Result<u32> {
    match answer {
        Ok(n) => Ok(n),
        Err(r) => {
            say_refusal(rt, r)?;
            Ok(0)
        }
    }
}

// ---- arrays

// How many there are.
fn show_read(rt: &impl Print, bundle: &[u8]) -> io::Result<()> {
    match bundle::read(bundle) {
        Ok(reading) => {
            say_count(rt, b"arrays ", reading.count as u64)?;
            say_byte(rt, b'\n')
        }
        Err(r) => say_refusal(rt, r),
    }
}

// The version of a bundle; 1 where it is refused.
pub fn version_of(bundle: &[u8]) -> Version {
    match bundle::read(bundle) {
        Ok(reading) => reading.version,
        Err(_) => Version::One,
    }
}

// The head of array k; of no array where it is refused.
pub fn head_of(bundle: &[u8], k: u32) -> Head {
    choose(bundle, k).unwrap_or(no_head())
}

// The axes of an array are the bytes before its cells.
fn axes_at(v: Version, head: Head) -> usize {
    let bytes = axes_bytes(v, extent::rank_of(head.form.extent));
    if head.at < bytes {
        return 0;
    }
    head.at - bytes
}

// Array k: its extent and its cells.
fn show_array(rt: &impl Print, bundle: &[u8], k: u32) -> io::Result<()> {
    let v = version_of(bundle);
    let head = head_of(bundle, k);
    let at = head.at;
    say_axes(
        rt,
        bundle,
        axes_at(v, head),
        extent::rank_of(head.form.extent),
        v,
        LIMITS,
    )?;
    if at <= bundle.len() {
        say_cells(rt, head.form.kind, &bundle[at..], 0, head.cells)?;
    }
    Ok(())
}

// Its extent, or its maximum: the limits that are so many bytes after an axis's name.
fn show_limits(rt: &impl Print, bundle: &[u8], k: u32, limits: usize) -> io::Result<()> {
    let v = version_of(bundle);
    let head = head_of(bundle, k);
    say_axes(
        rt,
        bundle,
        axes_at(v, head),
        extent::rank_of(head.form.extent),
        v,
        limits,
    )?;
    say_byte(rt, b'\n')
}

fn show_reference(rt: &impl Print, bundle: &[u8], k: u32, coordinate: &[u8]) -> io::Result<()> {
    match c_asked::refer_bytes(bundle, k, coordinate) {
        Ok(c) => {
            say_cell(rt, c)?;
            say_byte(rt, b'\n')
        }
        Err(r) => say_refusal(rt, r),
    }
}

fn show_totalled(rt: &impl Print, t: Totalled) -> io::Result<()> {
    match t {
        Totalled::Count(n) => say_number(rt, n as u64)?,
        Totalled::Is(c) => say_cell(rt, c)?,
    }
    say_byte(rt, b'\n')
}

fn show_total(rt: &impl Print, bundle: &[u8], k: u32, which: u32) -> io::Result<()> {
    match c_asked::total_asked(bundle, k, which) {
        Ok(t) => show_totalled(rt, t),
        Err(r) => say_refusal(rt, r),
    }
}

fn show_seen(rt: &impl Print, seen: Option<Cell>) -> io::Result<()> {
    match seen {
        Some(c) => say_cell(rt, c)?,
        None => say_byte(rt, b'.')?,
    }
    say_byte(rt, b' ')
}

// What a walk sees at a place, and the place after it.
fn show_walk_step(rt: &impl Print, bundle: &[u8], k: u32, place: u32) -> io::Result<u32> {
    let step = refer::walk_step(bundle, k, Ordinality(place));
    match step.answer {
        Ok(seen) => show_seen(rt, seen)?,
        Err(r) => say_refusal(rt, r)?,
    }
    let next = step.place;
    Ok(next.0)
}

// So many steps of a walk from the first cell on.
fn show_walk(rt: &impl Print, bundle: &[u8], k: u32, n: u32) -> io::Result<()> {
    let mut place = 1;
    for _ in 0..n {
        place = show_walk_step(rt, bundle, k, place)?;
    }
    say_byte(rt, b'\n')
}

// Array k as JSON, as the call answers it and leaves the buffer. Dots are bytes not written to.
fn show_json(rt: &impl Print, bundle: &[u8], k: u32, out: &mut [u8]) -> io::Result<()> {
    let answer = json_write::write(bundle, k, out);
    say_some(rt, b"", number_of(rt, answer)?, b"\n")?;
    say(rt, out)?;
    say_byte(rt, b'\n')
}

// ---- glued arrays

// An array's cells in its bundle.
fn cells_of(bundle: &[u8], head: Head) -> &[u8] {
    let at = head.at;
    if at <= bundle.len() && head.cells <= (bundle.len() - at) / CELL_BYTES {
        return &bundle[at..at + head.cells * CELL_BYTES];
    }
    &[]
}

// The refusal beside a part, if there is one.
fn say_said(rt: &impl Print, number: u32, place: u32, ordinality: u32) -> io::Result<()> {
    if number != 0 {
        say_count(rt, b"refused ", number as u64)?;
        say_count(rt, b" ", place as u64)?;
        say_count(rt, b" ", ordinality as u64)?;
        say_byte(rt, b'\n')?;
    }
    Ok(())
}

// The cells from ordinality o on of arrays 1 and 2 glued on an axis, up to where the other begins, in the version told.
fn show_glued(rt: &impl Print, version: u32, bundle: &[u8], axis: u32, o: u32) -> io::Result<()> {
    let a = head_of(bundle, 1);
    let b = head_of(bundle, 2);
    let mut said = [0u32; 3];
    let part = stretch::stretch(
        version,
        a.form.kind,
        a.form.names,
        a.form.extent,
        cells_of(bundle, a),
        b.form.kind,
        b.form.names,
        b.form.extent,
        cells_of(bundle, b),
        AxisIndex(axis),
        Ordinality(o),
        &mut said,
    );
    say_cells(rt, a.form.kind, part, 0, part.len() / CELL_BYTES)?;
    say_said(rt, said[0], said[1], said[2])
}

// ---- a question

fn ask_find(rt: &impl Print, bundle: &[u8], words: &Words) -> io::Result<()> {
    let mut coordinate = [0u8; COORDINATE];
    let end = put_words(words.rest(2), HALF_NAME, &mut coordinate, 0);
    show_reference(rt, bundle, words.value32(1), first(&coordinate, end))
}

fn ask_json(rt: &impl Print, bundle: &[u8], words: &Words) -> io::Result<()> {
    let mut out = [b'.'; TEXT];
    let room = words.length(2, TEXT);
    show_json(rt, bundle, words.value32(1), first_lent(&mut out, room))
}

// A command of the script that asks about the bundle's arrays, by its first letter; a stretch is told the version.
pub fn ask_array(
    rt: &impl Print,
    command: u8,
    version: u32,
    bundle: &[u8],
    words: &Words,
) -> io::Result<()> {
    match command {
        b'o' => show_read(rt, bundle),
        b'l' => show_array(rt, bundle, words.value32(1)),
        b'e' => show_limits(rt, bundle, words.value32(1), LIMITS),
        b'm' => show_limits(rt, bundle, words.value32(1), MAXIMUM),
        b'f' => ask_find(rt, bundle, words),
        b'w' => show_walk(rt, bundle, words.value32(1), words.value32(2)),
        b't' => show_total(rt, bundle, words.value32(1), words.value32(2)),
        b'j' => ask_json(rt, bundle, words),
        b'g' => show_glued(rt, version, bundle, words.value32(1), words.value32(2)),
        _ => Ok(()),
    }
}
