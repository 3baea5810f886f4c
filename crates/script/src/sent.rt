// JSON texts read into arrays, with the cells or the refusal on the rest of the line.
ghost use Rattle.std.specs.Prelude.{◌≤◌, length};

use crate::arrays::{head_of, number_of};
use crate::desk::WHOLE_HEAD;
use crate::line::Words;
use crate::parts::{first, first_lent};
use crate::say::{say_byte, say_cells, say_count, say_refusal};
use c_asked::side_form;
use paper::{CELL_BYTES, Form, JsonRefusal, Version};
use std::io;

// The bytes of a cell buffer and of a text that is written, at most.
const BUFFER: usize = 90;

const TEXT: usize = 200;

// A byte that no cell begins with: where a cell buffer is not written to, its cells are printed as bad.
const UNTOUCHED: u8 = 7;

// A refusal at a byte of the text.
fn say_at(rt: &impl Print, number: u64, place: usize) -> io::Result<()> {
    say_count(rt, b" refused ", number)?;
    say_count(rt, b" 0 ", place as u64)?;
    say_byte(rt, b'\n')
}

// What a cell buffer has after a text was read, or the refusal.
fn show_answer(
    rt: &impl Print,
    answer: Result<u32, JsonRefusal>,
    kind: u8,
    cells: &[u8],
) -> io::Result<()> {
    match answer {
        Ok(_) => say_cells(rt, kind, cells, 0, cells.len() / CELL_BYTES),
        Err(JsonRefusal::NotJson(place)) => say_at(rt, 15, place),
        Err(JsonRefusal::Misfit(place)) => say_at(rt, 16, place),
        Err(JsonRefusal::Refused(r)) => {
            say_byte(rt, b' ')?;
            say_refusal(rt, r)
        }
    }
}

// A text read into a cell buffer, as the call answers it and leaves the buffer.
fn show_sent(
    rt: &impl Print,
    version: u32,
    form: Form,
    text: &[u8],
    cells: &mut [u8],
) -> io::Result<()> {
    let answer = json_read::read(version, form.kind, form.names, form.extent, text, cells);
    show_answer(rt, answer, form.kind, cells)
}

// Behind the first blank of a line from a byte on; at its end where there is none.
fn past_blank(line: &[u8], from: usize) -> usize
    requires { from ≤ length line.now }
    ensures { result ≤ length line.now }
{
    for i in from..line.len() {
        if line[i] == b' ' {
            return i + 1;
        }
    }
    line.len()
}

// hear BYTES TEXT: the text, all that stands behind the second blank, read in the version told into the cells of the first array that
// the desk has a head of.
pub fn hear(
    rt: &impl Print,
    version: u32,
    heads: &[u8],
    line: &[u8],
    words: &Words,
) -> io::Result<()> {
    let form = side_form(Version::Two, first(heads, WHOLE_HEAD));
    let at = past_blank(line, past_blank(line, 0));
    let mut cells = [UNTOUCHED; BUFFER];
    let room = words.length(1, BUFFER);
    show_sent(rt, version, form, &line[at..], first_lent(&mut cells, room))
}

// keep ARRAY BYTES: an array of the bundle written as JSON, and the text read in the version told into an array of its type and extent.
pub fn keep(rt: &impl Print, version: u32, bundle: &[u8], words: &Words) -> io::Result<()> {
    let k = words.value32(1);
    let mut out = [0u8; TEXT];
    let n = number_of(rt, json_write::write(bundle, k, &mut out))?;
    let head = head_of(bundle, k);
    let mut cells = [UNTOUCHED; BUFFER];
    let room = words.length(2, BUFFER);
    show_sent(
        rt,
        version,
        head.form,
        first(&out, n as usize),
        first_lent(&mut cells, room),
    )
}
