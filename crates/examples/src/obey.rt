// A command of the script, told by its first letter: it puts something on the desk, or calls the engine and prints what it gives.
//
//     new                              nothing on the desk, and version 1 told
//     declare VERSION                  the version told from here on: of steps, of a bundle made, of glued arrays, of JSON read
//     array TYPE NAME LOWER UPPER MAXIMUM-LOWER MAXIMUM-UPPER ..
//     cells CELL ..                    the cells of the arrays, in turn
//     bundle [BYTES]                   the arrays packed; into so many bytes, and the answer
//     zeros BYTES, insert AT NUMBER .. the bundle's bytes by hand
//     recipe                           no steps
//     step OPERATION A B AXIS NUMBER ..
//     "TEXT                            printed
//     open                             how many arrays the bundle has
//     look ARRAY, extent ARRAY, maximum ARRAY
//     find ARRAY POSITION ..
//     walk ARRAY STEPS
//     total ARRAY NUMBER
//     json ARRAY BYTES
//     hear BYTES TEXT                  the rest of the line read as JSON into so many bytes, for the first array: its cells
//     keep ARRAY BYTES                 that array written as JSON and read back
//     values                           the recipe run, and its last result
//     use BYTES                        the recipe run in a work area of so many bytes
//     page BYTES START                 its listing
//     glue AXIS ORDINALITY             from that cell on of arrays 1 and 2 glued
use crate::ask;
use script::arrays::ask_array;
use script::desk::Desk;
use script::line::Words;
use script::make::make;
use script::parts::{first, first_lent};
use script::say::say;
use script::sent::{hear, keep};
use std::io;

// The bytes of a work area at most.
const WORK: usize = 900;

// ---- questions

// "TEXT: the line but for its first byte and its end.
fn say_text(rt: &impl Print, rest: &[u8], line: usize) -> io::Result<()> {
    if 2 <= line && line <= rest.len() {
        say(rt, &rest[1..line - 1])?;
    }
    Ok(())
}

// A line but for its end.
fn line_of(rest: &[u8], line: usize) -> &[u8] {
    if 1 <= line {
        return first(rest, line - 1);
    }
    rest
}

// Of the recipe.
fn ask_recipe(
    rt: &impl Print,
    command: u8,
    bundle: &[u8],
    steps: &[u8],
    words: &Words,
) -> io::Result<()> {
    let mut work = [0u8; WORK];
    let room = words.length(1, WORK);
    match command {
        b'v' => ask::show_run(rt, bundle, steps, &mut work),
        b'u' => ask::show_area(rt, bundle, steps, first_lent(&mut work, room)),
        b'p' => ask::show_page(
            rt,
            bundle,
            steps,
            words.value32(2),
            first_lent(&mut work, room),
        ),
        _ => Ok(()),
    }
}

fn question(
    rt: &impl Print,
    command: u8,
    desk: Desk,
    words: &Words,
    steps: &[u8],
    bundle: &[u8],
) -> io::Result<()> {
    let arrays = first(bundle, desk.bundle);
    ask_array(rt, command, desk.version, arrays, words)?;
    ask_recipe(rt, command, arrays, first(steps, desk.steps), words)?;
    if command == b'k' {
        keep(rt, desk.version, arrays, words)?;
    }
    Ok(())
}

// ---- a line

// A command, by its first byte: `rest` is the script from there on, of which the line has so many bytes and these words.
pub fn obey(
    rt: &impl Print,
    desk: Desk,
    rest: &[u8],
    line: usize,
    words: &Words,
    heads: &mut [u8],
    cells: &mut [u8],
    steps: &mut [u8],
    bundle: &mut [u8],
) -> io::Result<Desk> {
    if rest.len() == 0 {
        return Ok(desk);
    }
    let command = rest[0];
    if command == b'"' {
        say_text(rt, rest, line)?;
        return Ok(desk);
    }
    if command == b'h' {
        hear(rt, desk.version, heads, line_of(rest, line), words)?;
        return Ok(desk);
    }
    question(rt, command, desk, words, steps, bundle)?;
    make(rt, command, desk, words, heads, cells, steps, bundle)
}
