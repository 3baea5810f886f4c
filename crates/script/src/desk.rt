// What the script puts on the desk: the version told, heads of arrays, their cells, the steps of a recipe, and the bundle that is made of
// the arrays. Heads are laid out as version 2's, which have room for any version's; steps are of the version told.
ghost use Rattle.std.specs.Prelude.{◌≤◌};

use crate::line::{Kind, Word, Words};
use cell::bytes::{clear_bytes, put4, put9};
use paper::{CELL_BYTES, HALF_NAME, HEAD_BYTES, LIMIT_BYTES, LIMITS_BYTES, Sizes, Version};
use versions::{sizes, version_told};

// A name, a head (its type, its axis count and six axes) and a step of version 2.
const WHOLE_NAME: usize = 2 * HALF_NAME;

pub const WHOLE_HEAD: usize = paper::TYPE_BYTES + paper::AXES * (WHOLE_NAME + LIMITS_BYTES);

const WHOLE_STEP: usize = HEAD_BYTES + paper::AXES * WHOLE_NAME;

// Room on the desk.
pub const HEADS: usize = paper::ARRAYS * WHOLE_HEAD;

pub const CELLS: usize = 36864;

pub const STEPS: usize = paper::STEPS * WHOLE_STEP;

pub const BUNDLE: usize = 40000;

// The version told, how many heads, bytes of cells and of steps there are, and how long the bundle is.
#[derive(Clone, Copy)]
pub struct Desk {
    pub version: u32,
    pub heads: usize,
    pub cells: usize,
    pub steps: usize,
    pub bundle: usize,
}

pub fn blank() -> Desk {
    Desk {
        version: 1,
        heads: 0,
        cells: 0,
        steps: 0,
        bundle: 0,
    }
}

// Four bytes, where there is room for them.
fn put_half(buf: &mut [u8], at: usize, n: u32) {
    if LIMIT_BYTES <= buf.len() && at <= buf.len() - LIMIT_BYTES {
        put4(buf, at, n);
    }
}

// A number: a name, a wide number or bits by eight bytes, others by four. What has no room is left out; answers where the next goes.
fn put_number(value: u64, kind: Kind, buf: &mut [u8], at: usize) -> usize {
    if BUNDLE < at {
        return at;
    }
    put_half(buf, at, (value % 0x1_0000_0000) as u32);
    if kind == Kind::Number {
        return at + LIMIT_BYTES;
    }
    put_half(buf, at + LIMIT_BYTES, (value / 0x1_0000_0000) as u32);
    at + 2 * LIMIT_BYTES
}

// A word; a name by so many bytes.
fn put_word(word: Word, name: usize, buf: &mut [u8], at: usize) -> usize {
    let end = put_number(word.value, word.kind, buf, at);
    if word.kind != Kind::Name || name <= HALF_NAME {
        return end;
    }
    put_number(word.last, Kind::Wide, buf, end)
}

// Words into `buf` from byte `at` on; answers where they end. A name takes so many bytes.
pub fn put_words(words: &[Word], name: usize, buf: &mut [u8], at: usize) -> usize {
    let mut end = at;
    for word in words {
        end = put_word(*word, name, buf, end);
    }
    end
}

// The sizes of the version told; of version 1 where it is none.
fn sizes_told(version: u32) -> Sizes {
    sizes(version_told(version).unwrap_or(Version::One))
}

// declare VERSION
pub fn declared(desk: Desk, version: u32) -> Desk {
    Desk { version, ..desk }
}

// int, float or boolean.
fn type_of(name: u8) -> u8 {
    match name {
        b'i' => paper::INT,
        b'f' => paper::FLOAT,
        _ => paper::BOOLEAN,
    }
}

// array TYPE NAME LOWER UPPER MAXIMUM-LOWER MAXIMUM-UPPER ..
pub fn add_array(desk: Desk, words: &Words, heads: &mut [u8]) -> Desk {
    if heads.len() / WHOLE_HEAD <= desk.heads {
        return desk;
    }
    let at = desk.heads * WHOLE_HEAD;
    clear_bytes(heads, at, WHOLE_HEAD);
    put_half(
        heads,
        at,
        u32::from_le_bytes([
            type_of(words.value8(1)),
            (words.len() / 5 % 256) as u8,
            0,
            0,
        ]),
    );
    put_words(words.rest(2), WHOLE_NAME, heads, at + 2);
    Desk {
        heads: desk.heads + 1,
        ..desk
    }
}

// One cell, or as many empty ones as the word says; answers where the next goes. What has no room is left out.
fn put_cells(cells: &mut [u8], at: usize, word: Word) -> usize {
    if cells.len() < at {
        return at;
    }
    let room = cells.len() - at;
    if word.kind == Kind::Empty {
        let n = word.value.clamp(1, 4096) as usize * CELL_BYTES;
        if n <= room {
            clear_bytes(cells, at, n);
            return at + n;
        }
        return at;
    }
    if CELL_BYTES <= room {
        put9(cells, at, 1, word.value);
        return at + CELL_BYTES;
    }
    at
}

// cells CELL ..
pub fn add_cells(desk: Desk, words: &Words, cells: &mut [u8]) -> Desk {
    let mut end = desk.cells;
    for word in words.rest(1) {
        end = put_cells(cells, end, *word);
    }
    Desk { cells: end, ..desk }
}

// step OPERATION A B AXIS NUMBER ..
pub fn add_step(desk: Desk, words: &Words, steps: &mut [u8]) -> Desk {
    let at = desk.steps;
    let z = sizes_told(desk.version);
    if steps.len() < z.step || steps.len() - z.step < at {
        return desk;
    }
    clear_bytes(steps, at, z.step);
    put_half(
        steps,
        at,
        u32::from_le_bytes([
            words.value8(1),
            words.value8(2),
            words.value8(3),
            words.value8(4),
        ]),
    );
    put_words(words.rest(5), z.name, steps, at + HEAD_BYTES);
    Desk {
        steps: at + z.step,
        ..desk
    }
}

// No steps.
pub fn erased(desk: Desk) -> Desk {
    Desk { steps: 0, ..desk }
}

// A bundle of so many bytes.
pub fn bundled(desk: Desk, n: usize) -> Desk {
    Desk { bundle: n, ..desk }
}

// zeros BYTES: a bundle of zeros.
pub fn zeros(desk: Desk, words: &Words, bundle: &mut [u8]) -> Desk {
    let n = words.length(1, bundle.len());
    clear_bytes(bundle, 0, n);
    bundled(desk, n)
}

// insert AT NUMBER ..: bytes of the bundle.
pub fn insert(words: &Words, bundle: &mut [u8]) {
    put_words(words.rest(2), HALF_NAME, bundle, words.value32(1) as usize);
}
