// The commands of the script that put something on the desk.
ghost use Rattle.std.specs.Prelude.{◌≤◌};

use crate::arrays::number_of;
use crate::desk::{
    Desk, WHOLE_HEAD, add_array, add_cells, add_step, blank, bundled, declared, erased, insert,
    zeros,
};
use crate::line::Words;
use crate::parts::{first, first_lent};
use crate::say::say_some;
use c_asked::forms_in;
use paper::Version;
use std::io;

// The arrays packed in the version told, into so many bytes: the bundle's length, or 0, and the refusal is printed.
fn packed(
    rt: &impl Print,
    version: u32,
    heads: &[u8],
    cells: &[u8],
    out: &mut [u8],
) -> io::Result<u32> {
    let told = forms_in(Version::Two, heads);
    let forms = told.forms;
    number_of(rt, pack::pack(version, told.count, forms, cells, out))
}

// The second word as a length, or all that there is.
fn room_asked(words: &Words, most: usize) -> usize
    ensures { result ≤ most }
{
    if words.len() < 2 {
        most
    } else {
        words.length(1, most)
    }
}

// bundle [BYTES]
fn make_bundle(
    rt: &impl Print,
    desk: Desk,
    words: &Words,
    heads: &[u8],
    cells: &[u8],
    bundle: &mut [u8],
) -> io::Result<Desk> {
    if heads.len() / WHOLE_HEAD < desk.heads {
        return Ok(desk);
    }
    let room = room_asked(words, bundle.len());
    let length = packed(
        rt,
        desk.version,
        first(heads, desk.heads * WHOLE_HEAD),
        first(cells, desk.cells),
        first_lent(bundle, room),
    )?;
    if 1 < words.len() {
        say_some(rt, b"bytes ", length, b"\n")?;
        return Ok(bundled(desk, room));
    }
    Ok(bundled(desk, length as usize))
}

// The desk after a command, told by its first letter; one that puts nothing there leaves it.
pub fn make(
    rt: &impl Print,
    command: u8,
    desk: Desk,
    words: &Words,
    heads: &mut [u8],
    cells: &mut [u8],
    steps: &mut [u8],
    bundle: &mut [u8],
) -> io::Result<Desk> {
    match command {
        b'n' => Ok(blank()),
        b'd' => Ok(declared(desk, words.value32(1))),
        b'a' => Ok(add_array(desk, words, heads)),
        b'c' => Ok(add_cells(desk, words, cells)),
        b'b' => make_bundle(rt, desk, words, heads, cells, bundle),
        b'z' => Ok(zeros(desk, words, bundle)),
        b'i' => {
            insert(words, bundle);
            Ok(desk)
        }
        b'r' => Ok(erased(desk)),
        b's' => Ok(add_step(desk, words, steps)),
        _ => Ok(desk),
    }
}
