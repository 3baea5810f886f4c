// Judging what is to be packed, in the paper's order of tests: the count, each array's type, axis count, names, extent, cell bytes and
// cells, and leftover cell bytes. Nothing is written here.
ghost use Rattle.std.specs.Prelude.{◌≤◌, length};
ghost use Rattle.paper.specs.Limits.{sizes_of};
ghost use Rattle.pack.specs.Judging.{JudgedForm, JudgedAll};

use bundle::array_of;
use extent::names::names_fit;
use extent::rank_of;
use paper::{CELL_BYTES, Form, OPENING_BYTES, Refusal, TYPE_BYTES, Version};
use refusals::{in_range, refuse};
use versions::sizes;

// One array judged: the byte after its cells, and the number of its bytes in the bundle.
#[derive(Clone, Copy)]
pub struct FormJudged {
    pub end: usize,
    pub long: usize,
}

// Array k of a form, its cells from the byte `from` on. A rank over what an extent can hold is refused, never cut: such an extent has no
// axes, so its axis count is bad, and nothing lies inside such a maximum. A name with more letters than the version's is refused too.
fn form_judged(
    v: Version,
    cells: &[u8],
    from: usize,
    k: u32,
    form: Form,
) -> Result<FormJudged, Refusal>
    requires { from ≤ length cells.now }
    ensures { JudgedForm (sizes_of v) cells.now from k form result }
{
    let z = sizes(v);
    let rank = rank_of(form.extent);
    if !in_range(form.kind as usize, paper::TYPES) {
        return Err(refuse(1, k));
    }
    if !in_range(rank, z.axes) {
        return Err(refuse(1, k));
    }
    let names = form.names;
    if !names_fit(v, names, rank) {
        return Err(refuse(2, k));
    }
    let n = array_of(cells, from, k, form)?;
    let room = n * CELL_BYTES;
    Ok(FormJudged {
        end: from + room,
        long: TYPE_BYTES + rank * z.axis + room,
    })
}

// The first `count` forms, with their cells in one buffer: the number of the bundle's bytes.
pub fn judged(
    v: Version,
    count: usize,
    forms: [Form; paper::ARRAYS],
    cells: &[u8],
) -> Result<usize, Refusal>
    ensures { JudgedAll (sizes_of v) count forms cells.now result }
{
    if !in_range(count, paper::ARRAYS) {
        return Err(refuse(1, 0));
    }
    let mut at: usize = 0;
    let mut long = OPENING_BYTES;
    for i in 0..count {
        let one = form_judged(v, cells, at, (i + 1) as u32, forms[i])?;
        at = one.end;
        long += one.long;
    }
    if at < cells.len() {
        return Err(refuse(1, 0));
    }
    Ok(long)
}
