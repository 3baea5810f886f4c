// Reading a bundle: the first refusal in the paper's order, or the arrays' types, extents and maxima and where their cells lie.
#![tactic(auto)]

ghost use Rattle.std.specs.Prelude.{◌≡◌, ◌≤◌, length, replicate};
ghost use Rattle.paper.specs.Limits.{most_arrays, sizes_of};
ghost use Rattle.laws.specs.Answers.{no_head};
ghost use Rattle.bundle.specs.Read.{JudgedArray, FormRead, Opened, ReadAll};

use axes::bounds_at;
use extent::extent_cells;
use judged::first_bad;
use mark::{byte_at, is_marked, version_in};
use paper::{
    CELL_BYTES, Form, Head, MARK_BYTES, OPENING_BYTES, Reading, Refusal, TYPE_BYTES, Version,
};
use refusals::{in_range, refuse, refuse_at};
use shape::empty;
use shape::names::no_names;
use versions::sizes;

pub mod axes;
pub mod mark;

// No axis, and no type.
fn no_form() -> Form
    ensures { result ≡ no_head.form }
{
    let extent = empty();
    let names = no_names();
    let maximum = empty();
    Form {
        kind: 0,
        extent,
        names,
        maximum,
    }
}

// No array, with no cell.
pub fn no_head() -> Head
    ensures { result ≡ no_head }
{
    let form = no_form();
    Head {
        form,
        at: 0,
        cells: 0,
    }
}

// How many cells array k of this form has, from the bytes after its axes: its extent, its cell bytes present, its cells.
pub fn array_of(s: &[u8], from: usize, k: u32, form: Form) -> Result<usize, Refusal>
    requires { from ≤ length s.now }
    ensures { JudgedArray s.now k form from result }
{
    let names = form.names;
    let Some(n) = extent_cells(names, form.extent, form.maximum) else {
        return Err(refuse(2, k));
    };
    if s.len() - from < n * CELL_BYTES {
        return Err(refuse(1, k));
    }
    let bad = first_bad(s, from, form.kind, n);
    if bad != 0 {
        return Err(refuse_at(3, k, bad as u32));
    }
    Ok(n)
}

// The form of the array that begins at byte `at`: its type, axis count and axes; none where these bytes are bad.
fn form_at(s: &[u8], v: Version, at: usize) -> Option<Form>
    requires { at ≤ length s.now }
    ensures { FormRead (sizes_of v) s.now at result }
{
    let z = sizes(v);
    let kind = byte_at(s, at);
    let rank = byte_at(s, at + 1) as usize;
    if !in_range(kind as usize, paper::TYPES) {
        return None;
    }
    if !in_range(rank, z.axes) {
        return None;
    }
    if s.len() - at < TYPE_BYTES + rank * z.axis {
        return None;
    }
    let bounds = bounds_at(v, s, at + TYPE_BYTES, rank);
    let extent = bounds.extent;
    let names = bounds.names;
    let maximum = bounds.maximum;
    Some(Form {
        kind,
        extent,
        names,
        maximum,
    })
}

// No array at all.
fn no_heads() -> [Head; paper::ARRAYS]
    ensures { result ≡ replicate most_arrays no_head }
{
    let head = no_head();
    [head; paper::ARRAYS]
}

// How many arrays the opening bytes of a bundle of version v tell of; none where they are bad.
fn opened(s: &[u8], v: Version) -> Option<usize>
    ensures { Opened (sizes_of v) s.now result }
{
    if s.len() < OPENING_BYTES {
        return None;
    }
    if !is_marked(s, v) {
        return None;
    }
    let n = byte_at(s, MARK_BYTES) as usize;
    if !in_range(n, paper::ARRAYS) {
        return None;
    }
    Some(n)
}

// The bundle's arrays, or the first refusal in the paper's order.
pub fn read(s: &[u8]) -> Result<Reading, Refusal>
    ensures { ReadAll s.now result }
{
    let version = version_in(s);
    let Some(count) = opened(s, version) else {
        return Err(refuse(1, 0));
    };
    let z = sizes(version);
    let mut heads = no_heads();
    let mut next = OPENING_BYTES;
    for i in 0..count {
        let k = (i + 1) as u32;
        let Some(form) = form_at(s, version, next) else {
            return Err(refuse(1, k));
        };
        let at = next + TYPE_BYTES + form.extent.rank * z.axis;
        let cells = array_of(s, at, k, form)?;
        heads[i] = Head { form, at, cells };
        next = at + cells * CELL_BYTES;
    }
    if next < s.len() {
        return Err(refuse(1, 0));
    }
    Ok(Reading {
        version,
        count,
        heads,
    })
}
