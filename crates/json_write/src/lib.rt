// An array of a bundle as JSON (request [2]). The writer of brackets calls itself for the next axis, as the report's F does; the number of
// axes left falls to the cells. The text is measured first, so that nothing is written where it doesn't fit.
#![tactic(auto)]

ghost use Rattle.std.specs.Prelude.{[], ◌∷◌, ◌≡◌, ◌+◌, ◌*◌, ◌^◌, ◌<◌, ◌≤◌, length};
ghost use Rattle.paper.specs.Limits.{most_cells, cell_bytes};
ghost use Rattle.paper.specs.Axes.{cells};
ghost use Rattle.paper.specs.Answers.{axes_of};
ghost use Rattle.paper.specs.Json.{cell_text, write_json};
ghost use Rattle.laws.specs.Limits.{Sound};
ghost use Rattle.json_write.specs.Stores.{Stored};
ghost use Rattle.json_write.specs.Texts.{comma, axis_left};
ghost use Rattle.json_write.specs.Lengths.{marks, cells_long};
ghost use Rattle.json_write.specs.Whole.{cell_by, json_at, RowReady, RowDrawn, TextFits, Drawn, Whole};

use decimal::{int_length, put_int, put_text};
use extent::{axis_of, rank_of, width_of};
use paper::{Axis, AxisIndex, Cell, Extent, FLOAT, Refusal};
use refer::{choose, held_cell};
use refusals::refuse;

// ---- how long the text is

// The bytes of brackets and commas, from the last axis to the first: two brackets, a comma between two positions, and at each position
// those of the axes after it.
fn marks_of(e: Extent) -> u64
    requires { Sound (axes_of e) × (cells (axes_of e) ≤ most_cells) }
    ensures { result ≡ marks (axes_of e) }
{
    let rank = rank_of(e);
    let mut n: u64 = 0;
    for i in (0..rank).rev() {
        let w = width_of(e.axes[i]);
        n = 1 + w + w * n;
    }
    n
}

// The bytes of a cell's text.
fn cell_length(c: Cell) -> usize
    ensures { result ≡ length (cell_text c) }
{
    match c {
        Cell::Empty => return 4,
        Cell::Int(z) => return int_length(z),
        Cell::Float(_) => return 0,
        Cell::Truth(b) => {
            if b {
                return 4;
            }
            return 5;
        }
    }
}

// The bytes of the texts of n cells.
fn cells_length(s: &[u8], from: usize, kind: u8, n: usize) -> usize
    requires { (from + n * cell_bytes ≤ length s.now) × (n ≤ most_cells) }
    ensures { result ≡ cells_long (cell_by s.now from kind) 0 n }
{
    let mut long = 0;
    for i in 0..n {
        long += cell_length(held_cell(s, from, kind, i));
    }
    long
}

// The bytes of the whole text, with n cells: beside these, `{"data":` and the closing brace.
fn json_length(s: &[u8], from: usize, kind: u8, extent: Extent, n: usize) -> usize
    requires { Whole s.now from (axes_of extent) × (n ≡ cells (axes_of extent)) }
    ensures { (result ≡ length (json_at s.now from kind (axes_of extent))) × (result < 2 ^ 32) }
{
    let marks = marks_of(extent) as usize;
    let cells = cells_length(s, from, kind, n);
    9 + marks + cells
}

// ---- the text

// What follows an item with so many more after it: a comma, but after the last.
fn put_comma(out: &mut [u8], at: usize, more: u64) -> usize
    requires { at + length (comma more) ≤ length out.old }
    ensures { Stored out.old at (comma more) result out.new }
{
    if more == 0 {
        return at;
    }
    out[at] = b',';
    at + 1
}

// A cell.
fn put_cell(out: &mut [u8], at: usize, c: Cell) -> usize
    requires { at + length (cell_text c) ≤ length out.old }
    ensures { Stored out.old at (cell_text c) result out.new }
{
    match c {
        Cell::Empty => return put_text(out, at, b"null"),
        Cell::Int(z) => return put_int(out, at, z),
        Cell::Float(_) => return at,
        Cell::Truth(b) => {
            if b {
                return put_text(out, at, b"true");
            }
            return put_text(out, at, b"false");
        }
    }
}

// Where the next byte goes, and the index of the next cell.
#[derive(Clone, Copy)]
struct Pen {
    at: usize,
    cell: usize,
}

// The cells of the last axis, which has so many positions.
fn put_cells(out: &mut [u8], pen: Pen, s: &[u8], from: usize, kind: u8, width: u64) -> Pen
    requires { RowReady s.now from kind width pen.at pen.cell (length out.old) }
    ensures { RowDrawn s.now from kind width pen.at pen.cell out.old
        result.at result.cell out.new }
{
    let mut at = pen.at;
    let mut cell = pen.cell;
    out[at] = b'[';
    at += 1;
    for more in (0..width).rev() {
        at = put_cell(out, at, held_cell(s, from, kind, cell));
        at = put_comma(out, at, more);
        cell += 1;
    }
    out[at] = b']';
    Pen { at: at + 1, cell }
}

// The first of the axes that are left.
fn axis_left(e: Extent, left: usize) -> Axis
    requires { left ≤ length (axes_of e) }
    ensures { result ≡ axis_left (axes_of e) left }
{
    let rank = rank_of(e);
    axis_of(e, AxisIndex((rank - left + 1) as u32))
}

// The axes that are left, from a cell on: with one left its cells; with more the same again at each position of the first.
fn put_axes(
    out: &mut [u8],
    mut pen: Pen,
    s: &[u8],
    from: usize,
    kind: u8,
    extent: Extent,
    left: usize,
) -> Pen
    requires { TextFits s.now from kind (axes_of extent) left pen.at pen.cell (length out.old) }
    ensures { Drawn s.now from kind (axes_of extent) left pen.at pen.cell out.old
        result.at result.cell out.new }
{
    let width = width_of(axis_left(extent, left));
    if left == 1 {
        return put_cells(out, pen, s, from, kind, width);
    }
    let begin = pen.at;
    out[begin] = b'[';
    pen.at = begin + 1;
    for more in (0..width).rev() {
        pen = put_axes(out, pen, s, from, kind, extent, left - 1);
        pen.at = put_comma(out, pen.at, more);
    }
    let end = pen.at;
    out[end] = b']';
    pen.at = end + 1;
    pen
}

// The whole object.
fn put_json(out: &mut [u8], s: &[u8], from: usize, kind: u8, extent: Extent) -> usize
    requires { Whole s.now from (axes_of extent) × (length (json_at s.now from kind (axes_of extent)) ≤ length out.old) }
    ensures { Stored out.old 0 (json_at s.now from kind (axes_of extent)) result out.new }
{
    let rank = rank_of(extent);
    let first = put_text(out, 0, b"{\"data\":");
    let pen = put_axes(out, Pen { at: first, cell: 0 }, s, from, kind, extent, rank);
    let end = pen.at;
    out[end] = b'}';
    end + 1
}

// Array k of a bundle as JSON: the text's length, or the refusal; then `out` is as it was.
pub fn write(s: &[u8], k: u32, out: &mut [u8]) -> Result<u32, Refusal>
    ensures { (result ≡ (write_json s.now k out.old).answer)
        × (out.new ≡ (write_json s.now k out.old).buffer) }
{
    let head = choose(s, k)?;
    let kind = head.form.kind;
    if kind == FLOAT {
        return Err(refuse(7, k));
    }
    let long = json_length(s, head.at, kind, head.form.extent, head.cells);
    if out.len() < long {
        return Err(refuse(14, 0));
    }
    put_json(out, s, head.at, kind, head.form.extent);
    Ok(long as u32)
}
