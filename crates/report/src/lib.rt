// The text that the program `rests` prints of a bundle and a recipe: `too long`, the refusal, or the rows of the last result. One page
// call with a row buffer for every cell writes all rows, and each row's line is read from its bytes there.
#![tactic(auto)]

ghost use Rattle.std.specs.Prelude.{◌≡◌, ◌+◌, ◌*◌, ◌≤◌, length, take};
ghost use Rattle.paper.specs.Limits.{most_axes, most_cells, limit_bytes};
ghost use Rattle.paper.specs.Numbers.{text};
ghost use Rattle.paper.specs.Rests.{most_bytes, all_rows, rests};
ghost use Rattle.decimal.specs.Rows.{most_row};
ghost use Rattle.decimal.specs.Wrote.{Wrote};
ghost use Rattle.report.specs.Rows.{lines_at, listing_at};
ghost use Rattle.report.specs.Texts.{most_text, Left};

use cell::bytes::copy_bytes;
use decimal::{put_found, put_refusal, put_row};
use paper::{FILE_BYTES, LIMIT_BYTES, Ordinality};
use run::page_rows;

// ---- parts of the text

fn put_too_long(out: &mut [u8]) -> usize
    requires { most_text ≤ length out.old }
    ensures { Wrote out.old 0 (text "too long\n") result out.new }
{
    copy_bytes(b"too long\n", 0, out, 0, 9);
    9
}

// The lines of the first n rows of `rank` positions.
fn put_rows(rows: &[u8], n: usize, rank: usize, out: &mut [u8], at: usize) -> usize
    requires { (rank ≤ most_axes) × (n ≤ most_cells) × (n * (limit_bytes + rank * limit_bytes) ≤ length rows.now)
        × (at + n * most_row most_axes ≤ length out.old) }
    ensures { Wrote out.old at (lines_at rows.now 0 rank n) result out.new }
{
    let size = LIMIT_BYTES + rank * LIMIT_BYTES;
    let mut end = at;
    for i in 0..n {
        end = put_row(rows, i * size, rank, out, end);
    }
    end
}

// The first line, and a line for each row.
fn put_listing(rows: &[u8], n: usize, rank: usize, out: &mut [u8]) -> usize
    requires { (rank ≤ most_axes) × (n ≤ most_cells) × (n * (limit_bytes + rank * limit_bytes) ≤ length rows.now)
        × (most_text ≤ length out.old) }
    ensures { Wrote out.old 0 (listing_at rows.now rank n) result out.new }
{
    let first = put_found(out, 0, n as u64);
    put_rows(rows, n, rank, out, first)
}

// ---- the text

// What `rests` prints, at the beginning of `out`; answers its length.
pub fn report(
    bundle: &[u8],
    recipe: &[u8],
    work: &mut [u8],
    rows: &mut [u8],
    out: &mut [u8],
) -> usize
    requires { (length work.old ≡ most_bytes) × (length rows.old ≡ all_rows) × (most_text ≤ length out.old) }
    ensures { (take result out.new ≡ rests bundle.now recipe.now) × (result ≤ length out.new)
        × Left bundle.now recipe.now work.old rows.old out.old
        work.new rows.new out.new }
{
    if FILE_BYTES < bundle.len() {
        return put_too_long(out);
    }
    if FILE_BYTES < recipe.len() {
        return put_too_long(out);
    }
    match page_rows(bundle, recipe, work, Ordinality(1), rows) {
        Err(refusal) => put_refusal(out, 0, refusal),
        Ok(paged) => put_listing(rows, paged.listed.written as usize, paged.axes, out),
    }
}
