// The rows of a page. A row is written for each TRUE cell from a start ordinality on, until the row buffer has no room for another; the
// answer tells how many were written and where to go on.
#![tactic(auto)]

ghost use Rattle.std.specs.Prelude.{◌≡◌, ◌+◌, ◌-◌, ◌*◌, ◌≤◌, length, take};
ghost use Rattle.std.proofs.Math.Seq.{paste};
ghost use Rattle.paper.specs.Limits.{BOOLEAN, most_axes, limit_bytes, cell_bytes};
ghost use Rattle.paper.specs.Numbers.{part};
ghost use Rattle.paper.specs.Cells.{is_true, cell_of};
ghost use Rattle.paper.specs.Answers.{axes_of};
ghost use Rattle.laws.specs.Judged.{or_empty};
ghost use Rattle.extent.specs.Judged.{Small};
ghost use Rattle.extent.specs.Rank.{Rank};
ghost use Rattle.listing.specs.Rows.{positions_bytes, row_of, row_size};
ghost use Rattle.listing.specs.Lines.{with_last, LineTop, Below, Left};
ghost use Rattle.listing.specs.Lists.{Listable, ListedAs};

use cell::bytes::{put4, word};
use extent::rank_of;
use paper::{CELL_BYTES, Extent, LIMIT_BYTES, Listed, Ordinality};
use place::{Coordinate, coordinate_of};
use positions::bits_of;

// The nine bytes at `at` are TRUE: the mark of a filled cell, and the number 1.
fn is_true(s: &[u8], at: usize) -> bool
    requires { at + cell_bytes ≤ length s.now }
    ensures { result ≡ is_true (or_empty (cell_of BOOLEAN (part at cell_bytes s.now))) }
{
    s[at] == 1 && word(s, at + 1) == 1
}

// The first n positions of a coordinate, four bytes each, from `at` on.
fn put_positions(d: &mut [u8], at: usize, n: usize, p: Coordinate)
    requires { (n ≤ most_axes) × (at + n * limit_bytes ≤ length d.old) }
    ensures { d.new ≡ paste d.old at (positions_bytes (take n p.at)) (n * limit_bytes) }
{
    for i in 0..n {
        put4(d, at + i * LIMIT_BYTES, bits_of(p.at[i]));
    }
}

// The index, from 0, of the last of `rank` axes.
fn last_axis(rank: usize) -> usize
    ensures { result ≡ rank - 1 }
{
    rank.saturating_sub(1)
}

// The row of an ordinality, from `at` on: the ordinality, the positions of p on the axes before the last, and x on the last.
fn write_row(rows: &mut [u8], at: usize, rank: usize, p: Coordinate, x: u32, o: Ordinality)
    requires { (rank ≤ most_axes) × (at + row_size rank ≤ length rows.old) }
    ensures { rows.new ≡ paste rows.old at (row_of o.0 (with_last rank p.at x)) (row_size rank) }
{
    put4(rows, at, o.0);
    let axis = last_axis(rank);
    put_positions(rows, at + LIMIT_BYTES, axis, p);
    if rank <= axis {
        return;
    }
    put4(rows, at + LIMIT_BYTES + axis * LIMIT_BYTES, bits_of(x));
}

// One past the upper limit of the last axis, on which a line of cells runs; 1 where there is no axis.
fn line_top(e: Extent, rank: usize) -> u32
    requires { Small (axes_of e) × Rank e rank }
    ensures { LineTop (axes_of e) rank result }
{
    if rank == 0 {
        return 1;
    }
    let a = e.axes[rank - 1];
    a.hi + 1
}

// How many cells a line has from the coordinate p on.
fn left_on(p: Coordinate, rank: usize, top: u32) -> usize
    requires { Below p.at rank top }
    ensures { Left p.at rank top result }
{
    if rank == 0 {
        return 1;
    }
    (top - p.at[rank - 1]) as usize
}

// The rows of the TRUE cells from `start` on, of an array of n cells that begin at `at`. The cells of a line follow one another on the
// last axis, so a coordinate is found anew only where no line is known or it has ended: p is of a cell on the line up to `end`.
pub fn list(
    work: &[u8],
    at: usize,
    e: Extent,
    n: usize,
    start: Ordinality,
    rows: &mut [u8],
) -> Listed
    requires { Listable (axes_of e) at n start.0 work.now rows.old }
    ensures { ListedAs work.now at (axes_of e) start.0 rows.old result rows.new }
{
    let rank = rank_of(e);
    let top = line_top(e, rank);
    let size = LIMIT_BYTES + LIMIT_BYTES * rank;
    let room = rows.len() / size;
    let mut p = Coordinate {
        at: [0u32; paper::AXES],
    };
    let mut end: usize = 0;
    let mut written: usize = 0;
    let mut k = start.0 as usize - 1;
    while k < n && written < room {
        if is_true(work, at + k * CELL_BYTES) {
            let o = Ordinality(k as u32 + 1);
            if end <= k {
                p = coordinate_of(e, o);
                end = k + left_on(p, rank, top);
            }
            write_row(rows, written * size, rank, p, top - (end - k) as u32, o);
            written += 1;
        }
        k += 1;
    }
    Listed {
        written: written as u32,
        next: Ordinality(k as u32 + 1),
    }
}
