// The cells of a moved result laid down: a line by its three runs, a band line after line.
ghost use Rattle.std.specs.Prelude.{◌≡◌};
ghost use Rattle.values.specs.Moved.{Laying, BandLaid};

use lay::{lay_cells, lay_run};
use paper::CELL_BYTES;
use quick::operands::Source;
use rows::Band;

// The lines of a band, the first at byte `at` of the work area. How many cells later a line's cells come from is added up line by line;
// of an array that gives the band no cell it may be any number, so the sum may wrap.
fn lay_lines(bundle: &[u8], work: &mut [u8], at: usize, a: Source, b: Source, band: Band)
    requires { Laying bundle.now work.old at a b band }
    ensures { BandLaid bundle.now work.old at a b band band.lines work.new }
{
    let lines = band.lines;
    let first = band.first;
    let second = band.second;
    let third = band.third;
    let one = first.length * CELL_BYTES;
    let two = one + second.length * CELL_BYTES;
    let line = two + third.length * CELL_BYTES;
    let mut place = at;
    let mut x: usize = 0;
    let mut y: usize = 0;
    for _r in 0..lines {
        lay_cells(bundle, work, place, a, b, first, x, y, false);
        lay_run(bundle, work, place + one, a, b, second, x, y);
        lay_run(bundle, work, place + two, a, b, third, x, y);
        place += line;
        x = x.wrapping_add(band.a);
        y = y.wrapping_add(band.b);
    }
}

// The same where a line is one run: a loop of its own, in which the compiler finds little to carry from line to line.
fn lay_one_run(bundle: &[u8], work: &mut [u8], at: usize, a: Source, b: Source, band: Band)
    requires laying { Laying bundle.now work.old at a b band }
    requires length_value { (band.second.length ≡ 0) × (band.third.length ≡ 0) }
    ensures { BandLaid bundle.now work.old at a b band band.lines work.new }
{
    let lines = band.lines;
    let run = band.first;
    let line = run.length * CELL_BYTES;
    let mut place = at;
    let mut later_a: usize = 0;
    let mut later_b: usize = 0;
    for _r in 0..lines {
        lay_cells(bundle, work, place, a, b, run, later_a, later_b, true);
        place += line;
        later_a = later_a.wrapping_add(band.a);
        later_b = later_b.wrapping_add(band.b);
    }
}

// A band, by the number of its runs.
pub fn lay_band(bundle: &[u8], work: &mut [u8], at: usize, a: Source, b: Source, band: Band)
    requires { Laying bundle.now work.old at a b band }
    ensures { BandLaid bundle.now work.old at a b band band.lines work.new }
{
    if band.second.length == 0 && band.third.length == 0 {
        lay_one_run(bundle, work, at, a, b, band);
    } else {
        lay_lines(bundle, work, at, a, b, band);
    }
}
