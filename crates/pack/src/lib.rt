// Packing: types, extents, maxima and cells are judged as reading does, then written as a bundle of a version.
// Nothing is written before every test has passed: a refusal leaves the output buffer untouched.
#![tactic(auto)]

ghost use Rattle.paper.specs.Limits.{sizes_of};
ghost use Rattle.pack.specs.Laid.{shapes_of};
ghost use Rattle.pack.specs.Laying.{PackedAs, PackedInto};

use judge::judged;
use paper::{Form, Refusal, Version};
use put::{put_arrays, put_mark};
use refusals::refuse;
use versions::version_told;

pub mod judge;
pub mod put;

// The bundle of the first `count` forms, their cells in turn, into `out`: its length in bytes, or the first refusal in the paper's
// order.
pub fn pack_as(
    v: Version,
    count: usize,
    forms: [Form; paper::ARRAYS],
    cells: &[u8],
    out: &mut [u8],
) -> Result<u32, Refusal>
    ensures { PackedAs (sizes_of v) (shapes_of count forms) cells.now out.old result out.new }
{
    let long = judged(v, count, forms, cells)?;
    if out.len() < long {
        return Err(refuse(14, 0));
    }
    put_mark(v, out, count as u8);
    put_arrays(v, count, forms, cells, out);
    Ok(long as u32)
}

// So of the version that a number tells of: another than 1 and 2 is refused before all else.
pub fn pack(
    version: u32,
    count: usize,
    forms: [Form; paper::ARRAYS],
    cells: &[u8],
    out: &mut [u8],
) -> Result<u32, Refusal>
    ensures { PackedInto version (shapes_of count forms) cells.now out.old result out.new }
{
    let v = version_told(version)?;
    pack_as(v, count, forms, cells, out)
}
