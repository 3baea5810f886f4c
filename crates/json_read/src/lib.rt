// A JSON text read into the cells of an array whose type and extent the caller names (request [5]). The text is read once, each cell stored
// in a buffer of the reader's own; the caller's is written when no refusal is left, so that every refusal leaves it as it was.
#![tactic(auto)]

ghost use Rattle.std.specs.Prelude.{◌≡◌, length};
ghost use Rattle.paper.specs.Limits.{sizes_of};
ghost use Rattle.paper.specs.Answers.{axes_of, names_for, json_said, json_exact};
ghost use Rattle.paper.specs.JsonRead.{cells_as, fill_with, read_json};
ghost use Rattle.json_read.specs.Read.{form_tests, HasCells, Filled};

use cell::bytes::copy_bytes;
use form::form_cells;
use paper::{AXES, CELL_BYTES, Extent, FLOAT, JsonRefusal, Name, Refusal, Version};
use refusals::refuse;
use scan::scan;
use versions::version_told;

pub mod fit;
pub mod parts;
pub mod scan;

// Bytes of the cells of the largest array.
const MOST: usize = 4096 * CELL_BYTES;

// What the caller names: 1 for the type or axis count, 2 for a name that is too long or the extent, 7 for FLOAT.
fn form_judged(v: Version, kind: u8, names: [Name; AXES], e: Extent) -> Result<(), Refusal>
    ensures { result ≡ form_tests (sizes_of v) kind (names_for (axes_of e) names) (axes_of e) }
{
    form_cells(v, kind, names, e, 0)?;
    if kind == FLOAT {
        return Err(refuse(7, 0));
    }
    Ok(())
}

// n cells from the reader's buffer into the caller's: 14 where that is too short.
fn fill(found: &[u8], n: usize, cells: &mut [u8]) -> Result<(), Refusal>
    requires { HasCells (length found.now) n }
    ensures { Filled found.now n cells.old result cells.new }
{
    let bytes = n * CELL_BYTES;
    if cells.len() < bytes {
        return Err(refuse(14, 0));
    }
    copy_bytes(found, 0, cells, 0, bytes);
    Ok(())
}

// In a version: the number of cells, or the refusal; then `cells` is as it was.
pub fn read_as(
    v: Version,
    kind: u8,
    names: [Name; AXES],
    extent: Extent,
    text: &[u8],
    cells: &mut [u8],
) -> Result<u32, JsonRefusal>
    ensures { (json_said result ≡ (fill_with cells.old (cells_as (sizes_of v) kind (names_for (axes_of extent) names) (axes_of extent)
        text.now (length cells.old))).answer)
        × (cells.new ≡ (fill_with cells.old (cells_as (sizes_of v) kind (names_for (axes_of extent) names) (axes_of extent)
        text.now (length cells.old))).buffer) × json_exact result }
{
    form_judged(v, kind, names, extent)?;
    let mut buffer = [0u8; MOST];
    let n = scan(text, kind, extent, &mut buffer)?;
    fill(&buffer, n, cells)?;
    Ok(n as u32)
}

// In the version told.
pub fn read(
    version: u32,
    kind: u8,
    names: [Name; AXES],
    extent: Extent,
    text: &[u8],
    cells: &mut [u8],
) -> Result<u32, JsonRefusal>
    ensures { (json_said result ≡ (read_json version kind (names_for (axes_of extent) names) (axes_of extent) text.now
        cells.old).answer)
        × (cells.new ≡ (read_json version kind (names_for (axes_of extent) names) (axes_of extent) text.now
        cells.old).buffer) × json_exact result }
{
    let v = version_told(version)?;
    read_as(v, kind, names, extent, text, cells)
}
