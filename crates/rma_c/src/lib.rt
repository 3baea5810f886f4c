// The C face as a static library: each call of `rma` under its C name, with the same promise.
#![tactic(auto)]

ghost use Rattle.std.specs.Prelude.{◌≡◌};
ghost use Rattle.paper.specs.Cells.{encode};
ghost use Rattle.paper.specs.Json.{write_json};
ghost use Rattle.paper.specs.Listing.{plan as paper_plan, run as paper_run, page as paper_page};
ghost use Rattle.paper.specs.Reference.{reference, walk as paper_walk};
ghost use Rattle.c_told.specs.Said.{capped_in, spoken};
ghost use Rattle.refer.specs.Chosen.{array_told};
ghost use Rattle.run.specs.Plans.{extent as last_extent};
ghost use Rattle.c_asked.specs.Asked.{count_of, pack_heads, stretch_heads, coordinate_in, place_in, place_after, total_asked};
ghost use Rattle.c_told.specs.Given.{number_bytes, array_bytes, foreseen_bytes, seen_bytes, total_bytes, listed_bytes, part_bytes};
ghost use Rattle.rma.specs.Versions.{json_by_head};

#[unsafe(no_mangle)]
pub extern "C" fn rma_read(bundle: &[u8], said: &mut [u8]) -> u32
    ensures { record { number = result; said = said.new }
        ≡ spoken number_bytes (count_of bundle.now) said.old }
{
    rma::rma_read(bundle, said)
}

#[unsafe(no_mangle)]
pub extern "C" fn rma_array(bundle: &[u8], array: u32, said: &mut [u8]) -> u32
    ensures { record { number = result; said = said.new }
        ≡ spoken array_bytes (array_told bundle.now array) said.old }
{
    rma::rma_array(bundle, array, said)
}

// The bundle of the arrays that `heads` describes, with their cells, in `out`: its length.
#[unsafe(no_mangle)]
pub extern "C" fn rma_pack(
    version: u32,
    heads: &[u8],
    cells: &[u8],
    out: &mut [u8],
    said: &mut [u8],
) -> u32
    ensures { (record { number = result; said = said.new }
        ≡ spoken number_bytes (pack_heads version heads.now cells.now out.old).answer said.old)
        × (out.new ≡ (pack_heads version heads.now cells.now out.old).buffer) }
{
    rma::rma_pack(version, heads, cells, out, said)
}

// The cell at a coordinate.
#[unsafe(no_mangle)]
pub extern "C" fn rma_refer(bundle: &[u8], array: u32, coordinate: &[u8], said: &mut [u8]) -> u32
    ensures { record { number = result; said = said.new }
        ≡ spoken encode (reference bundle.now array (coordinate_in coordinate.now)) said.old }
{
    rma::rma_refer(bundle, array, coordinate, said)
}

// The cell at the walking place, or the end; the place is moved forward where it stands.
#[unsafe(no_mangle)]
pub extern "C" fn rma_walk(bundle: &[u8], array: u32, place: &mut [u8], said: &mut [u8]) -> u32
    ensures { (record { number = result; said = said.new }
        ≡ spoken seen_bytes (paper_walk bundle.now array (place_in place.old)).answer said.old)
        × (place.new
        ≡ place_after (paper_walk bundle.now array (place_in place.old)).place place.old) }
{
    rma::rma_walk(bundle, array, place, said)
}

// A total, by its number: filled, TRUE, smallest, largest, sum, average.
#[unsafe(no_mangle)]
pub extern "C" fn rma_total(bundle: &[u8], array: u32, which: u32, said: &mut [u8]) -> u32
    ensures { record { number = result; said = said.new }
        ≡ spoken total_bytes (total_asked bundle.now array which) said.old }
{
    rma::rma_total(bundle, array, which, said)
}

// The array as JSON, in `out`: the text's length.
#[unsafe(no_mangle)]
pub extern "C" fn rma_write_json(bundle: &[u8], array: u32, out: &mut [u8], said: &mut [u8]) -> u32
    ensures { (record { number = result; said = said.new }
        ≡ spoken number_bytes (write_json bundle.now array out.old).answer said.old)
        × (out.new ≡ (write_json bundle.now array out.old).buffer) }
{
    rma::rma_write_json(bundle, array, out, said)
}

// JSON read into `cells`, of the type and extent that `head` names: the number of cells. A byte place that is refused never wraps.
#[unsafe(no_mangle)]
pub extern "C" fn rma_read_json(
    version: u32,
    head: &[u8],
    text: &[u8],
    cells: &mut [u8],
    said: &mut [u8],
) -> u32
    ensures { (record { number = result; said = said.new }
        ≡ spoken number_bytes (capped_in (json_by_head version head.now text.now cells.old).answer)
        said.old)
        × (cells.new ≡ (json_by_head version head.now text.now cells.old).buffer) }
{
    rma::rma_read_json(version, head, text, cells, said)
}

// What a run will need and give: the number of cells of all results, and the last one's type, axis count and number of cells.
#[unsafe(no_mangle)]
pub extern "C" fn rma_plan(bundle: &[u8], recipe: &[u8], said: &mut [u8]) -> u32
    ensures { record { number = result; said = said.new }
        ≡ spoken foreseen_bytes (paper_plan bundle.now recipe.now) said.old }
{
    rma::rma_plan(bundle, recipe, said)
}

// The head of the last result, in `extent`: its length.
#[unsafe(no_mangle)]
pub extern "C" fn rma_extent(
    bundle: &[u8],
    recipe: &[u8],
    extent: &mut [u8],
    said: &mut [u8],
) -> u32
    ensures { (record { number = result; said = said.new }
        ≡ spoken number_bytes (last_extent bundle.now recipe.now extent.old).answer said.old)
        × (extent.new ≡ (last_extent bundle.now recipe.now extent.old).buffer) }
{
    rma::rma_extent(bundle, recipe, extent, said)
}

// The results of all steps in the work area: the number of their cells.
#[unsafe(no_mangle)]
pub extern "C" fn rma_run(bundle: &[u8], recipe: &[u8], work: &mut [u8], said: &mut [u8]) -> u32
    ensures { (record { number = result; said = said.new }
        ≡ spoken number_bytes (paper_run bundle.now recipe.now work.old).answer said.old)
        × (work.new ≡ (paper_run bundle.now recipe.now work.old).buffer) }
{
    rma::rma_run(bundle, recipe, work, said)
}

// The same, and the rows of TRUE cells from `start` on: how many, and where to go on.
#[unsafe(no_mangle)]
pub extern "C" fn rma_page(
    bundle: &[u8],
    recipe: &[u8],
    work: &mut [u8],
    start: u32,
    rows: &mut [u8],
    said: &mut [u8],
) -> u32
    ensures { (record { number = result; said = said.new }
        ≡ spoken listed_bytes (paper_page bundle.now recipe.now work.old start rows.old).answer
        said.old)
        × (work.new ≡ (paper_page bundle.now recipe.now work.old start rows.old).work)
        × (rows.new
        ≡ (paper_page bundle.now recipe.now work.old start rows.old).rows) }
{
    rma::rma_page(bundle, recipe, work, start, rows, said)
}

// The stretch from an ordinality on: its side, 1 for the left and 2 for the right, and the bytes of that side's cells from and up to
// which it lies.
#[unsafe(no_mangle)]
pub extern "C" fn rma_stretch(
    version: u32,
    left_head: &[u8],
    left: &[u8],
    right_head: &[u8],
    right: &[u8],
    axis: u32,
    ordinality: u32,
    said: &mut [u8],
) -> u32
    ensures { record { number = result; said = said.new }
        ≡ spoken part_bytes (stretch_heads version left_head.now left.now right_head.now
        right.now axis ordinality) said.old }
{
    rma::rma_stretch(
        version, left_head, left, right_head, right, axis, ordinality, said,
    )
}
