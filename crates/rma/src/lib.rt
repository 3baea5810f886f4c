// The engine for other languages: a call a public part, with numbers and byte slices only. A call returns the number of its refusal, 0
// for none, and writes its answer's bytes, or the refusal's place and ordinality, to `said`: as many as there is room for.
#![tactic(auto)]

ghost use Rattle.std.specs.Prelude.{◌≡◌};
ghost use Rattle.paper.specs.Cells.{encode};
ghost use Rattle.paper.specs.Json.{write_json};
ghost use Rattle.paper.specs.Listing.{plan as paper_plan, run as paper_run, page as paper_page};
ghost use Rattle.paper.specs.Reference.{reference, walk as paper_walk};
ghost use Rattle.c_told.specs.Said.{answered, capped_in, spoken};
ghost use Rattle.refer.specs.Chosen.{array_told};
ghost use Rattle.run.specs.Plans.{extent as last_extent};
ghost use Rattle.c_asked.specs.Asked.{count_of, pack_heads, stretch_heads, coordinate_in, place_in, place_after, total_asked};
ghost use Rattle.c_told.specs.Given.{number_bytes, array_bytes, foreseen_bytes, seen_bytes, total_bytes, listed_bytes, part_bytes};
ghost use Rattle.c_told.specs.Replies.{Tells};
ghost use Rattle.rma.specs.Versions.{HeadsPacked, HeadsStretched, HeadRead, json_by_head};

use bundle::read;
use c_asked::{forms_in, refer_bytes, side_form, total_asked, walk_bytes};
use c_told::{Reply, give, of_json, of_numbers, refused, reply_of};
use extent::rank_of;
use json_read::read_as;
use json_write::write;
use pack::pack_as;
use paper::{AxisIndex, JsonRefusal, Ordinality, Part, Refusal};
use refer::choose;
use refusals::refuse;
use run::{page, plan, run};
use stretch::plan_as;
use versions::version_told;

// ---- a bundle

// The number of arrays.
fn count_of(bundle: &[u8]) -> Result<u32, Refusal>
    ensures { result ≡ count_of bundle.now }
{
    let reading = read(bundle)?;
    Ok(reading.count as u32)
}

pub fn rma_read(bundle: &[u8], said: &mut [u8]) -> u32
    ensures { record { number = result; said = said.new }
        ≡ spoken number_bytes (count_of bundle.now) said.old }
{
    give(said, reply_of(count_of(bundle)))
}

// An array's type, axis count, number of cells, and the byte at which they begin.
fn array_told(bundle: &[u8], array: u32) -> Reply
    ensures { Tells (answered array_bytes (array_told bundle.now array)) result }
{
    match choose(bundle, array) {
        Ok(head) => {
            let form = head.form;
            let rank = rank_of(form.extent) as u32;
            let cells = head.cells as u32;
            let at = head.at as u32;
            of_numbers(0, c_told::MOST, form.kind as u32, rank, cells, at)
        }
        Err(refusal) => refused(refusal),
    }
}

pub fn rma_array(bundle: &[u8], array: u32, said: &mut [u8]) -> u32
    ensures { record { number = result; said = said.new }
        ≡ spoken array_bytes (array_told bundle.now array) said.old }
{
    give(said, array_told(bundle, array))
}

// The bundle of the arrays that `heads` describes, in the version told; another than 1 and 2 is refused before all else.
fn pack_heads(version: u32, heads: &[u8], cells: &[u8], out: &mut [u8]) -> Result<u32, Refusal>
    ensures { HeadsPacked version heads.now cells.now out.old result out.new }
{
    let v = version_told(version)?;
    let asked = forms_in(v, heads);
    let forms = asked.forms;
    pack_as(v, asked.count, forms, cells, out)
}

// The bundle of the arrays that `heads` describes, with their cells, in `out`: its length.
pub fn rma_pack(version: u32, heads: &[u8], cells: &[u8], out: &mut [u8], said: &mut [u8]) -> u32
    ensures { (record { number = result; said = said.new }
        ≡ spoken number_bytes (pack_heads version heads.now cells.now out.old).answer said.old)
        × (out.new ≡ (pack_heads version heads.now cells.now out.old).buffer) }
{
    give(said, reply_of(pack_heads(version, heads, cells, out)))
}

// ---- one array

// The cell at a coordinate.
pub fn rma_refer(bundle: &[u8], array: u32, coordinate: &[u8], said: &mut [u8]) -> u32
    ensures { record { number = result; said = said.new }
        ≡ spoken encode (reference bundle.now array (coordinate_in coordinate.now)) said.old }
{
    give(said, reply_of(refer_bytes(bundle, array, coordinate)))
}

// The cell at the walking place, or the end; the place is moved forward where it stands.
pub fn rma_walk(bundle: &[u8], array: u32, place: &mut [u8], said: &mut [u8]) -> u32
    ensures { (record { number = result; said = said.new }
        ≡ spoken seen_bytes (paper_walk bundle.now array (place_in place.old)).answer said.old)
        × (place.new
        ≡ place_after (paper_walk bundle.now array (place_in place.old)).place place.old) }
{
    give(said, reply_of(walk_bytes(bundle, array, place)))
}

// A total, by its number: filled, TRUE, smallest, largest, sum, average.
pub fn rma_total(bundle: &[u8], array: u32, which: u32, said: &mut [u8]) -> u32
    ensures { record { number = result; said = said.new }
        ≡ spoken total_bytes (total_asked bundle.now array which) said.old }
{
    give(said, reply_of(total_asked(bundle, array, which)))
}

// The array as JSON, in `out`: the text's length.
pub fn rma_write_json(bundle: &[u8], array: u32, out: &mut [u8], said: &mut [u8]) -> u32
    ensures { (record { number = result; said = said.new }
        ≡ spoken number_bytes (write_json bundle.now array out.old).answer said.old)
        × (out.new ≡ (write_json bundle.now array out.old).buffer) }
{
    give(said, reply_of(write(bundle, array, out)))
}

// A text read into the cells of the array that `head` describes, in the version told; another than 1 and 2 is refused before all else.
fn json_by_head(
    version: u32,
    head: &[u8],
    text: &[u8],
    cells: &mut [u8],
) -> Result<u32, JsonRefusal>
    ensures { HeadRead version head.now text.now cells.old result cells.new }
{
    let v = version_told(version)?;
    let form = side_form(v, head);
    let names = form.names;
    read_as(v, form.kind, names, form.extent, text, cells)
}

// JSON read into `cells`, of the type and extent that `head` names: the number of cells. A byte place that is refused never wraps.
pub fn rma_read_json(
    version: u32,
    head: &[u8],
    text: &[u8],
    cells: &mut [u8],
    said: &mut [u8],
) -> u32
    ensures { (record { number = result; said = said.new }
        ≡ spoken number_bytes (capped_in (json_by_head version head.now text.now cells.old).answer)
        said.old)
        × (cells.new ≡ (json_by_head version head.now text.now cells.old).buffer) }
{
    give(said, of_json(json_by_head(version, head, text, cells)))
}

// ---- a recipe

// What a run will need and give: the number of cells of all results, and the last one's type, axis count and number of cells.
pub fn rma_plan(bundle: &[u8], recipe: &[u8], said: &mut [u8]) -> u32
    ensures { record { number = result; said = said.new }
        ≡ spoken foreseen_bytes (paper_plan bundle.now recipe.now) said.old }
{
    give(said, reply_of(plan(bundle, recipe)))
}

// The head of the last result, in `extent`: its length.
pub fn rma_extent(bundle: &[u8], recipe: &[u8], extent: &mut [u8], said: &mut [u8]) -> u32
    ensures { (record { number = result; said = said.new }
        ≡ spoken number_bytes (last_extent bundle.now recipe.now extent.old).answer said.old)
        × (extent.new ≡ (last_extent bundle.now recipe.now extent.old).buffer) }
{
    give(said, reply_of(run::extent(bundle, recipe, extent)))
}

// The results of all steps in the work area: the number of their cells.
pub fn rma_run(bundle: &[u8], recipe: &[u8], work: &mut [u8], said: &mut [u8]) -> u32
    ensures { (record { number = result; said = said.new }
        ≡ spoken number_bytes (paper_run bundle.now recipe.now work.old).answer said.old)
        × (work.new ≡ (paper_run bundle.now recipe.now work.old).buffer) }
{
    give(said, reply_of(run(bundle, recipe, work)))
}

// The same, and the rows of TRUE cells from `start` on: how many, and where to go on.
pub fn rma_page(
    bundle: &[u8],
    recipe: &[u8],
    work: &mut [u8],
    start: u32,
    rows: &mut [u8],
    said: &mut [u8],
) -> u32
    ensures { (record { number = result; said = said.new }
        ≡ spoken listed_bytes (paper_page bundle.now recipe.now work.old start rows.old).answer
        said.old)
        × (work.new ≡ (paper_page bundle.now recipe.now work.old start rows.old).work)
        × (rows.new
        ≡ (paper_page bundle.now recipe.now work.old start rows.old).rows) }
{
    let answer = page(bundle, recipe, work, Ordinality(start), rows);
    give(said, reply_of(answer))
}

// ---- a glued array

// The stretch of two sides, in the version told; another than 1 and 2 is refused before all else.
fn stretch_heads(
    version: u32,
    left_head: &[u8],
    left: usize,
    right_head: &[u8],
    right: usize,
    axis: AxisIndex,
    o: Ordinality,
) -> Result<Part, Refusal>
    ensures { HeadsStretched version left_head.now left right_head.now right axis.0 o.0 result }
{
    let v = version_told(version)?;
    let l = side_form(v, left_head);
    let r = side_form(v, right_head);
    let left_names = l.names;
    let right_names = r.names;
    plan_as(
        v,
        l.kind,
        left_names,
        l.extent,
        left,
        r.kind,
        right_names,
        r.extent,
        right,
        axis,
        o,
    )
}

// The stretch from an ordinality on: its side, 1 for the left and 2 for the right, and the bytes of that side's cells from and up to
// which it lies.
pub fn rma_stretch(
    version: u32,
    left_head: &[u8],
    left: &[u8],
    right_head: &[u8],
    right: &[u8],
    axis: u32,
    ordinality: u32,
    said: &mut [u8],
) -> u32
    ensures { record { number = result; said = said.new }
        ≡ spoken part_bytes (stretch_heads version left_head.now left.now right_head.now
        right.now axis ordinality) said.old }
{
    let answer = stretch_heads(
        version,
        left_head,
        left.len(),
        right_head,
        right.len(),
        AxisIndex(axis),
        Ordinality(ordinality),
    );
    give(said, reply_of(answer))
}
