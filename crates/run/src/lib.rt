// The plan, run and page calls: the bundle and the recipe tested, the work area and the row buffer tested, then the values of all steps,
// then the rows. No row is written before every value is known.
#![tactic(auto)]

ghost use Rattle.std.specs.Prelude.{◌≡◌, ◌≤◌, IfOk};
ghost use Rattle.paper.specs.Limits.{most_steps, most_cells};
ghost use Rattle.paper.specs.Axes.{cells as cells_in};
ghost use Rattle.paper.specs.Answers.{axes_of};
ghost use Rattle.paper.specs.Listing.{plan as paper_plan, run as paper_run, page as paper_page};
ghost use Rattle.recipe.specs.Whole.{lent};
ghost use Rattle.values.specs.Runs.{Running};
ghost use Rattle.run.specs.Tests.{PlannedFor, PageJudged};
ghost use Rattle.run.specs.Plans.{extent as last_extent};
ghost use Rattle.run.specs.Calls.{Settled, listed_in, RowAxes};

use bundle::read;
use cell::bytes::clear_bytes;
use extent::rank_of;
use listing::list;
use pack::put::{put_head, whole_head};
use paper::{
    ARRAYS, BOOLEAN, CELL_BYTES, Foreseen, Head, LIMIT_BYTES, Listed, Ordinality, Refusal, Version,
};
use recipe::{Plan, empty_plan, plan_recipe};
use refusals::refuse;
use values::run_steps;

// A page, and how many positions each of its rows has.
#[derive(Clone, Copy)]
pub struct PageRows {
    pub listed: Listed,
    pub axes: usize,
}

// ---- tests

// The bundle, then the recipe: planned in the plan that is lent, or the first refusal of either.
fn planned(bundle: &[u8], recipe: &[u8], plan: &mut Plan) -> Result<(), Refusal>
    ensures { PlannedFor bundle.now recipe.now (lent result plan.new) }
{
    let reading = read(bundle)?;
    plan_recipe(reading, recipe, plan)
}

// A page's own tests: the listing's type, the work area, the row buffer and the start. `res` is the last of `steps` results, which
// have so many bytes.
fn page_tests(
    res: Head,
    steps: usize,
    bytes: usize,
    work: usize,
    start: Ordinality,
    rows: usize,
) -> Result<(), Refusal>
    requires steps_le_most_steps { steps ≤ most_steps }
    requires cells_le_most_cells { res.cells ≤ most_cells }
    requires cells_value { res.cells ≡ cells_in (axes_of res.form.extent) }
    ensures { PageJudged res steps bytes work start.0 rows result }
{
    if res.form.kind != BOOLEAN {
        return Err(refuse(7, steps as u32));
    }
    if work < bytes {
        return Err(refuse(10, 0));
    }
    if rows < LIMIT_BYTES + LIMIT_BYTES * rank_of(res.form.extent) {
        return Err(refuse(11, 0));
    }
    if start.0 == 0 {
        return Err(refuse(11, 0));
    }
    if res.cells + 1 < start.0 as usize {
        return Err(refuse(11, 0));
    }
    Ok(())
}

// ---- values

// The values of all steps; where a cell refuses, zeros in their place.
fn settle(bundle: &[u8], recipe: &[u8], plan: Plan, work: &mut [u8]) -> Result<(), Refusal>
    requires { Running bundle.now recipe.now plan work.old }
    ensures { Settled bundle.now recipe.now plan work.old result work.new }
{
    if let Err(refusal) = run_steps(bundle, recipe, plan, work) {
        clear_bytes(work, 0, plan.cells * CELL_BYTES);
        return Err(refusal);
    }
    Ok(())
}

// ---- the calls

// A plan, before anything is lent: T, and the last result's type, axis count and number of cells.
pub fn plan(bundle: &[u8], recipe: &[u8]) -> Result<Foreseen, Refusal>
    ensures { result ≡ paper_plan bundle.now recipe.now }
{
    let mut plan = empty_plan(Version::One);
    planned(bundle, recipe, &mut plan)?;
    let operand = plan.operands[ARRAYS + plan.count];
    Ok(Foreseen {
        total: plan.cells as u32,
        kind: operand.head.form.kind,
        axes: rank_of(operand.head.form.extent) as u32,
        cells: operand.head.cells as u32,
    })
}

// The head of the last result, whole, in the bundle's version, at the beginning of `head`: its length.
pub fn extent(bundle: &[u8], recipe: &[u8], head: &mut [u8]) -> Result<u32, Refusal>
    ensures { record { answer = result; buffer = head.new }
        ≡ last_extent bundle.now recipe.now head.old }
{
    let mut plan = empty_plan(Version::One);
    planned(bundle, recipe, &mut plan)?;
    let v = plan.version;
    let long = whole_head(v);
    if head.len() < long {
        return Err(refuse(14, 0));
    }
    let operand = plan.operands[ARRAYS + plan.count];
    clear_bytes(head, 0, long);
    put_head(v, operand.head.form, head, 0);
    Ok(long as u32)
}

// A run: the results of all steps in the work area, and how many cells they have.
pub fn run(bundle: &[u8], recipe: &[u8], work: &mut [u8]) -> Result<u32, Refusal>
    ensures { record { answer = result; buffer = work.new }
        ≡ paper_run bundle.now recipe.now work.old }
{
    let mut plan = empty_plan(Version::One);
    planned(bundle, recipe, &mut plan)?;
    if work.len() < plan.cells * CELL_BYTES {
        return Err(refuse(10, 0));
    }
    settle(bundle, recipe, plan, work)?;
    Ok(plan.cells as u32)
}

// A page: the run, and a row for each TRUE cell of the last result from `start` on, until the buffer has no room for another.
pub fn page_rows(
    bundle: &[u8],
    recipe: &[u8],
    work: &mut [u8],
    start: Ordinality,
    rows: &mut [u8],
) -> Result<PageRows, Refusal>
    ensures { (record { answer = listed_in result; work = work.new; rows = rows.new }
        ≡ paper_page bundle.now recipe.now work.old start.0 rows.old)
        × IfOk result (RowAxes bundle.now recipe.now) }
{
    let mut plan = empty_plan(Version::One);
    planned(bundle, recipe, &mut plan)?;
    let last = plan.operands[ARRAYS + plan.count];
    let bytes = plan.cells * CELL_BYTES;
    page_tests(last.head, plan.count, bytes, work.len(), start, rows.len())?;
    settle(bundle, recipe, plan, work)?;
    let extent = last.head.form.extent;
    let listed = list(work, last.head.at, extent, last.head.cells, start, rows);
    let axes = rank_of(extent);
    Ok(PageRows { listed, axes })
}

// The page alone.
pub fn page(
    bundle: &[u8],
    recipe: &[u8],
    work: &mut [u8],
    start: Ordinality,
    rows: &mut [u8],
) -> Result<Listed, Refusal>
    ensures { record { answer = result; work = work.new; rows = rows.new }
        ≡ paper_page bundle.now recipe.now work.old start.0 rows.old }
{
    let found = page_rows(bundle, recipe, work, start, rows)?;
    Ok(found.listed)
}
