// A glued array read without being built: the stretch from a cell up to where the other side begins is a part of the left or of the
// right cell buffer. The version told is judged, then each side, then what gluing asks, then the ordinality; cells aren't.
#![tactic(auto)]

ghost use Rattle.std.specs.Prelude.{◌*◌, ◌≤◌, ◌≡◌, length, Ok};
ghost use Rattle.paper.specs.Limits.{most_cells, cell_bytes, sizes_of};
ghost use Rattle.paper.specs.Stretch.{Side, stretch_in, stretch as paper_stretch, handed_out};
ghost use Rattle.paper.specs.Answers.{axes_of};
ghost use Rattle.extent.specs.Judged.{Small};
ghost use Rattle.origin.specs.Asks.{InTurns};
ghost use Rattle.stretch.specs.Sides.{sided, SideJudged, GlueJudged};
ghost use Rattle.stretch.specs.Turns.{turn_part, InBuffer};
ghost use Rattle.stretch.specs.Plans.{StretchFound};
ghost use Rattle.stretch.specs.Handed.{Handed};

use extent::{good_extent, rank_of};
use form::form_cells;
use origin::{Origin, block_of, in_turns};
use paper::{
    AXES, AxisIndex, CELL_BYTES, Extent, Move, Name, Operation, Ordinality, Part, Refusal, Version,
};
use refusals::{in_range, refuse, refuse_at};
use shape::glued_along;
use step::agreeing::difference;
use versions::version_told;

// ---- tests, each group by its first refusal

// A side: 1 for its type or axis count, 2 for a name that is too long or its extent, 1 for a buffer that has not 9 bytes a cell.
fn side_judged(
    v: Version,
    kind: u8,
    names: [Name; AXES],
    e: Extent,
    bytes: usize,
    place: u32,
) -> Result<(), Refusal>
    ensures { SideJudged (sizes_of v) kind names e bytes place result }
{
    let n = form_cells(v, kind, names, e, place)?;
    if bytes != n * CELL_BYTES {
        return Err(refuse(1, place));
    }
    Ok(())
}

// What gluing asks of two sides: 5, 7, 8, 9.
fn glue_judged(
    left_kind: u8,
    left_names: [Name; AXES],
    left: Extent,
    right_kind: u8,
    right_names: [Name; AXES],
    right: Extent,
    axis: AxisIndex,
) -> Result<(), Refusal>
    requires small { Small (axes_of left) }
    requires small_2 { Small (axes_of right) }
    ensures { GlueJudged left_kind left_names left right_kind right_names right axis.0 result }
{
    if !in_range(axis.0 as usize, rank_of(left)) {
        return Err(refuse(5, 0));
    }
    if left_kind != right_kind {
        return Err(refuse(7, 0));
    }
    let glue = Operation::Moves(Move::Glue);
    let d = difference(glue, axis, left_names, left, right_names, right);
    if d != 0 {
        return Err(refuse_at(8, 0, d));
    }
    if good_extent(left_names, glued_along(left, right, axis)).is_none() {
        return Err(refuse(9, 0));
    }
    Ok(())
}

// ---- the stretch

// The byte of a side's buffer at which cell i, counted from 0, begins.
fn byte_of(i: usize) -> u32
    requires { i ≤ 2 * most_cells }
    ensures { result ≡ i * cell_bytes }
{
    (i * CELL_BYTES) as u32
}

// m cells of the left and n of the right in turn: the bytes from cell j, counted from 0, to the end of its side's turn.
fn in_turn(m: usize, n: usize, j: usize) -> Part
    requires in_turns { InTurns m n j }
    requires le_n { 1 ≤ n }
    ensures { result ≡ turn_part m n j }
{
    let cell = in_turns(m, n, j);
    match cell {
        Origin::FromA(i) => return Part::Left(byte_of(i), byte_of(i - i % m + m)),
        Origin::FromB(i) => return Part::Right(byte_of(i), byte_of(i - i % n + n)),
        Origin::Nowhere => return Part::Left(0, 0),
    }
}

// Where the stretch of two sides lies in a version, by the bytes of its side's cell buffer; or the first refusal.
pub fn plan_as(
    v: Version,
    left_kind: u8,
    left_names: [Name; AXES],
    left: Extent,
    left_bytes: usize,
    right_kind: u8,
    right_names: [Name; AXES],
    right: Extent,
    right_bytes: usize,
    axis: AxisIndex,
    o: Ordinality,
) -> Result<Part, Refusal>
    ensures { StretchFound (stretch_in (sizes_of v)) left_kind left_names left left_bytes
        right_kind right_names right right_bytes axis.0 o.0 result }
{
    side_judged(v, left_kind, left_names, left, left_bytes, 1)?;
    side_judged(v, right_kind, right_names, right, right_bytes, 2)?;
    glue_judged(
        left_kind,
        left_names,
        left,
        right_kind,
        right_names,
        right,
        axis,
    )?;
    if !in_range(o.0 as usize, (left_bytes + right_bytes) / CELL_BYTES) {
        return Err(refuse(6, 0));
    }
    let m = block_of(left, axis);
    let n = block_of(right, axis);
    Ok(in_turn(m, n, o.0 as usize - 1))
}

// So in the version that a number tells of: another than 1 and 2 is refused before all else.
pub fn plan_stretch(
    version: u32,
    left_kind: u8,
    left_names: [Name; AXES],
    left: Extent,
    left_bytes: usize,
    right_kind: u8,
    right_names: [Name; AXES],
    right: Extent,
    right_bytes: usize,
    axis: AxisIndex,
    o: Ordinality,
) -> Result<Part, Refusal>
    ensures { StretchFound (paper_stretch version) left_kind left_names left left_bytes
        right_kind right_names right right_bytes axis.0 o.0 result }
{
    let v = version_told(version)?;
    plan_as(
        v,
        left_kind,
        left_names,
        left,
        left_bytes,
        right_kind,
        right_names,
        right,
        right_bytes,
        axis,
        o,
    )
}

// ---- handed out

// The bytes of a part, of the buffer that owns it.
fn part_of<'a>(left: &'a [u8], right: &'a [u8], p: Part) -> &'a [u8]
    requires { InBuffer (length left.now) (length right.now) p }
    ensures { (L R : Side) → L.bytes ≡ left.now → R.bytes ≡ right.now → result.now ≡ handed_out L R (Ok p) }
{
    match p {
        Part::Left(from, to) => {
            let start = from as usize;
            let end = to as usize;
            &left[start..end]
        }
        Part::Right(from, to) => {
            let start = from as usize;
            let end = to as usize;
            &right[start..end]
        }
    }
}

// The stretch itself, and in `said` the refusal's number, place and ordinality: number 0 stands for none. With a refusal it is empty.
pub fn stretch<'a, 'b>(
    version: u32,
    left_kind: u8,
    left_names: [Name; AXES],
    left: Extent,
    left_cells: &'a [u8],
    right_kind: u8,
    right_names: [Name; AXES],
    right: Extent,
    right_cells: &'a [u8],
    axis: AxisIndex,
    o: Ordinality,
    said: &'b mut [u32; 3],
) -> &'a [u8]
    ensures { Handed version (sided left_kind left_names left left_cells.now)
        (sided right_kind right_names right right_cells.now)
        axis.0 o.0 result.now said.new }
{
    *said = [0u32, 0u32, 0u32];
    match plan_stretch(
        version,
        left_kind,
        left_names,
        left,
        left_cells.len(),
        right_kind,
        right_names,
        right,
        right_cells.len(),
        axis,
        o,
    ) {
        Ok(p) => part_of(left_cells, right_cells, p),
        Err(refusal) => {
            *said = [refusal.number as u32, refusal.place, refusal.ordinality];
            &left_cells[0..0]
        }
    }
}
