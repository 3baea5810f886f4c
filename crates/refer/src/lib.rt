// References and walks: an array of a bundle chosen by its number, the cell at a coordinate, and the cell at a walking place.
#![tactic(auto)]

ghost use Rattle.std.specs.Prelude.{◌≡◌, ◌+◌, ◌*◌, ◌≤◌, length, take, map};
ghost use Rattle.paper.specs.Limits.{most_axes, cell_bytes};
ghost use Rattle.paper.specs.Numbers.{part, distance};
ghost use Rattle.paper.specs.Cells.{cell_of};
ghost use Rattle.paper.specs.Reference.{reference, seen, walk};
ghost use Rattle.paper.specs.Answers.{walk_said};
ghost use Rattle.laws.specs.Judged.{or_empty};
ghost use Rattle.refer.specs.Chosen.{ChosenHead};
ghost use Rattle.refer.specs.Places.{Few};

use bundle::read;
use cell::bytes::read_cell;
use extent::rank_of;
use paper::{CELL_BYTES, Cell, Head, Ordinality, Place, Refusal, Walk};
use place::{Coordinate, found};
use positions::distance_of;
use refusals::{in_range, refuse};

pub mod walk;

// The head of array k of the bundle.
pub fn choose(s: &[u8], k: u32) -> Result<Head, Refusal>
    ensures { ChosenHead s.now k result }
{
    let reading = read(s)?;
    if k == 0 {
        return Err(refuse(4, k));
    }
    let i = k as usize;
    if reading.count < i {
        return Err(refuse(4, k));
    }
    Ok(reading.heads[i - 1])
}

// Cell i, from 0, of an array whose cells begin at `at`: judged before, so it is one.
pub fn held_cell(s: &[u8], at: usize, kind: u8, i: usize) -> Cell
    requires { at + i * cell_bytes + cell_bytes ≤ length s.now }
    ensures { result ≡ or_empty (cell_of kind (part (at + i * cell_bytes) cell_bytes s.now)) }
{
    read_cell(s, at + i * CELL_BYTES, kind).unwrap_or(Cell::Empty)
}

// The distance above -1,000,000 of a signed number.
fn distance_to(z: i32) -> u32
    ensures { result ≡ distance z }
{
    distance_of(z.cast_unsigned())
}

// A coordinate from its signed numbers.
fn coordinate_at(zs: &[i32]) -> Coordinate
    requires { length zs.now ≤ most_axes }
    ensures { take (length zs.now) result.at ≡ map distance zs.now }
{
    let mut at = [0u32; paper::AXES];
    for (i, z) in zs.iter().enumerate() {
        at[i] = distance_to(*z);
    }
    Coordinate { at }
}

// The cell of array k at a coordinate.
pub fn refer(s: &[u8], k: u32, coordinates: &[i32]) -> Result<Cell, Refusal>
    ensures { result ≡ reference s.now k coordinates.now }
{
    let head = choose(s, k)?;
    if coordinates.len() != rank_of(head.form.extent) {
        return Err(refuse(5, k));
    }
    let p = coordinate_at(coordinates);
    match found(head.form.extent, head.form.maximum, p) {
        Place::At(o) => Ok(held_cell(s, head.at, head.form.kind, o.0 as usize - 1)),
        Place::InMaximum => Ok(Cell::Empty),
        Place::Beyond => Err(refuse(6, k)),
    }
}

// What a walk over array k sees at ordinality o: the cell, or the end after the last.
fn seen(s: &[u8], k: u32, o: usize) -> Result<Option<Cell>, Refusal>
    ensures { (result ≡ seen s.now k o) × Few o result }
{
    let head = choose(s, k)?;
    let end = head.cells + 1;
    if !in_range(o, end) {
        return Err(refuse(6, k));
    }
    if o == end {
        return Ok(None);
    }
    Ok(Some(held_cell(s, head.at, head.form.kind, o - 1)))
}

// One step of a walk over array k: the cell at the walking place, or the end, and the place after it.
pub fn walk_step(s: &[u8], k: u32, place: Ordinality) -> Walk
    ensures { walk_said result ≡ walk s.now k place.0 }
{
    let answer = seen(s, k, place.0 as usize);
    let place = match answer {
        Ok(Some(_)) => Ordinality(place.0 + 1),
        Ok(None) => place,
        Err(_) => place,
    };
    Walk { answer, place }
}
