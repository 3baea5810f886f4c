// The exact total of INT cells. Each number goes in as its distance above the smallest INT, cut into two halves of 32 bits that are
// added up apart, so that nothing carries and all is unsigned. Of as many cells as an array has nothing wraps.
ghost use Rattle.std.specs.Prelude.{◌≡◌, ℕ, ◌<◌, List, [], ◌∷◌, ◌++◌, length, pos, ◌+ℤ◌, ◌-ℤ◌};
ghost use Rattle.paper.specs.Limits.{smallest_int, most_cells};
ghost use Rattle.paper.specs.Operators.{answered};
ghost use Rattle.paper.specs.Totals.{Numbered, int, int_sum};
ghost use Rattle.cell.specs.Totals.{Sums};

use paper::{Cell, Fault};

const SIGN: u64 = 9223372036854775808;

const HALF: u64 = 4294967296;

#[derive(Clone, Copy)]
pub struct Exact {
    pub high: u64,
    pub low: u64,
    pub count: u32,
}

// How far z lies above the smallest INT.
pub fn distance(z: i64) -> u64
    ensures { pos result ≡ z -ℤ smallest_int }
{
    z.cast_unsigned().wrapping_add(SIGN)
}

// The number that lies x above the smallest INT.
pub fn above(x: u64) -> i64
    ensures { result ≡ pos x +ℤ smallest_int }
{
    x.wrapping_add(SIGN).cast_signed()
}

// No cell yet.
pub fn exact_none() -> Exact
    ensures { Sums result [] }
{
    Exact {
        high: 0,
        low: 0,
        count: 0,
    }
}

// One cell more, whose number is z.
pub fn exact_with(t: Exact, z: i64) -> Exact
    ensures { (cs : List Numbered) (c : Numbered) → Sums t cs → int c.cell ≡ z → length cs < most_cells
        → Sums result (cs ++ (c ∷ [])) }
{
    let x = distance(z);
    Exact {
        high: t.high.wrapping_add(x / HALF),
        low: t.low.wrapping_add(x % HALF),
        count: t.count.wrapping_add(1),
    }
}

// The INT sum of the cells that went in: their total, or refusal 12; empty where none did.
pub fn exact_answer(t: Exact) -> Result<Cell, Fault>
    ensures { (k : ℕ) (cs : List Numbered) → Sums t cs → answered k 0 result ≡ int_sum k cs }
{
    if t.count == 0 {
        return Ok(Cell::Empty);
    }
    let top = t.high.wrapping_add(t.low / HALF).wrapping_add(HALF / 2);
    let base = (t.count as u64) * (HALF / 2);
    if top < base {
        return Err(Fault::NoFit);
    }
    let d = top - base;
    if d < HALF {
        Ok(Cell::Int(above(d * HALF + t.low % HALF)))
    } else {
        Err(Fault::NoFit)
    }
}
