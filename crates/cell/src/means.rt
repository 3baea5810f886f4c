// The FLOAT sum and average: the running sum and the number of filled cells, kept together and passed by value. The first filled
// cell is the sum, each later one is added to it, and the average divides once.
ghost use Rattle.std.specs.Prelude.{◌≡◌, ℕ, ◌+◌, ◌<◌, ◌≤◌, List, [], ◌∷◌, Float, Ok};
ghost use Rattle.paper.specs.Limits.{most_cells};
ghost use Rattle.paper.specs.Totals.{Numbered, Running, float, float_sum, average};
ghost use Rattle.cell.specs.Totals.{onward, after, counted};

use crate::floats::is_finite;
use paper::Cell;

#[derive(Clone, Copy)]
pub struct Mean {
    pub sum: f64,
    pub count: u32,
}

// No cell yet.
pub fn mean_none() -> Mean
    ensures { ((made : Running → Float) (k : ℕ) (cs : List Numbered) → onward made k result cs ≡ float_sum made k cs) × (result.count ≡ 0) }
{
    Mean { sum: 0.0, count: 0 }
}

// One cell more, whose number is x: what is left to do with it is what is left to do after it.
pub fn mean_with(m: Mean, x: f64) -> Option<Mean>
    ensures { ((made : Running → Float) (k : ℕ) (c : Numbered) (cs : List Numbered) → float c.cell ≡ x → m.count < most_cells
        → onward made k m (c ∷ cs) ≡ after made k c.at result cs) × (counted result ≤ m.count + 1) }
{
    if m.count == 0 {
        return Some(Mean { sum: x, count: 1 });
    }
    let s = m.sum + x;
    if is_finite(s) {
        Some(Mean {
            sum: s,
            count: m.count.wrapping_add(1),
        })
    } else {
        None
    }
}

// The sum, once all cells went in; empty where none did.
pub fn mean_sum(m: Mean) -> Cell
    ensures { (k : ℕ) → Ok result ≡ onward (λ r. r.sum) k m [] }
{
    if m.count == 0 {
        Cell::Empty
    } else {
        Cell::Float(m.sum)
    }
}

// The average.
pub fn mean_average(m: Mean) -> Cell
    ensures { (k : ℕ) → Ok result ≡ onward average k m [] }
{
    if m.count == 0 {
        Cell::Empty
    } else {
        Cell::Float(m.sum / (m.count as f64))
    }
}
