// What two cells are: two of one type, an empty one among them, or cells of unlike types. Each operator is a match on it.
ghost use Rattle.std.specs.Prelude.{◌≡◌};
ghost use Rattle.paper.specs.Operators.{two};

use paper::{Cell, Two};

#[tactic(auto, unfolding(paper::specs::Operators::two))]
pub fn both(a: Cell, b: Cell) -> Two
    ensures { result ≡ two a b }
{
    match (a, b) {
        (Cell::Empty, _) | (_, Cell::Empty) => Two::OneEmpty,
        (Cell::Int(x), Cell::Int(y)) => Two::Ints(x, y),
        (Cell::Float(x), Cell::Float(y)) => Two::Floats(x, y),
        (Cell::Truth(x), Cell::Truth(y)) => Two::Truths(x, y),
        _ => Two::Unlike,
    }
}
