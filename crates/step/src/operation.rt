// The operation that a step's operation byte and operator byte name, or that they name none.
ghost use Rattle.std.specs.Prelude.{◌≡◌};
ghost use Rattle.std.specs.Option.{option_map};
ghost use Rattle.paper.specs.declared.Operation.TheVariants.{Works};
ghost use Rattle.paper.specs.declared.Work.TheVariants.{Pair, Scalar, Single};
ghost use Rattle.paper.specs.Operators.{pair_op, single_op};
ghost use Rattle.paper.specs.Recipe.{operation};

use operators::numbers::{pair_op, single_op};
use paper::{Hand, Move, Operation, Work};

// Two arrays by the pair operator of number o.
fn of_pair(o: u8) -> Option<Operation>
    ensures { result ≡ option_map (λ x. Works (Pair x)) (pair_op o) }
{
    pair_op(o).map(|p| Operation::Works(Work::Pair(p)))
}

// An array and a scalar at that hand.
fn of_scalar(hand: Hand, o: u8) -> Option<Operation>
    ensures { result ≡ option_map (λ x. Works (Scalar hand x)) (pair_op o) }
{
    pair_op(o).map(|p| Operation::Works(Work::Scalar(hand, p)))
}

// One array by the single operator of number o.
fn of_single(o: u8) -> Option<Operation>
    ensures { result ≡ option_map (λ x. Works (Single x)) (single_op o) }
{
    single_op(o).map(|p| Operation::Works(Work::Single(p)))
}

// The operation of number n, with the operator of number o where it has one.
#[tactic(auto, unfolding(paper::specs::Recipe::operation))]
pub fn operation_of(n: u8, o: u8) -> Option<Operation>
    ensures { result ≡ operation n o }
{
    match n {
        1 => Some(Operation::Moves(Move::Trim)),
        2 => Some(Operation::Moves(Move::Slice)),
        3 => Some(Operation::Moves(Move::Reshape)),
        4 => Some(Operation::Moves(Move::Shift)),
        5 => Some(Operation::Moves(Move::Rename)),
        6 => Some(Operation::Moves(Move::Update)),
        7 => Some(Operation::Moves(Move::Put)),
        8 => Some(Operation::Moves(Move::Glue)),
        9 => of_pair(o),
        10 => of_scalar(Hand::Right, o),
        11 => of_scalar(Hand::Left, o),
        12 => of_single(o),
        _ => None,
    }
}
