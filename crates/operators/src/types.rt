// The types that an operator takes, and its result's type.
ghost use Rattle.std.specs.Prelude.{◌≡◌};
ghost use Rattle.paper.specs.Operators.{takes, gives, takes_one, gives_one};

use crate::numbers::{pair_number, single_number};
use paper::{BOOLEAN, INT, PairOp, SingleOp};

#[tactic(auto, unfolding(paper::specs::Operators::takes))]
pub fn takes_pair(op: PairOp, kind: u8) -> bool
    ensures { result ≡ takes op kind }
{
    match op {
        PairOp::Add | PairOp::Sub | PairOp::Mul | PairOp::Div => kind != BOOLEAN,
        PairOp::Mod => INT == kind,
        PairOp::Eq | PairOp::Ne => true,
        PairOp::Lt | PairOp::Le | PairOp::Gt | PairOp::Ge => kind != BOOLEAN,
        PairOp::And | PairOp::Or => BOOLEAN == kind,
    }
}

// Arithmetic, up to MOD, has the operands' type.
pub fn gives_pair(op: PairOp, kind: u8) -> u8
    ensures { result ≡ gives op kind }
{
    if pair_number(op) <= 5 { kind } else { BOOLEAN }
}

pub fn takes_single(op: SingleOp, kind: u8) -> bool
    ensures { result ≡ takes_one op kind }
{
    match op {
        SingleOp::Negate => kind != BOOLEAN,
        SingleOp::Absolute => kind != BOOLEAN,
        SingleOp::Not => BOOLEAN == kind,
        SingleOp::IsEmpty => true,
        SingleOp::IsTrue => BOOLEAN == kind,
        SingleOp::IsFalse => BOOLEAN == kind,
        SingleOp::IsUnknown => BOOLEAN == kind,
    }
}

// Negate and absolute have the operand's type.
pub fn gives_single(op: SingleOp, kind: u8) -> u8
    ensures { result ≡ gives_one op kind }
{
    if single_number(op) <= 2 {
        kind
    } else {
        BOOLEAN
    }
}
