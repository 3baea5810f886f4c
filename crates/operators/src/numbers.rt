// The operators' numbers, each way: a number's operator, or that it has none, and an operator's number.
ghost use Rattle.std.specs.Prelude.{◌≡◌};
ghost use Rattle.paper.specs.Operators.{pair_op, pair_no, single_op, single_no};

use paper::{PairOp, SingleOp};

// The pair operator whose number is n.
pub fn pair_op(n: u8) -> Option<PairOp>
    ensures { result ≡ pair_op n }
{
    let op = match n {
        1 => PairOp::Add,
        2 => PairOp::Sub,
        3 => PairOp::Mul,
        4 => PairOp::Div,
        5 => PairOp::Mod,
        6 => PairOp::Eq,
        7 => PairOp::Ne,
        8 => PairOp::Lt,
        9 => PairOp::Le,
        10 => PairOp::Gt,
        11 => PairOp::Ge,
        12 => PairOp::And,
        13 => PairOp::Or,
        _ => return None,
    };
    Some(op)
}

pub fn pair_number(op: PairOp) -> u8
    ensures { result ≡ pair_no op }
{
    match op {
        PairOp::Add => 1,
        PairOp::Sub => 2,
        PairOp::Mul => 3,
        PairOp::Div => 4,
        PairOp::Mod => 5,
        PairOp::Eq => 6,
        PairOp::Ne => 7,
        PairOp::Lt => 8,
        PairOp::Le => 9,
        PairOp::Gt => 10,
        PairOp::Ge => 11,
        PairOp::And => 12,
        PairOp::Or => 13,
    }
}

// The single operator whose number is n.
pub fn single_op(n: u8) -> Option<SingleOp>
    ensures { result ≡ single_op n }
{
    let op = match n {
        1 => SingleOp::Negate,
        2 => SingleOp::Absolute,
        3 => SingleOp::Not,
        4 => SingleOp::IsEmpty,
        5 => SingleOp::IsTrue,
        6 => SingleOp::IsFalse,
        7 => SingleOp::IsUnknown,
        _ => return None,
    };
    Some(op)
}

pub fn single_number(op: SingleOp) -> u8
    ensures { result ≡ single_no op }
{
    match op {
        SingleOp::Negate => 1,
        SingleOp::Absolute => 2,
        SingleOp::Not => 3,
        SingleOp::IsEmpty => 4,
        SingleOp::IsTrue => 5,
        SingleOp::IsFalse => 6,
        SingleOp::IsUnknown => 7,
    }
}
