// The refusal that a failed test gives, its number, place and ordinality together; that of an operator's fault; and the test of a
// number's range.
#![tactic(auto)]

ghost use Rattle.std.specs.Prelude.{◌≡◌};
ghost use Rattle.paper.specs.Refusals.{refusal, between, fault_no};

use paper::{Fault, Refusal};

// Refusal `number` at a place, with an ordinality.
pub fn refuse_at(number: u8, place: u32, ordinality: u32) -> Refusal
    ensures { result ≡ refusal number place ordinality }
{
    Refusal {
        number,
        place,
        ordinality,
    }
}

// The same with none.
pub fn refuse(number: u8, place: u32) -> Refusal
    ensures { result ≡ refusal number place 0 }
{
    refuse_at(number, place, 0)
}

// The refusal that a fault of an operator is.
pub fn refuse_fault(fault: Fault, place: u32, ordinality: u32) -> Refusal
    ensures { result ≡ refusal (fault_no fault) place ordinality }
{
    match fault {
        Fault::NoFit => refuse_at(12, place, ordinality),
        Fault::ByZero => refuse_at(13, place, ordinality),
    }
}

// x is 1 to `most`.
pub fn in_range(x: usize, most: usize) -> bool
    ensures { result ≡ between 1 most x }
{
    1 <= x && x <= most
}
