// What stands under an operand's number: nothing, one of the bundle's arrays, or a step's result; and where a plan keeps it.
ghost use Rattle.std.specs.Prelude.{◌≡◌, true, ◌+◌, ◌≤◌, if◌then◌else◌};
ghost use Rattle.paper.specs.Limits.{most_arrays, most_steps};
ghost use Rattle.quick.specs.Operands.{work_side};
ghost use Rattle.recipe.specs.Operands.{no_operand, placed, slot_of};

use crate::Operand;
use bundle::no_head;
use paper::{ARRAYS, Head, RESULTS, STEPS};
use quick::operands::{IN_BUNDLE, IN_WORK};

// No array; it counts as found where a step uses no B.
pub fn no_operand(found: bool) -> Operand
    ensures { result ≡ no_operand found }
{
    let head = no_head();
    Operand {
        found,
        which: IN_BUNDLE,
        head,
    }
}

// A step's result.
pub fn in_work(head: Head) -> Operand
    ensures { result ≡ placed work_side head }
{
    Operand {
        found: true,
        which: IN_WORK,
        head,
    }
}

// Operand B, or what stands for it where a step uses none.
pub fn used_b(used: bool, b: Operand) -> Operand
    ensures { result ≡ (if used then b else no_operand true) }
{
    if used {
        return b;
    }
    no_operand(true)
}

// Where a plan keeps what operand n names; at 0 there is nothing.
pub fn slot_of(n: u8) -> usize
    ensures { (result ≡ slot_of n) × (result ≤ most_arrays + most_steps) }
{
    let i = n as usize;
    if i <= ARRAYS {
        return i;
    }
    if i <= RESULTS {
        return 0;
    }
    if i <= RESULTS + STEPS {
        return ARRAYS + (i - RESULTS);
    }
    0
}
