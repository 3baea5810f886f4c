// What a step uses of its bytes, by its operation: operand B, the axis index, and the detail; the bytes that it does not use are zero,
// and its axis index, where it has one, is in A.
ghost use Rattle.std.specs.Prelude.{◌≡◌, not, ◌||◌, ℕ, ◌-◌, ◌*◌, ◌≤◌, eqb, length};
ghost use Rattle.paper.specs.declared.Operation.TheVariants.{Moves, Works};
ghost use Rattle.paper.specs.Limits.{most_axes, half_name, scalar_at, sizes_of};
ghost use Rattle.paper.specs.Refusals.{between};
ghost use Rattle.paper.specs.Numbers.{part, zeros};
ghost use Rattle.positions.specs.Runs.{Holds};
ghost use Rattle.step.specs.Steps.{detail_of, step_in};
ghost use Rattle.step.specs.Using.{used_as, used_by, unused_of, unused_tested};

use crate::StepHead;
use cell::bytes::word;
use paper::{LIMIT_BYTES, Move, Operation, PAIR_BYTES, SCALAR_AT, Version, WORD_BYTES, Work};
use refusals::in_range;
use versions::sizes;

// Operand B and the axis index used or not; of the detail all bytes from `from` on are unused, and with a scalar those between the
// operator and it.
#[derive(Clone, Copy)]
pub struct Used {
    pub b: bool,
    pub axis: bool,
    pub scalar: bool,
    pub from: usize,
}

fn used_as(b: bool, axis: bool, scalar: bool, from: usize) -> Used
    ensures { result ≡ used_as b axis scalar from }
{
    Used {
        b,
        axis,
        scalar,
        from,
    }
}

// What a move uses, a name having `name` bytes and A n axes.
fn moves_use(m: Move, name: usize, n: usize) -> Used
    requires name_bound { name ≤ 2 * half_name }
    requires n_le_most_axes { n ≤ most_axes }
    ensures { result ≡ used_by (Moves m) name n }
{
    match m {
        Move::Trim => used_as(false, false, false, PAIR_BYTES * n),
        Move::Slice => used_as(false, true, false, LIMIT_BYTES),
        Move::Reshape => used_as(false, false, false, PAIR_BYTES * n),
        Move::Shift => used_as(false, false, false, LIMIT_BYTES * n),
        Move::Rename => used_as(false, false, false, name * n),
        Move::Update => used_as(true, false, false, 0),
        Move::Put => used_as(true, true, false, LIMIT_BYTES),
        Move::Glue => used_as(true, true, false, 0),
    }
}

// What an operation uses that works cells out.
fn works_use(w: Work) -> Used
    ensures { (m n : ℕ) → result ≡ used_by (Works w) m n }
{
    match w {
        Work::Pair(_) => used_as(true, false, false, 1),
        Work::Scalar(_, _) => used_as(false, false, true, SCALAR_AT + WORD_BYTES),
        Work::Single(_) => used_as(false, false, false, 1),
    }
}

// What an operation uses in a version, A having n axes.
pub fn used_by(op: Operation, v: Version, n: usize) -> Used
    requires { n ≤ most_axes }
    ensures { result ≡ used_by op (sizes_of v).name n }
{
    let z = sizes(v);
    match op {
        Operation::Moves(m) => moves_use(m, z.name, n),
        Operation::Works(w) => works_use(w),
    }
}

// The bytes from `from` on, up to `to`, are zero: eight at a time, then one after the other.
fn zero_between(s: &[u8], from: usize, to: usize) -> bool
    requires { (from ≤ to) × (to ≤ length s.now) }
    ensures { result ≡ zeros (part from (to - from) s.now) }
{
    let (words, rest) = s[from..to].as_chunks::<WORD_BYTES>();
    words.iter().all(|w| word(w, 0) == 0) && rest.iter().all(|b| *b == 0)
}

// The bytes of the detail at `at`, of `detail` bytes, that are not used are zero.
fn detail_zero(used: Used, s: &[u8], at: usize, detail: usize) -> bool
    requires from_le_detail { (used.from ≤ detail) × (scalar_at ≤ detail) }
    requires holds { Holds at detail s.now }
    ensures { result ≡ zeros (unused_of used (part at detail s.now)) }
{
    let from = used.from;
    if !zero_between(s, at + from, at + detail) {
        return false;
    }
    if !used.scalar {
        return true;
    }
    zero_between(s, at + 1, at + SCALAR_AT)
}

// The byte is used, or it is zero.
fn used_or_zero(used: bool, b: u8) -> bool
    ensures { result ≡ (used || eqb b 0) }
{
    if used {
        return true;
    }
    b == 0
}

// The bytes that a step does not use are zero.
pub fn unused_zero(used: Used, step: StepHead, s: &[u8]) -> bool
    requires from_bound { used.from ≤ detail_of step }
    requires holds { Holds step.at (detail_of step) s.now }
    ensures { result ≡ unused_tested used (step_in s.now step) }
{
    if !used_or_zero(used.b, step.b) {
        return false;
    }
    if !used_or_zero(used.axis, step.axis) {
        return false;
    }
    let v = step.version;
    let z = sizes(v);
    detail_zero(used, s, step.at, z.detail)
}

// The axis index, where one is used, is 1 to n.
pub fn axis_in(used: Used, n: usize, k: u8) -> bool
    ensures { result ≡ (not used.axis || between 1 n k) }
{
    if !used.axis {
        return true;
    }
    in_range(k as usize, n)
}
