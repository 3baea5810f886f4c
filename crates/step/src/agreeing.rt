// Two arrays compared as an operation asks: the first difference of their axes, by number, names and limits; 0 where they agree.
ghost use Rattle.std.specs.Prelude.{◌≡◌, ◌+◌, ◌≤◌, ◌<◌, true, length};
ghost use Rattle.paper.specs.declared.Operation.TheVariants.{Moves, Works};
ghost use Rattle.paper.specs.declared.Move.TheVariants.{Put};
ghost use Rattle.paper.specs.Limits.{most_axes};
ghost use Rattle.paper.specs.Recipe.{uses, axis_in, axis_differs};
ghost use Rattle.paper.specs.Answers.{axes_of};
ghost use Rattle.step.specs.Agreeing.{limits_in, index_in, differing, agreed};

use extent::rank_of;
use paper::{AXES, Axis, AxisIndex, Extent, Move, Name, Operation, Work};
use shape::names::without_name;
use shape::removed;

// What is compared of each two axes: their names; names, where A's axis of an index was left out; names and limits; names, and limits
// but for the axis of an index.
#[derive(Clone, Copy)]
enum Compared {
    Names,
    OtherNames(AxisIndex),
    Limits,
    OtherLimits(AxisIndex),
}

// Limits are compared on the axis that stands at j, counted from 0.
fn limits_in(c: Compared, j: usize) -> bool
    requires { j < most_axes }
    ensures { result ≡ limits_in c (index_in c j) }
{
    match c {
        Compared::Names => false,
        Compared::OtherNames(_) => false,
        Compared::Limits => true,
        Compared::OtherLimits(k) => j + 1 != k.0 as usize,
    }
}

// The index in A of the axis that stands at j: the one left out counts too.
fn index_in(c: Compared, j: usize) -> usize
    requires { j < most_axes }
    ensures { (result ≡ index_in c j) × (result ≤ most_axes + 1) }
{
    match c {
        Compared::Names => j + 1,
        Compared::OtherNames(k) => {
            if j + 1 < k.0 as usize {
                return j + 1;
            }
            j + 2
        }
        Compared::Limits => j + 1,
        Compared::OtherLimits(_) => j + 1,
    }
}

// What two axes differ in first: their names, their lower or their upper limits, where these are compared; 0 for nothing.
#[tactic(auto, unfolding(paper::specs::Recipe::axis_differs))]
fn axis_differs(limits: bool, m: Name, a: Axis, n: Name, b: Axis) -> u32
    ensures { (result ≡ axis_differs limits m a n b) × (result ≤ 3) }
{
    if m != n {
        return 1;
    }
    if !limits {
        return 0;
    }
    if a.lo != b.lo {
        return 2;
    }
    if a.hi != b.hi {
        return 3;
    }
    0
}

// The first difference of two extents with the names m and n: another number of axes, or the first axis that differs.
fn first_difference(c: Compared, m: [Name; AXES], e: Extent, n: [Name; AXES], f: Extent) -> u32
    ensures { result ≡ differing c m e n f }
{
    let rank = rank_of(e);
    if rank_of(f) != rank {
        return 4;
    }
    for j in 0..rank {
        let d = axis_differs(limits_in(c, j), m[j], e.axes[j], n[j], f.axes[j]);
        if d != 0 {
            return 10 * index_in(c, j) as u32 + d;
        }
    }
    0
}

// The same, A's axis of index k left out.
fn others_differ(m: [Name; AXES], e: Extent, n: [Name; AXES], f: Extent, k: AxisIndex) -> u32
    requires { 1 ≤ k.0 }
    ensures { result ≡ agreed (Moves Put) k.0 m e n f }
{
    let others = without_name(m, rank_of(e), k);
    first_difference(Compared::OtherNames(k), others, removed(e, k), n, f)
}

// The first difference as a move compares; k is its axis, m and n are the names of A and B.
fn moves_differ(
    mv: Move,
    k: AxisIndex,
    m: [Name; AXES],
    e: Extent,
    n: [Name; AXES],
    f: Extent,
) -> u32
    requires { axis_in (uses (Moves mv)) (length (axes_of e)) k.0 ≡ true }
    ensures { result ≡ agreed (Moves mv) k.0 m e n f }
{
    match mv {
        Move::Trim => 0,
        Move::Slice => 0,
        Move::Reshape => 0,
        Move::Shift => 0,
        Move::Rename => 0,
        Move::Update => first_difference(Compared::Names, m, e, n, f),
        Move::Put => others_differ(m, e, n, f, k),
        Move::Glue => first_difference(Compared::OtherLimits(k), m, e, n, f),
    }
}

// The same of an operation that works cells out.
fn works_differ(
    w: Work,
    k: AxisIndex,
    m: [Name; AXES],
    e: Extent,
    n: [Name; AXES],
    f: Extent,
) -> u32
    ensures { result ≡ agreed (Works w) k.0 m e n f }
{
    match w {
        Work::Pair(_) => first_difference(Compared::Limits, m, e, n, f),
        Work::Scalar(_, _) => 0,
        Work::Single(_) => 0,
    }
}

// The first difference of A, with the names m, and B, with the names n, as an operation compares them; k is its axis.
pub fn difference(
    op: Operation,
    k: AxisIndex,
    m: [Name; AXES],
    e: Extent,
    n: [Name; AXES],
    f: Extent,
) -> u32
    requires { axis_in (uses op) (length (axes_of e)) k.0 ≡ true }
    ensures { result ≡ agreed op k.0 m e n f }
{
    match op {
        Operation::Moves(mv) => moves_differ(mv, k, m, e, n, f),
        Operation::Works(w) => works_differ(w, k, m, e, n, f),
    }
}
