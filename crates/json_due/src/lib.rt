// What is due in the value of `data` for an extent, one bracket or cell after the other: a bracket, what is due for each position of the
// first axis, the closing bracket. It is kept as the levels that are open and the positions that each has left.
#![tactic(auto)]

ghost use Rattle.std.specs.Prelude.{List, ◌≡◌, ◌≤◌, ◌<◌, length};
ghost use Rattle.paper.specs.declared.Axis.{Axis};
ghost use Rattle.paper.specs.Limits.{most_axes};
ghost use Rattle.paper.specs.Answers.{axes_of};
ghost use Rattle.laws.specs.Limits.{Sound};
ghost use Rattle.json_due.specs.Due.{first_due, remains, Stands, Reached, Opened, Follows};

use extent::{axis_of, rank_of, width_of};
use paper::{AXES, AxisIndex, Extent};

// What is due next.
#[derive(Clone, Copy)]
pub enum Wanted {
    Nothing,
    Opening,
    Closing,
    Value,
}

// That, how many levels are open, and how many positions each has left after it, the first axis first.
#[derive(Clone, Copy)]
pub struct Cursor {
    pub wanted: Wanted,
    pub level: usize,
    pub left: [u64; AXES],
}

// Before the value.
pub fn due_first() -> Cursor
    ensures { result ≡ first_due }
{
    Cursor {
        wanted: Wanted::Opening,
        level: 0,
        left: [0; AXES],
    }
}

// Where so many levels are open, of which each has so many positions left.
fn due_next(rank: usize, level: usize, left: [u64; AXES]) -> Cursor
    requires { (rank ≤ most_axes) × (level ≤ rank) }
    ensures { (E : List Axis) → length E ≡ rank → Reached E result (remains E left level) }
{
    if level == 0 {
        return Cursor {
            wanted: Wanted::Nothing,
            level,
            left,
        };
    }
    let n = left[level - 1];
    if n == 0 {
        return Cursor {
            wanted: Wanted::Closing,
            level,
            left,
        };
    }
    let mut less = left;
    less[level - 1] = n - 1;
    if level == rank {
        return Cursor {
            wanted: Wanted::Value,
            level,
            left: less,
        };
    }
    Cursor {
        wanted: Wanted::Opening,
        level,
        left: less,
    }
}

// The opening bracket of the next axis came.
fn due_inside(e: Extent, level: usize, left: [u64; AXES]) -> Cursor
    requires { Sound (axes_of e) × (level < length (axes_of e)) }
    ensures { Opened (axes_of e) level left result }
{
    let rank = rank_of(e);
    let width = width_of(axis_of(e, AxisIndex((level + 1) as u32)));
    let mut wide = left;
    wide[level] = width;
    due_next(rank, level + 1, wide)
}

// What was due came.
pub fn due_after(e: Extent, c: Cursor) -> Cursor
    requires { Sound (axes_of e) × Stands (axes_of e) c }
    ensures { Follows (axes_of e) c result }
{
    let rank = rank_of(e);
    match c.wanted {
        Wanted::Nothing => c,
        Wanted::Opening => due_inside(e, c.level, c.left),
        Wanted::Closing => due_next(rank, c.level - 1, c.left),
        Wanted::Value => due_next(rank, c.level, c.left),
    }
}
