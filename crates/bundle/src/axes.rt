// An array's axes from their bytes: their names, its extent and its declared maximum.
ghost use Rattle.std.specs.Prelude.{◌≡◌, ◌+◌, ◌*◌, ◌≤◌, length, drop};
ghost use Rattle.paper.specs.Limits.{most_axes, limit_bytes, pair_bytes, sizes_of};
ghost use Rattle.paper.specs.Numbers.{position_at};
ghost use Rattle.paper.specs.Axes.{limited};
ghost use Rattle.paper.specs.Bundle.{name_of, axis_of, maximum_of, each_axis};
ghost use Rattle.paper.specs.Answers.{extent_of, names_of};

use paper::{AXES, Axis, Extent, LIMIT_BYTES, Name, PAIR_BYTES, Version};
use positions::position_at;
use shape::names::{name_at, no_names};
use versions::sizes;

// The axis whose two limits stand from byte `at` on.
fn axis_at(s: &[u8], at: usize) -> Axis
    requires { at + pair_bytes ≤ length s.now }
    ensures { result ≡ limited (position_at at s.now) (position_at (at + limit_bytes) s.now) }
{
    let lo = position_at(s, at);
    let hi = position_at(s, at + LIMIT_BYTES);
    Axis { lo, hi }
}

// An extent with the names of its axes, and its maximum.
#[derive(Clone, Copy)]
pub struct Bounds {
    pub names: [Name; AXES],
    pub extent: Extent,
    pub maximum: Extent,
}

// The names, the extent and the maximum of n axes whose bytes begin at `at`.
pub fn bounds_at(v: Version, s: &[u8], at: usize, n: usize) -> Bounds
    requires { (n ≤ most_axes) × (at + n * (sizes_of v).axis ≤ length s.now) }
    ensures { (result.names ≡ names_of (each_axis (sizes_of v) (name_of (sizes_of v)) n (drop at s.now)))
        × (result.extent ≡ extent_of (each_axis (sizes_of v) (axis_of (sizes_of v)) n (drop at s.now)))
        × (result.maximum ≡ extent_of (each_axis (sizes_of v) (maximum_of (sizes_of v)) n (drop at s.now))) }
{
    let z = sizes(v);
    let blank = Axis { lo: 0, hi: 0 };
    let mut names = no_names();
    let mut axes = [blank; AXES];
    let mut maxima = [blank; AXES];
    for i in 0..n {
        let here = at + i * z.axis;
        let name = name_at(v, s, here);
        let a = axis_at(s, here + z.name);
        let m = axis_at(s, here + z.name + PAIR_BYTES);
        names[i] = name;
        axes[i] = a;
        maxima[i] = m;
    }
    let extent = Extent { rank: n, axes };
    let maximum = Extent {
        rank: n,
        axes: maxima,
    };
    Bounds {
        names,
        extent,
        maximum,
    }
}
