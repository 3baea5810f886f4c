// New names from old: without that of an axis removed, or those of a step's detail.
ghost use Rattle.std.specs.Prelude.{◌≡◌, List, [], ◌+◌, ◌*◌, ◌≤◌, length, take, drop, if◌then◌else◌};
ghost use Rattle.paper.specs.declared.Name.{Name};
ghost use Rattle.paper.specs.Limits.{most_axes, half_name, sizes_of};
ghost use Rattle.paper.specs.Numbers.{part};
ghost use Rattle.paper.specs.Axes.{without};
ghost use Rattle.paper.specs.Bundle.{name_from};
ghost use Rattle.paper.specs.Recipe.{renamed};
ghost use Rattle.paper.specs.Answers.{names_of};
ghost use Rattle.positions.specs.Runs.{Holds};

use cell::bytes::word;
use paper::{AXES, AxisIndex, HALF_NAME, Name, Version};
use versions::sizes;

// No name yet.
pub fn no_names() -> [Name; AXES]
    ensures { result ≡ names_of [] }
{
    [Name { first: 0, last: 0 }; AXES]
}

// The name of eight letters at byte `at`.
fn short_name(s: &[u8], at: usize) -> Name
    requires { Holds at half_name s.now }
    ensures { result ≡ name_from (part at half_name s.now) }
{
    let first = word(s, at);
    Name { first, last: 0 }
}

// The name of sixteen letters at byte `at`.
fn long_name(s: &[u8], at: usize) -> Name
    requires { Holds at (2 * half_name) s.now }
    ensures { result ≡ name_from (part at (2 * half_name) s.now) }
{
    let first = word(s, at);
    let last = word(s, at + HALF_NAME);
    Name { first, last }
}

// The name at byte `at`, of as many letters as the version's names have.
pub fn name_at(v: Version, s: &[u8], at: usize) -> Name
    requires { Holds at (sizes_of v).name s.now }
    ensures { result ≡ name_from (part at (sizes_of v).name s.now) }
{
    match v {
        Version::One => short_name(s, at),
        Version::Two => long_name(s, at),
    }
}

// The first `rank` names without that of the axis of index k.
pub fn without_name(names: [Name; AXES], rank: usize, k: AxisIndex) -> [Name; AXES]
    requires { rank ≤ most_axes }
    ensures { take (length (without k.0 (take rank names))) result ≡ without k.0 (take rank names) }
{
    let out = k.0 as usize;
    let mut new = names;
    let mut j: usize = 0;
    for i in 0..rank {
        new[j] = names[i];
        if i + 1 != out {
            j += 1;
        }
    }
    new
}

// As many names as `rank`, from the detail at byte `at`.
pub fn names_at(v: Version, rank: usize, s: &[u8], at: usize) -> [Name; AXES]
    requires rank_le_most_axes { rank ≤ most_axes }
    requires holds { Holds at (rank * (sizes_of v).name) s.now }
    ensures { (N : List Name) → length N ≡ rank → take rank result ≡ renamed (sizes_of v).name N (drop at s.now) }
{
    let z = sizes(v);
    let width = z.name;
    let mut new = no_names();
    for i in 0..rank {
        new[i] = name_at(v, s, at + i * width);
    }
    new
}
