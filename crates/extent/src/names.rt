// Names judged and compared: a letter, then letters, digits or underscores, padded with zeros; no two of an array equal.
ghost use Rattle.std.specs.Prelude.{◌≡◌, List, ◌++◌, ℕ, ◌-◌, ◌≤◌, take, drop};
ghost use Rattle.paper.specs.Limits.{most_axes, half_name, sizes_of};
ghost use Rattle.paper.specs.Numbers.{le_bytes, zeros};
ghost use Rattle.paper.specs.Axes.{in_name, name_rest, letters_of, good_name, same_name, good_names};
ghost use Rattle.paper.specs.Bundle.{names_fit};
ghost use Rattle.extent.specs.Names.{Left};

use paper::{AXES, HALF_NAME, Name, Version};

// A letter, a digit or an underscore: 97 to 122, 48 to 57, 95.
fn in_name(b: u64) -> bool
    ensures { result ≡ in_name b }
{
    matches!(b, 97..=122 | 48..=57 | 95)
}

// The bytes of n from the i-th on, and then others: letters all of n, and `full` tells whether the others go on so; or letters and then
// zeros to the end of n, and `blank` whether the others are zeros.
fn goes_on(n: u64, i: usize, full: bool, blank: bool) -> bool
    requires { Left i n }
    ensures { (R : List ℕ) → full ≡ name_rest R → blank ≡ zeros R → result ≡ name_rest (le_bytes (half_name - i) n ++ R) }
{
    let mut left = n;
    for _at in i..HALF_NAME {
        if !in_name(left % 256) {
            if left != 0 {
                return false;
            }
            return blank;
        }
        left /= 256;
    }
    full
}

// The letters are a name.
fn is_name(n: Name) -> bool
    ensures { result ≡ good_name n }
{
    let initial = n.first % 256;
    if initial < 97 {
        return false;
    }
    if 122 < initial {
        return false;
    }
    let last = goes_on(n.last, 0, true, true);
    goes_on(n.first / 256, 1, last, n.last == 0)
}

// The name has no more letters than the version's names.
fn name_fits(v: Version, n: Name) -> bool
    ensures { result ≡ zeros (drop (sizes_of v).name (letters_of n)) }
{
    match v {
        Version::One => n.last == 0,
        Version::Two => true,
    }
}

// So for each of the first `rank` names.
pub fn names_fit(v: Version, names: [Name; AXES], rank: usize) -> bool
    requires { rank ≤ most_axes }
    ensures { result ≡ names_fit (sizes_of v) (take rank names) }
{
    names[..rank].iter().all(|n| name_fits(v, *n))
}

// Each of the first `rank` names good, no two equal.
pub fn good_names(names: [Name; AXES], rank: usize) -> bool
    requires { rank ≤ most_axes }
    ensures { result ≡ good_names (take rank names) }
{
    for i in 0..rank {
        let n = names[i];
        if !is_name(n) || names[i + 1..rank].iter().any(|m| *m == n) {
            return false;
        }
    }
    true
}
