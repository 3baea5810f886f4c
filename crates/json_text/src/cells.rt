// A cell, read where a value begins: a whole number in INT range, a truth value, or null.
ghost use Rattle.std.specs.Prelude.{◌≡◌, ◌≤◌, length, drop};
ghost use Rattle.std.specs.Option.{option_map};
ghost use Rattle.paper.specs.Grammar.{among, these};
ghost use Rattle.paper.specs.JsonRead.{natural, cell_in};
ghost use Rattle.json_text.specs.Whole.{Onward, Counted, capped, signed_of, ranged, sized_in, int_in};

use crate::bytes::is_digit;
use crate::words::begins_with;
use cell::bytes::signed;
use paper::Cell;

// Where the digits end, and their number; from CAP on, CAP.
#[derive(Clone, Copy)]
struct Digits {
    end: usize,
    n: u64,
}

// Beyond any INT. Below a tenth of it, one more digit doesn't pass it.
const CAP: u64 = 10000000000000000000;

const TENTH: u64 = 1000000000000000000;

// The number n with the digit d behind it; from CAP on, CAP.
fn with_digit(n: u64, d: u8) -> u64
    ensures { Onward n d result }
{
    if n < TENTH { n * 10 + (d as u64) } else { CAP }
}

// The digits from byte `at` on.
fn digits_at(s: &[u8], at: usize) -> Digits
    requires { at ≤ length s.now }
    ensures { Counted s.now at result }
{
    let mut n: u64 = 0;
    for i in at..s.len() {
        let b = s[i];
        if !is_digit(b) {
            return Digits { end: i, n };
        }
        n = with_digit(n, b - b'0');
    }
    Digits { end: s.len(), n }
}

// The first byte of a fraction or an exponent.
#[tactic(auto, unfolding(paper::specs::Grammar::among), using(std::proofs::lemmas::Bool::Decides::nat_tests))]
fn goes_on(b: u8) -> bool
    ensures { result ≡ among (these ".eE") b }
{
    matches!(b, b'.' | b'e' | b'E')
}

// The number of the whole number from byte `at` on, if one without fraction or exponent stands there; from CAP on, CAP.
fn natural_at(s: &[u8], at: usize) -> Option<u64>
    requires { at ≤ length s.now }
    ensures { result ≡ option_map capped (natural (drop at s.now)) }
{
    let d = digits_at(s, at);
    if d.end == at {
        return None;
    }
    match s.get(d.end) {
        Some(b) if goes_on(*b) => None,
        _ => Some(d.n),
    }
}

// The INT with this sign and magnitude.
fn int_of(minus: bool, n: u64) -> Option<Cell>
    ensures { result ≡ ranged (signed_of minus n) }
{
    if minus {
        if n <= 9223372036854775808 {
            return Some(Cell::Int(signed(std::num::wrapping_sub_u64(0, n))));
        }
        return None;
    }
    if n <= 9223372036854775807 {
        return Some(Cell::Int(signed(n)));
    }
    None
}

// The INT with this sign whose magnitude stands from byte `at` on.
fn sized_at(s: &[u8], at: usize, minus: bool) -> Option<Cell>
    requires { at ≤ length s.now }
    ensures { result ≡ sized_in minus (drop at s.now) }
{
    int_of(minus, natural_at(s, at)?)
}

// The INT from byte `at` on.
fn int_at(s: &[u8], at: usize) -> Option<Cell>
    requires { at ≤ length s.now }
    ensures { result ≡ int_in (drop at s.now) }
{
    if begins_with(s, at, b"-") {
        return sized_at(s, at + 1, true);
    }
    sized_at(s, at, false)
}

// The cell of the type `kind` that the value from byte `at` on is.
pub fn cell_at(s: &[u8], at: usize, kind: u8) -> Option<Cell>
    requires { at ≤ length s.now }
    ensures { result ≡ cell_in kind (drop at s.now) }
{
    if begins_with(s, at, b"null") {
        return Some(Cell::Empty);
    }
    if kind == 1 {
        return int_at(s, at);
    }
    if begins_with(s, at, b"true") {
        return Some(Cell::Truth(true));
    }
    if begins_with(s, at, b"false") {
        return Some(Cell::Truth(false));
    }
    None
}
