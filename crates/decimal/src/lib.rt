// Numbers and positions in decimal, how many bytes they take, and the lines that the program prints of a refusal and of a listing.
// Each writer writes into `out` from the byte `at` on and answers the byte after what it wrote; the rest of `out` stays.
#![tactic(auto)]

ghost use Rattle.std.specs.Prelude.{◌≡◌, [], ◌∷◌, ◌+◌, ◌*◌, ◌<◌, ◌≤◌, pos, length};
ghost use Rattle.paper.specs.Limits.{limit_bytes};
ghost use Rattle.paper.specs.Numbers.{position};
ghost use Rattle.paper.specs.Rests.{digits, decimal, refused_text};
ghost use Rattle.decimal.specs.Wrote.{Wrote};
ghost use Rattle.decimal.specs.Digits.{most_signed};
ghost use Rattle.decimal.specs.Pairs.{pair, four, eight};
ghost use Rattle.decimal.specs.Bits.{smallest};
ghost use Rattle.decimal.specs.Ints.{sign};
ghost use Rattle.decimal.specs.Lines.{most_spaced, most_refused, most_found, number, found_line};
ghost use Rattle.decimal.specs.Rows.{most_row, line_at};

use cell::bytes::{copy_bytes, half};
use cell::ints::magnitude;
use paper::{LIMIT_BYTES, REACH, Refusal};
use positions::position_at;

fn put_byte(out: &mut [u8], at: usize, b: u8) -> usize
    requires { at < length out.old }
    ensures { Wrote out.old at (b ∷ []) result out.new }
{
    out[at] = b;
    at + 1
}

// The smallest number of k + 1 digits. (The compiler makes a table of it.)
fn smallest(k: usize) -> u64
    requires { k < 20 }
    ensures { result ≡ smallest k }
{
    match k {
        0 => 0,
        1 => 10,
        2 => 100,
        3 => 1000,
        4 => 10000,
        5 => 100000,
        6 => 1000000,
        7 => 10000000,
        8 => 100000000,
        9 => 1000000000,
        10 => 10000000000,
        11 => 100000000000,
        12 => 1000000000000,
        13 => 10000000000000,
        14 => 100000000000000,
        15 => 1000000000000000,
        16 => 10000000000000000,
        17 => 100000000000000000,
        18 => 1000000000000000000,
        19 => 10000000000000000000,
        _ => 0,
    }
}

// How many digits n has: by the number of its bits they are `least`, or one more. (There is no branch.)
pub fn decimal_length(n: u64) -> usize
    ensures { result ≡ length (digits 19 n) }
{
    let bits = (64 - u64::leading_zeros(n / 2 * 2 + 1)) as usize;
    let least = bits * 1233 / 4096;
    if n < smallest(least) {
        return least;
    }
    least + 1
}

// The last two digits of n.
fn put_pair(out: &mut [u8], at: usize, n: u64) -> usize
    requires { at + 2 ≤ length out.old }
    ensures { Wrote out.old at (pair n) result out.new }
{
    let two = (n % 100) as u8;
    out[at] = b'0' + two / 10;
    out[at + 1] = b'0' + two % 10;
    at + 2
}

// The last four digits of n.
fn put_four(out: &mut [u8], at: usize, n: u64) -> usize
    requires { at + 4 ≤ length out.old }
    ensures { Wrote out.old at (four n) result out.new }
{
    let low = n % 10000;
    let from = put_pair(out, at, low / 100);
    put_pair(out, from, low)
}

// The last eight digits of n.
fn put_eight(out: &mut [u8], at: usize, n: u64) -> usize
    requires { at + 8 ≤ length out.old }
    ensures { Wrote out.old at (eight n) result out.new }
{
    let low = n % 100000000;
    let from = put_four(out, at, low / 10000);
    put_four(out, from, low)
}

// The digits of a number of at most two: the last is stored over the first where there is one.
fn put_small(out: &mut [u8], at: usize, n: u64) -> usize
    requires { (n < 100) × (at + length (digits 19 n) ≤ length out.old) }
    ensures { Wrote out.old at (digits 19 n) result out.new }
{
    let last = at + (n >= 10) as usize;
    out[at] = b'0' + (n / 10) as u8;
    out[last] = b'0' + (n % 10) as u8;
    last + 1
}

// The digits of a number of at most four.
fn put_short(out: &mut [u8], at: usize, n: u64) -> usize
    requires { (n < 10000) × (at + length (digits 19 n) ≤ length out.old) }
    ensures { Wrote out.old at (digits 19 n) result out.new }
{
    if n < 100 {
        return put_small(out, at, n);
    }
    let from = put_small(out, at, n / 100);
    put_pair(out, from, n)
}

// The digits of n: at most four first, then four or eight at a time.
pub fn put_decimal(out: &mut [u8], at: usize, n: u64) -> usize
    requires { at + length (digits 19 n) ≤ length out.old }
    ensures { Wrote out.old at (digits 19 n) result out.new }
{
    if n < 10000 {
        return put_short(out, at, n);
    }
    if n < 100000000 {
        let from = put_short(out, at, n / 10000);
        return put_four(out, from, n);
    }
    if n < 1000000000000 {
        let from = put_short(out, at, n / 100000000);
        return put_eight(out, from, n);
    }
    if n < 10000000000000000 {
        let from = put_short(out, at, n / 1000000000000);
        let last = put_four(out, from, n / 100000000);
        return put_eight(out, last, n);
    }
    let from = put_short(out, at, n / 10000000000000000);
    let last = put_eight(out, from, n / 100000000);
    put_eight(out, last, n)
}

// 1 for the sign of a number below 0.
fn sign_length(z: i64) -> usize
    ensures { (result ≡ length (sign z)) × (result ≤ 1) }
{
    if z < 0 { 1 } else { 0 }
}

// How many bytes a whole number takes, with `-` where negative.
pub fn int_length(z: i64) -> usize
    ensures { result ≡ length (decimal z) }
{
    sign_length(z) + decimal_length(magnitude(z))
}

// A whole number, with `-` where negative: else the first digit is stored over it.
pub fn put_int(out: &mut [u8], at: usize, z: i64) -> usize
    requires { at + length (decimal z) ≤ length out.old }
    ensures { Wrote out.old at (decimal z) result out.new }
{
    out[at] = b'-';
    put_decimal(out, at + sign_length(z), magnitude(z))
}

// The position at distance d.
pub fn put_signed(out: &mut [u8], at: usize, d: u32) -> usize
    requires { at + most_signed ≤ length out.old }
    ensures { Wrote out.old at (decimal (position d)) result out.new }
{
    if d < REACH {
        let from = put_byte(out, at, b'-');
        return put_decimal(out, from, (REACH - d) as u64);
    }
    put_decimal(out, at, (d - REACH) as u64)
}

// A word.
pub fn put_text(out: &mut [u8], at: usize, s: &[u8]) -> usize
    requires { at + length s.now ≤ length out.old }
    ensures { Wrote out.old at s.now result out.new }
{
    let n = s.len();
    copy_bytes(s, 0, out, at, n);
    at + n
}

// A number after a space.
fn put_number(out: &mut [u8], at: usize, n: u64) -> usize
    requires { at + most_spaced ≤ length out.old }
    ensures { Wrote out.old at (number (pos n)) result out.new }
{
    let from = put_byte(out, at, b' ');
    put_decimal(out, from, n)
}

// A position after a space.
fn put_position(out: &mut [u8], at: usize, d: u32) -> usize
    requires { at + most_spaced ≤ length out.old }
    ensures { Wrote out.old at (number (position d)) result out.new }
{
    let from = put_byte(out, at, b' ');
    put_signed(out, from, d)
}

// The line of a refusal: its number, place and ordinality.
pub fn put_refusal(out: &mut [u8], at: usize, refusal: Refusal) -> usize
    requires { at + most_refused ≤ length out.old }
    ensures { Wrote out.old at (refused_text refusal) result out.new }
{
    let first = put_text(out, at, b"refused");
    let second = put_number(out, first, refusal.number as u64);
    let third = put_number(out, second, refusal.place as u64);
    let last = put_number(out, third, refusal.ordinality as u64);
    put_byte(out, last, b'\n')
}

// The first line of a listing: the number of its rows.
pub fn put_found(out: &mut [u8], at: usize, rows: u64) -> usize
    requires { at + most_found ≤ length out.old }
    ensures { Wrote out.old at (found_line rows) result out.new }
{
    let first = put_text(out, at, b"found");
    let last = put_number(out, first, rows);
    put_byte(out, last, b'\n')
}

// The line of a row, whose ordinality and `rank` positions stand in `rows` from the byte `from` on.
pub fn put_row(rows: &[u8], from: usize, rank: usize, out: &mut [u8], at: usize) -> usize
    requires { (from + limit_bytes + rank * limit_bytes ≤ length rows.now) × (at + most_row rank ≤ length out.old) }
    ensures { Wrote out.old at (line_at rows.now from rank) result out.new }
{
    let mut end = put_decimal(out, at, half(rows, from) as u64);
    for i in 0..rank {
        end = put_position(
            out,
            end,
            position_at(rows, from + LIMIT_BYTES + i * LIMIT_BYTES),
        );
    }
    put_byte(out, end, b'\n')
}
