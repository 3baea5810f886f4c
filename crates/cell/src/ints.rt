// INT: each result is the whole number, or refusal 12 where it doesn't fit, or 13 (paper, Operators).
ghost use Rattle.std.specs.Prelude.{◌≡◌, ◌*◌, ◌^◌, ◌&&◌, ℤ, pos, ◌+ℤ◌, ◌-ℤ◌, ◌*ℤ◌, neg_ℤ, int_div, int_rem, nat_le, nat_lt, unsigned_abs, FitsSigned, SomeIff};
ghost use Rattle.std.specs.Int.{w64};
ghost use Rattle.paper.specs.Operators.{fit_int, int_by, eq_z};
ghost use Rattle.laws.specs.Parts.{up, dn};
ghost use Rattle.cell.specs.Signs.{signs_apart};

use paper::{Cell, Fault};

const SMALLEST: i64 = -9223372036854775808;

// |a|, which a u64 always holds.
pub fn magnitude(a: i64) -> u64
    ensures { result ≡ unsigned_abs a }
{
    a.unsigned_abs()
}

// Whether m * n is 2 ^ 64 or more. (LLVM makes one multiplication of the test, and no division.)
pub fn product_over(m: u64, n: u64) -> bool
    ensures { result ≡ nat_le (2 ^ 64) (m * n) }
{
    if m == 0 {
        false
    } else {
        18446744073709551615 / m < n
    }
}

// A result that was checked: the whole number, or refusal 12 where it doesn't fit.
fn fitting(checked: Option<i64>) -> Result<Cell, Fault>
    ensures { (z : ℤ) → SomeIff checked (FitsSigned w64 z) z → result ≡ fit_int z }
{
    match checked {
        Some(z) => Ok(Cell::Int(z)),
        None => Err(Fault::NoFit),
    }
}

// Whether neither x nor y has the top bit of z.
fn signs_apart(x: u64, y: u64, z: u64) -> bool
    ensures { result ≡ signs_apart x y z }
{
    9223372036854775808 <= (x ^ z) & (y ^ z)
}

// A sum does not fit exactly where, wrapped, it has the sign of neither number: the compiler makes the machine's own test of it, which it
// does not of `checked_add`.
pub fn int_add(a: i64, b: i64) -> Result<Cell, Fault>
    ensures { result ≡ fit_int (a +ℤ b) }
{
    let x = a.cast_unsigned();
    let y = b.cast_unsigned();
    let n = x.wrapping_add(y);
    if signs_apart(x, y, n) {
        Err(Fault::NoFit)
    } else {
        Ok(Cell::Int(n.cast_signed()))
    }
}

pub fn int_sub(a: i64, b: i64) -> Result<Cell, Fault>
    ensures { result ≡ fit_int (a -ℤ b) }
{
    let x = a.cast_unsigned();
    let y = b.cast_unsigned();
    let n = x.wrapping_sub(y);
    if signs_apart(y, n, x) {
        Err(Fault::NoFit)
    } else {
        Ok(Cell::Int(n.cast_signed()))
    }
}

pub fn int_neg(a: i64) -> Result<Cell, Fault>
    ensures { result ≡ fit_int (neg_ℤ a) }
{
    if a == SMALLEST {
        Err(Fault::NoFit)
    } else {
        Ok(Cell::Int(-a))
    }
}

pub fn int_abs(a: i64) -> Result<Cell, Fault>
    ensures { result ≡ fit_int (pos (unsigned_abs a)) }
{
    if a >= 0 { Ok(Cell::Int(a)) } else { int_neg(a) }
}

// A number of 32 bits: the product of two such always fits.
fn small(a: i64) -> bool
    ensures { result ≡ (nat_le (dn a) (2 ^ 31) && nat_lt (up a) (2 ^ 31)) }
{
    if a < -2147483648 {
        return false;
    }
    a <= 2147483647
}

// Two numbers of 32 bits at once. Others by the magnitudes: below 2 ^ 63 the product fits whatever its sign, above it never does, and at
// 2 ^ 63 it is the smallest number if the signs differ.
pub fn int_mul(a: i64, b: i64) -> Result<Cell, Fault>
    ensures { result ≡ fit_int (a *ℤ b) }
{
    if small(a) && small(b) {
        return Ok(Cell::Int(a * b));
    }
    let m = magnitude(a);
    let n = magnitude(b);
    if product_over(m, n) {
        return Err(Fault::NoFit);
    }
    let p = m * n;
    if p < 9223372036854775808 {
        Ok(Cell::Int(a * b))
    } else if p == 9223372036854775808 {
        if (a < 0) == (b < 0) {
            Err(Fault::NoFit)
        } else {
            Ok(Cell::Int(SMALLEST))
        }
    } else {
        Err(Fault::NoFit)
    }
}

pub fn int_div(a: i64, b: i64) -> Result<Cell, Fault>
    ensures { result ≡ int_by int_div a b }
{
    if b == 0 {
        Err(Fault::ByZero)
    } else {
        fitting(a.checked_div(b))
    }
}

// The remainder fits also where the quotient doesn't.
pub fn int_mod(a: i64, b: i64) -> Result<Cell, Fault>
    ensures { result ≡ int_by int_rem a b }
{
    if b == 0 {
        Err(Fault::ByZero)
    } else {
        Ok(Cell::Int(a.wrapping_rem(b)))
    }
}

pub fn int_eq(a: i64, b: i64) -> bool
    ensures { result ≡ eq_z a b }
{
    a == b
}
