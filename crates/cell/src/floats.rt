// FLOAT: each result is the language's own on binary64, or refusal 12 where it isn't finite, or 13 (paper, Operators).
ghost use Rattle.std.specs.Prelude.{◌≡◌};
ghost use Rattle.std.specs.Float.{binary64};
ghost use Rattle.std.specs.Float.Ieee.{add, sub, mul};
ghost use Rattle.paper.specs.Cells.{finite};
ghost use Rattle.paper.specs.Operators.{fit_float, float_div, abs_float};

use paper::{Cell, Fault};

// Whether x is a number: no infinity and no NaN.
pub fn is_finite(x: f64) -> bool
    ensures { result ≡ finite x }
{
    x.is_finite()
}

// A FLOAT result, or refusal 12 where it isn't finite.
pub fn fit_float(x: f64) -> Result<Cell, Fault>
    ensures { result ≡ fit_float x }
{
    if is_finite(x) {
        Ok(Cell::Float(x))
    } else {
        Err(Fault::NoFit)
    }
}

pub fn float_add(a: f64, b: f64) -> Result<Cell, Fault>
    ensures { result ≡ fit_float (add binary64 a b) }
{
    fit_float(a + b)
}

pub fn float_sub(a: f64, b: f64) -> Result<Cell, Fault>
    ensures { result ≡ fit_float (sub binary64 a b) }
{
    fit_float(a - b)
}

pub fn float_mul(a: f64, b: f64) -> Result<Cell, Fault>
    ensures { result ≡ fit_float (mul binary64 a b) }
{
    fit_float(a * b)
}

pub fn float_div(a: f64, b: f64) -> Result<Cell, Fault>
    ensures { result ≡ float_div a b }
{
    if b == 0.0 {
        return Err(Fault::ByZero);
    }
    fit_float(a / b)
}

// The sign only: -0 becomes 0, which `<` does not tell apart.
pub fn float_abs(x: f64) -> f64
    ensures { result ≡ abs_float x }
{
    x.abs()
}
