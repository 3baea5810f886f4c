// Where blanks, digits and numbers end. A number's parts are those of the RFC: its digits, a fraction, an exponent.
ghost use Rattle.std.specs.Prelude.{◌≡◌, ◌≤◌, false, List, length};
ghost use Rattle.paper.specs.Grammar.{blank, digit, Digits, unsigned, after_zero, after_digit};
ghost use Rattle.json_text.specs.Numbers.{PassedOver, DigitsRead, PowerRead, Powered, Fractioned, NumberEnds};

use crate::Fault;
use crate::bytes::{is_blank, is_digit, is_e, is_sign, run_end};

// The first byte from `at` on that is no blank.
pub fn blanks_end(s: &[u8], at: usize) -> usize
    requires { at ≤ length s.now }
    ensures { PassedOver blank s.now at result }
{
    run_end(s, at, is_blank)
}

// The first byte from `at` on that is no digit.
pub fn digits_end(s: &[u8], at: usize) -> usize
    requires { at ≤ length s.now }
    ensures { PassedOver digit s.now at result }
{
    run_end(s, at, is_digit)
}

// A digit that must stand there, and more.
fn digits_due(s: &[u8], at: usize) -> Result<usize, Fault>
    requires { at ≤ length s.now }
    ensures { DigitsRead s.now at result }
{
    match s.get(at) {
        Some(b) if is_digit(*b) => Ok(digits_end(s, at + 1)),
        _ => Err(Fault(at)),
    }
}

// After the e of an exponent: a sign or none, and digits.
fn power_end(s: &[u8], at: usize) -> Result<usize, Fault>
    requires { at ≤ length s.now }
    ensures { PowerRead s.now at result }
{
    match s.get(at) {
        Some(b) if is_sign(*b) => digits_due(s, at + 1),
        _ => digits_due(s, at),
    }
}

// Where an exponent may stand.
fn exponent_end(s: &[u8], at: usize) -> Result<usize, Fault>
    requires { at ≤ length s.now }
    ensures { (d : Digits) → Powered s.now at d → NumberEnds s.now d at result }
{
    match s.get(at) {
        Some(b) if is_e(*b) => power_end(s, at + 1),
        _ => Ok(at),
    }
}

// Where a fraction may stand, after a number's first digits.
pub fn fraction_end(s: &[u8], at: usize) -> Result<usize, Fault>
    requires { at ≤ length s.now }
    ensures { (d : Digits) → Fractioned s.now at d → NumberEnds s.now d at result }
{
    if at == s.len() || s[at] != b'.' {
        return exponent_end(s, at);
    }
    exponent_end(s, digits_due(s, at + 1)?)
}

// After a 0.
pub fn zero_end(s: &[u8], at: usize) -> Result<usize, Fault>
    requires { at ≤ length s.now }
    ensures { NumberEnds s.now after_zero at result }
{
    fraction_end(s, at)
}

// After another digit.
pub fn digit_end(s: &[u8], at: usize) -> Result<usize, Fault>
    requires { at ≤ length s.now }
    ensures { NumberEnds s.now after_digit at result }
{
    fraction_end(s, digits_end(s, at))
}

// After a minus.
pub fn minus_end(s: &[u8], at: usize) -> Result<usize, Fault>
    requires { at ≤ length s.now }
    ensures { NumberEnds s.now unsigned at result }
{
    match s.get(at) {
        Some(b'0') => zero_end(s, at + 1),
        Some(b) if is_digit(*b) => digit_end(s, at + 1),
        _ => Err(Fault(at)),
    }
}
