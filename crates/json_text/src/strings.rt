// Strings: their characters, plain, escaped or of several bytes, to the closing quote.
ghost use Rattle.std.specs.Prelude.{◌≡◌, ◌≤◌, [], ◌∷◌, length};
ghost use Rattle.paper.specs.Grammar.{among, hex_digit, plain, chars, escape};
ghost use Rattle.paper.specs.Machine.{chosen};
ghost use Rattle.json_text.specs.Left.{Ends};
ghost use Rattle.json_text.specs.Strings.{hexes, wide, leading, spanned, Plain, Passes};

use crate::Fault;
use crate::bytes::run_end;

// 0 to 9, A to F, a to f.
#[tactic(auto, unfolding(paper::specs::Grammar::among), using(std::proofs::lemmas::Bool::Decides::nat_tests))]
fn is_hex(b: u8) -> bool
    ensures { result ≡ among hex_digit b }
{
    b.is_ascii_hexdigit()
}

// Four hex digits.
fn hex_end(s: &[u8], at: usize) -> Result<usize, Fault>
    requires { at ≤ length s.now }
    ensures { Ends s.now (hexes 4) at result }
{
    for i in at..at + 4 {
        if s.len() <= i || !is_hex(s[i]) {
            return Err(Fault(i));
        }
    }
    Ok(at + 4)
}

// What follows a backslash.
fn escape_end(s: &[u8], at: usize) -> Result<usize, Fault>
    requires { at ≤ length s.now }
    ensures { Ends s.now (escape ∷ []) at result }
{
    if s.len() <= at {
        return Err(Fault(at));
    }
    match s[at] {
        b'"' | b'\\' | b'/' | b'b' | b'f' | b'n' | b'r' | b't' => Ok(at + 1),
        b'u' => hex_end(s, at + 1),
        _ => Err(Fault(at)),
    }
}

// How many bytes follow the first of a character, and the next of them: from, to.
#[derive(Clone, Copy)]
struct Lead(u8, u8, u8);

// A character of several bytes, by its first.
fn lead_of(b: u8) -> Option<Lead>
    ensures { chosen wide b ≡ leading result }
{
    match b {
        0xc2..=0xdf => Some(Lead(1, 0x80, 0xbf)),
        0xe0 => Some(Lead(2, 0xa0, 0xbf)),
        0xe1..=0xec => Some(Lead(2, 0x80, 0xbf)),
        0xed => Some(Lead(2, 0x80, 0x9f)),
        0xee..=0xef => Some(Lead(2, 0x80, 0xbf)),
        0xf0 => Some(Lead(3, 0x90, 0xbf)),
        0xf1..=0xf3 => Some(Lead(3, 0x80, 0xbf)),
        0xf4 => Some(Lead(3, 0x80, 0x8f)),
        _ => None,
    }
}

// The bytes that follow the first.
fn further_end(s: &[u8], at: usize, lead: Lead) -> Result<usize, Fault>
    requires { at ≤ length s.now }
    ensures { Ends s.now (spanned lead.0 lead.1 lead.2) at result }
{
    let Lead(further, mut low, mut high) = lead;
    let end = at + usize::from(further);
    for i in at..end {
        if s.len() <= i || s[i] < low || high < s[i] {
            return Err(Fault(i));
        }
        low = 0x80;
        high = 0xbf;
    }
    Ok(end)
}

// A character that is not plain, nor the closing quote.
fn other_end(s: &[u8], at: usize) -> Result<usize, Fault>
    requires { at ≤ length s.now }
    ensures { Passes s.now at result }
{
    if s.len() <= at {
        return Err(Fault(at));
    }
    if s[at] == b'\\' {
        return escape_end(s, at + 1);
    }
    match lead_of(s[at]) {
        Some(lead) => further_end(s, at + 1, lead),
        None => Err(Fault(at)),
    }
}

// A character of one byte that stands for itself: no control, no quote, no backslash.
#[tactic(auto, unfolding(paper::specs::Grammar::among), using(std::proofs::lemmas::Bool::Decides::nat_tests))]
fn is_plain(b: u8) -> bool
    ensures { result ≡ among plain b }
{
    matches!(b, 0x20..=0x21 | 0x23..=0x5b | 0x5d..=0x7f)
}

// The first byte from `at` on that is not plain, or the text's end.
fn plain_end(s: &[u8], at: usize) -> usize
    requires { at ≤ length s.now }
    ensures { Plain s.now at result }
{
    run_end(s, at, is_plain)
}

// The characters of a string and its closing quote, from the byte after the opening quote on.
pub fn chars_end(s: &[u8], at: usize) -> Result<usize, Fault>
    requires { at ≤ length s.now }
    ensures { Ends s.now (chars ∷ []) at result }
{
    let mut i = plain_end(s, at);
    while i < s.len() {
        if s[i] == b'"' {
            return Ok(i + 1);
        }
        i = plain_end(s, other_end(s, i)?);
    }
    Err(Fault(i))
}
