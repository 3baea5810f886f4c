// The rest of what a byte began: a name with its colon, a string, a number, a word.
ghost use Rattle.std.specs.Prelude.{[], ◌∷◌, ◌≤◌, length};
ghost use Rattle.paper.specs.Grammar.{chars, colon};
ghost use Rattle.json_text.specs.Left.{Ends};
ghost use Rattle.json_read.specs.Parts.{BegunEnds};

use json_levels::Begun;
use json_text::Fault;
use json_text::numbers::{blanks_end, digit_end, minus_end, zero_end};
use json_text::strings::chars_end;
use json_text::words::word_end;

// A name's colon, after blanks.
fn colon_end(s: &[u8], at: usize) -> Result<usize, Fault>
    requires { at ≤ length s.now }
    ensures { Ends s.now (colon ∷ []) at result }
{
    let i = blanks_end(s, at);
    if i == s.len() || s[i] != b':' {
        return Err(Fault(i));
    }
    Ok(i + 1)
}

// A name's characters and its colon.
fn name_end(s: &[u8], at: usize) -> Result<usize, Fault>
    requires { at ≤ length s.now }
    ensures { Ends s.now (chars ∷ colon ∷ []) at result }
{
    colon_end(s, chars_end(s, at)?)
}

// What was begun, from the byte after its first on.
pub fn begun_end(s: &[u8], at: usize, begun: Begun) -> Result<usize, Fault>
    requires { at ≤ length s.now }
    ensures { BegunEnds s.now begun at result }
{
    match begun {
        Begun::Nothing | Begun::Comma | Begun::Bracket => Ok(at),
        Begun::Name => name_end(s, at),
        Begun::Text => chars_end(s, at),
        Begun::Minus => minus_end(s, at),
        Begun::Zero => zero_end(s, at),
        Begun::Digit => digit_end(s, at),
        Begun::True => word_end(s, at, b"rue"),
        Begun::False => word_end(s, at, b"alse"),
        Begun::Null => word_end(s, at, b"ull"),
    }
}
