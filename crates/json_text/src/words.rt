// Words: whether a text begins with one, and where one ends.
ghost use Rattle.std.specs.Prelude.{◌≡◌, ◌≤◌, length, drop};
ghost use Rattle.paper.specs.JsonRead.{begins};
ghost use Rattle.json_text.specs.Left.{Ends};
ghost use Rattle.json_text.specs.Words.{letters};

use crate::Fault;

// The text from byte `at` on begins with w.
pub fn begins_with(s: &[u8], at: usize, w: &[u8]) -> bool
    requires { at ≤ length s.now }
    ensures { result ≡ begins w.now (drop at s.now) }
{
    s[at..].starts_with(w)
}

// The bytes of w, one after the other.
pub fn word_end(s: &[u8], at: usize, w: &[u8]) -> Result<usize, Fault>
    requires { at ≤ length s.now }
    ensures { Ends s.now (letters w.now) at result }
{
    for (i, b) in w.iter().enumerate() {
        if s.len() <= at + i || s[at + i] != *b {
            return Err(Fault(at + i));
        }
    }
    Ok(at + w.len())
}
