// Names: whether one is `data`, escapes undone.
ghost use Rattle.std.specs.Prelude.{◌≡◌, ◌≤◌, length, drop};
ghost use Rattle.paper.specs.Numbers.{text};
ghost use Rattle.paper.specs.JsonRead.{spells};
ghost use Rattle.json_text.specs.Spelled.{Lettered};

use crate::words::begins_with;

// How many bytes spell the letter, from byte `at` on: 1 as itself, 6 as \u00 and its two digits.
fn letter_length(s: &[u8], at: usize, letter: u8) -> Option<usize>
    requires { at ≤ length s.now }
    ensures { Lettered s.now at letter result }
{
    if begins_with(s, at, &[letter]) {
        return Some(1);
    }
    let escaped = [
        b'\\',
        b'u',
        b'0',
        b'0',
        b'0' + letter / 16,
        b'0' + letter % 16,
    ];
    if begins_with(s, at, &escaped) {
        return Some(6);
    }
    None
}

// The text from byte `at` on spells `data` and a quote.
pub fn is_data(s: &[u8], at: usize) -> bool
    requires { at ≤ length s.now }
    ensures { result ≡ spells (text "data") (drop at s.now) }
{
    let mut i = at;
    for letter in b"data" {
        match letter_length(s, i, *letter) {
            Some(n) => i += n,
            None => return false,
        }
    }
    begins_with(s, i, b"\"")
}
