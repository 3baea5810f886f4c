// Bytes by their kind, and where a run of one kind ends.
ghost use Rattle.std.specs.Prelude.{◌≡◌, ◌≤◌, length};
ghost use Rattle.paper.specs.Grammar.{Bytes, among, these, blank, digit};
ghost use Rattle.json_text.specs.Numbers.{Tells, PassedOver};

// Space, tab, line feed, carriage return.
#[tactic(auto, unfolding(paper::specs::Grammar::among), using(std::proofs::lemmas::Bool::Decides::nat_tests))]
pub fn is_blank(b: u8) -> bool
    ensures { result ≡ among blank b }
{
    matches!(b, b' ' | b'\t' | b'\n' | b'\r')
}

// A digit.
pub fn is_digit(b: u8) -> bool
    ensures { result ≡ among digit b }
{
    b.is_ascii_digit()
}

// The e of an exponent.
#[tactic(auto, unfolding(paper::specs::Grammar::among), using(std::proofs::lemmas::Bool::Decides::nat_tests))]
pub fn is_e(b: u8) -> bool
    ensures { result ≡ among (these "eE") b }
{
    matches!(b, b'e' | b'E')
}

// A sign of an exponent.
#[tactic(auto, unfolding(paper::specs::Grammar::among), using(std::proofs::lemmas::Bool::Decides::nat_tests))]
pub fn is_sign(b: u8) -> bool
    ensures { result ≡ among (these "+-") b }
{
    matches!(b, b'+' | b'-')
}

// The first byte from `at` on that is no such byte, or the text's end.
pub fn run_end<F: Fn(u8) -> bool>(s: &[u8], at: usize, is: F) -> usize
    requires room { at ≤ length s.now }
    requires called { F.IsAlwaysCallable is }
    ensures { (c : Bytes) → Tells (F.post is) c → PassedOver c s.now at result }
{
    for i in at..s.len() {
        if !is(s[i]) {
            return i;
        }
    }
    s.len()
}
