// The whole text, byte after byte: brackets opened and closed, tokens met, strings, numbers and words passed over.
ghost use Rattle.std.specs.Prelude.{◌≡◌, ◌<◌, ◌^◌, length};
ghost use Rattle.paper.specs.Answers.{axes_of};
ghost use Rattle.json_read.specs.Scan.{stop_of, refusal_of, ended?, due_found, end_found, AllRoom, ScanFound};

use crate::fit::{Fit, Stage, fit_first, token_met};
use crate::parts::begun_end;
use json_due::Wanted;
use json_levels::{Levels, Next, byte_turn};
use json_text::numbers::blanks_end;
use paper::{Extent, JsonRefusal};

// The place of the byte that 15 or 16 names.
#[derive(Clone, Copy)]
pub enum TextFault {
    NotJson(usize),
    Misfit(usize),
}

// What the caller is told.
impl From<TextFault> for JsonRefusal {
    ghost from_gives = { λ fault r. r ≡ refusal_of fault };

    fn from(fault: TextFault) -> JsonRefusal {
        match fault {
            TextFault::NotJson(i) => JsonRefusal::NotJson(i),
            TextFault::Misfit(i) => JsonRefusal::Misfit(i),
        }
    }
}

// The place of the byte that ended it all, if one did.
fn stopped_at(stage: Stage) -> Option<usize>
    ensures { result ≡ stop_of stage }
{
    match stage {
        Stage::Before | Stage::Within => None,
        Stage::Wrong(_) => None,
        Stage::Stopped(place) => Some(place),
    }
}

// The object is closed.
fn is_ended(v: Levels) -> bool
    ensures { result ≡ ended? v }
{
    matches!(v.next, Next::More) && v.depth == 0
}

// After `data`: its cells, if nothing is due any more.
fn within_found(wanted: Wanted, done: usize) -> Result<usize, TextFault>
    ensures { result ≡ due_found wanted done }
{
    match wanted {
        Wanted::Nothing => Ok(done),
        Wanted::Opening | Wanted::Closing | Wanted::Value => Err(TextFault::Misfit(0)),
    }
}

// What was found, at the end of a whole object; `past` is the place one past the text's end.
fn end_found(past: usize, fit: Fit) -> Result<usize, TextFault>
    ensures { result ≡ end_found past fit }
{
    match fit.stage {
        Stage::Before => Err(TextFault::NotJson(past)),
        Stage::Within => within_found(fit.cursor.wanted, fit.done),
        Stage::Wrong(place) => Err(TextFault::Misfit(place)),
        Stage::Stopped(place) => Err(TextFault::NotJson(place)),
    }
}

// The number of the text's cells, stored in `out`; or where it is not what it should be.
pub fn scan(s: &[u8], kind: u8, e: Extent, out: &mut [u8]) -> Result<usize, TextFault>
    requires { AllRoom (axes_of e) (length out.old) }
    ensures { ScanFound kind (axes_of e) s.now out.new result }
{
    let mut v = Levels {
        next: Next::Object,
        depth: 0,
        bits: 0,
    };
    let mut fit = fit_first();
    let mut at = blanks_end(s, 0);
    while at < s.len() {
        let turn = byte_turn(v, s[at]);
        fit = token_met(s, at, kind, e, turn.begun, v.depth, fit, out);
        if let Some(place) = stopped_at(fit.stage) {
            return Err(TextFault::NotJson(place));
        }
        match begun_end(s, at + 1, turn.begun) {
            Ok(end) => at = blanks_end(s, end),
            Err(fault) => return Err(TextFault::NotJson(fault.0 + 1)),
        }
        v = turn.levels;
    }
    if !is_ended(v) {
        return Err(TextFault::NotJson(at + 1));
    }
    end_found(at + 1, fit)
}
