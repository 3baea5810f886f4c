// The tokens of a text held against what is due: `data` found, its brackets and cells met one after the other, each cell stored as it
// comes.
ghost use Rattle.std.specs.Prelude.{◌≡◌, ◌+◌, ◌^◌, ◌<◌, length, drop};
ghost use Rattle.paper.specs.Numbers.{text};
ghost use Rattle.paper.specs.Answers.{axes_of};
ghost use Rattle.paper.specs.JsonRead.{spells};
ghost use Rattle.laws.specs.Limits.{Sound};
ghost use Rattle.json_due.specs.Due.{Stands};
ghost use Rattle.json_read.specs.Fit.{Ready, WithinDue, ValueDue, Met, BracketMet, FitsOn, TokenMet};
ghost use Rattle.json_read.specs.Fit.{waiting, misfitting, stopping, after_data, name_sign, sign_of};

use cell::bytes::write_cell;
use json_due::{Cursor, Wanted, due_after, due_first};
use json_levels::Begun;
use json_text::cells::cell_at;
use json_text::names::is_data;
use paper::{CELL_BYTES, Extent};

// Before `data`; in its value or after it; after a misfit, by its place; after a byte that ends it all, by its place.
#[derive(Clone, Copy)]
pub enum Stage {
    Before,
    Within,
    Wrong(usize),
    Stopped(usize),
}

// That, the number of cells stored, and what is due.
#[derive(Clone, Copy)]
pub struct Fit {
    pub stage: Stage,
    pub done: usize,
    pub cursor: Cursor,
}

// What begins: nothing that may come; no token; the name `data` of the outermost object; another token.
#[derive(Clone, Copy)]
enum Sign {
    Nothing,
    Comma,
    Data,
    Other,
}

// Before the text.
pub fn fit_first() -> Fit
    ensures { result ≡ waiting }
{
    Fit {
        stage: Stage::Before,
        done: 0,
        cursor: due_first(),
    }
}

// ---- a token that is not `data`

// It doesn't fit.
fn misfit(fit: Fit, at: usize) -> Fit
    requires { at < 2 ^ 63 }
    ensures { result ≡ misfitting fit at }
{
    Fit {
        stage: Stage::Wrong(at + 1),
        ..fit
    }
}

// It fits, and so many cells are stored.
fn fitting(e: Extent, fit: Fit, done: usize) -> Fit
    requires { Sound (axes_of e) × Stands (axes_of e) fit.cursor }
    ensures { FitsOn (axes_of e) fit.cursor done result }
{
    Fit {
        stage: Stage::Within,
        done,
        cursor: due_after(e, fit.cursor),
    }
}

// A bracket is due.
fn bracket_met(s: &[u8], at: usize, bracket: u8, e: Extent, fit: Fit) -> Fit
    requires { (at < length s.now) × Sound (axes_of e) × Stands (axes_of e) fit.cursor }
    ensures { BracketMet (axes_of e) s.now at bracket fit result }
{
    if s[at] == bracket {
        return fitting(e, fit, fit.done);
    }
    misfit(fit, at)
}

// A cell is due.
fn value_met(s: &[u8], at: usize, kind: u8, e: Extent, fit: Fit, out: &mut [u8]) -> Fit
    requires { (at < length s.now) × ValueDue (axes_of e) fit (length out.old) }
    ensures { Met kind (axes_of e) s.now at fit out.old result out.new }
{
    match cell_at(s, at, kind) {
        Some(c) => {
            write_cell(out, fit.done * CELL_BYTES, c);
            fitting(e, fit, fit.done + 1)
        }
        None => misfit(fit, at),
    }
}

// In the value of `data`, or after it.
fn within_met(s: &[u8], at: usize, kind: u8, e: Extent, fit: Fit, out: &mut [u8]) -> Fit
    requires { (at < length s.now) × WithinDue (axes_of e) fit (length out.old) }
    ensures { Met kind (axes_of e) s.now at fit out.old result out.new }
{
    match fit.cursor.wanted {
        Wanted::Nothing => fit,
        Wanted::Opening => bracket_met(s, at, b'[', e, fit),
        Wanted::Closing => bracket_met(s, at, b']', e, fit),
        Wanted::Value => value_met(s, at, kind, e, fit, out),
    }
}

// Anywhere.
fn other_met(s: &[u8], at: usize, kind: u8, e: Extent, fit: Fit, out: &mut [u8]) -> Fit
    requires { (at < length s.now) × Ready (axes_of e) fit (length out.old) }
    ensures { Met kind (axes_of e) s.now at fit out.old result out.new }
{
    match fit.stage {
        Stage::Within => within_met(s, at, kind, e, fit, out),
        Stage::Before | Stage::Wrong(_) | Stage::Stopped(_) => fit,
    }
}

// ---- `data`

// It ends it all there.
fn stop(fit: Fit, at: usize) -> Fit
    requires { at < 2 ^ 63 }
    ensures { result ≡ stopping fit at }
{
    Fit {
        stage: Stage::Stopped(at + 1),
        ..fit
    }
}

// The first begins what is due; a second ends it all.
fn data_met(fit: Fit, at: usize) -> Fit
    requires { at < 2 ^ 63 }
    ensures { result ≡ after_data fit at }
{
    match fit.stage {
        Stage::Before => Fit {
            stage: Stage::Within,
            cursor: due_first(),
            ..fit
        },
        Stage::Within | Stage::Wrong(_) => stop(fit, at),
        Stage::Stopped(_) => fit,
    }
}

// ---- what begins at a byte

// A name: `data` counts in the first level.
fn name_sign(s: &[u8], at: usize, depth: u32) -> Sign
    requires { at < length s.now }
    ensures { result ≡ name_sign depth (spells (text "data") (drop (at + 1) s.now)) }
{
    if depth == 1 && is_data(s, at + 1) {
        Sign::Data
    } else {
        Sign::Other
    }
}

fn sign_of(s: &[u8], at: usize, begun: Begun, depth: u32) -> Sign
    requires { at < length s.now }
    ensures { result ≡ sign_of begun depth (spells (text "data") (drop (at + 1) s.now)) }
{
    match begun {
        Begun::Nothing => Sign::Nothing,
        Begun::Comma => Sign::Comma,
        Begun::Name => name_sign(s, at, depth),
        Begun::Bracket
        | Begun::Text
        | Begun::Minus
        | Begun::Zero
        | Begun::Digit
        | Begun::True
        | Begun::False
        | Begun::Null => Sign::Other,
    }
}

pub fn token_met(
    s: &[u8],
    at: usize,
    kind: u8,
    e: Extent,
    begun: Begun,
    depth: u32,
    fit: Fit,
    out: &mut [u8],
) -> Fit
    requires { (at < length s.now) × Ready (axes_of e) fit (length out.old) }
    ensures { TokenMet kind (axes_of e) s.now at begun depth fit out.old result out.new }
{
    match sign_of(s, at, begun, depth) {
        Sign::Nothing => stop(fit, at),
        Sign::Comma => fit,
        Sign::Data => data_met(fit, at),
        Sign::Other => other_met(s, at, kind, e, fit, out),
    }
}
