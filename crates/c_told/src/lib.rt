// What a call tells: the bytes of its answer, or of its refusal's place and ordinality, at the beginning of a buffer that the caller lends.
// Where the buffer is shorter, its bytes are the first of the answer's; where it is longer, the bytes after the answer stay.
#![tactic(auto)]

ghost use Rattle.std.specs.Prelude.{ℕ, List, ◌≡◌, ◌≤◌, length, Ok, Err};
ghost use Rattle.paper.specs.Refusals.{refusal};
ghost use Rattle.paper.specs.Cells.{encode};
ghost use Rattle.paper.specs.Answers.{json_said};
ghost use Rattle.c_told.specs.Said.{answered, refusing, capped, capped_in};
ghost use Rattle.c_told.specs.Given.{number_bytes, foreseen_bytes, seen_bytes, total_bytes, listed_bytes, part_bytes};
ghost use Rattle.c_told.specs.Replies.{Tells, given, four};

use cell::bytes::{copy_bytes, put4, write_cell};
use paper::{
    CELL_BYTES, Cell, Foreseen, JsonRefusal, LIMIT_BYTES, Listed, Part, Refusal, Totalled,
};

// The bytes of the longest answer: four numbers.
pub const MOST: usize = 4 * LIMIT_BYTES;

// What a call tells: the number of its refusal, 0 for none, and the first `long` of these bytes.
#[derive(Clone, Copy)]
pub struct Reply {
    pub number: u32,
    pub long: usize,
    pub bytes: [u8; MOST],
}

// The bytes of a cell that a walk has seen.
const SEEN: usize = 1 + CELL_BYTES;

// A reply in the buffer that is lent, as many of its bytes as there is room for; answers its number.
pub fn give(said: &mut [u8], reply: Reply) -> u32
    requires { reply.long ≤ length reply.bytes }
    ensures { record { number = result; said = said.new } ≡ given reply said.old }
{
    let bytes = reply.bytes;
    let long = reply.long;
    let room = said.len();
    if room < long {
        copy_bytes(&bytes, 0, said, 0, room);
        return reply.number;
    }
    copy_bytes(&bytes, 0, said, 0, long);
    reply.number
}

// ---- numbers

// The first `long` bytes of four numbers.
pub fn of_numbers(number: u32, long: usize, a: u32, b: u32, c: u32, d: u32) -> Reply
    ensures { result ≡ four number long a b c d }
{
    let mut bytes = [0u8; MOST];
    put4(&mut bytes, 0, a);
    put4(&mut bytes, LIMIT_BYTES, b);
    put4(&mut bytes, 2 * LIMIT_BYTES, c);
    put4(&mut bytes, 3 * LIMIT_BYTES, d);
    Reply {
        number,
        long,
        bytes,
    }
}

// A refusal's place and ordinality, under its number.
pub fn refused(refusal: Refusal) -> Reply
    ensures { Tells (refusing refusal) result }
{
    let number = refusal.number as u32;
    let place = refusal.place;
    of_numbers(number, 2 * LIMIT_BYTES, place, refusal.ordinality, 0, 0)
}

// What a call answers with where it isn't refused, and its bytes: the reply that tells them, under number 0.
pub trait Told {
    ghost bytes: { Self → List ℕ };

    fn told(self) -> Reply
        ensures { Tells (answered bytes (Ok self)) result };
}

// What a call answers: what it got, or the refusal.
pub fn reply_of<T: Told>(answer: Result<T, Refusal>) -> Reply
    ensures { Tells (answered T.bytes answer) result }
{
    match answer {
        Ok(got) => got.told(),
        Err(refusal) => refused(refusal),
    }
}

// A count or a length.
impl Told for u32 {
    ghost bytes = { number_bytes };

    fn told(self) -> Reply {
        of_numbers(0, LIMIT_BYTES, self, 0, 0, 0)
    }
}

// The largest number that four bytes hold.
const LARGEST: usize = 4_294_967_295;

// A byte of a text by its place, which never wraps: one over the largest number is told as it.
fn place_told(place: usize) -> u32
    ensures { result ≡ capped place }
{
    if place <= LARGEST {
        return place as u32;
    }
    LARGEST as u32
}

// A refusal of a text, at a byte of it.
fn text_refused(number: u8, place: usize) -> Reply
    ensures { Tells (refusing (refusal number 0 (capped place))) result }
{
    let ordinality = place_told(place);
    refused(Refusal {
        number,
        place: 0,
        ordinality,
    })
}

// Why a text is not read: 15 and 16 with the place of a byte, or another refusal.
fn json_refused(refusal: JsonRefusal) -> Reply
    ensures { Tells (answered number_bytes (capped_in (json_said (Err refusal)))) result }
{
    match refusal {
        JsonRefusal::NotJson(place) => text_refused(15, place),
        JsonRefusal::Misfit(place) => text_refused(16, place),
        JsonRefusal::Refused(other) => refused(other),
    }
}

// Of reading JSON: the number of cells, or why not.
pub fn of_json(answer: Result<u32, JsonRefusal>) -> Reply
    ensures { Tells (answered number_bytes (capped_in (json_said answer))) result }
{
    match answer {
        Ok(n) => n.told(),
        Err(refusal) => json_refused(refusal),
    }
}

// T, and the last result's type, axis count and number of cells.
impl Told for Foreseen {
    ghost bytes = { foreseen_bytes };

    fn told(self) -> Reply {
        of_numbers(0, MOST, self.total, self.kind as u32, self.axes, self.cells)
    }
}

// Rows written, and where to go on.
impl Told for Listed {
    ghost bytes = { listed_bytes };

    fn told(self) -> Reply {
        let next = self.next;
        of_numbers(0, 2 * LIMIT_BYTES, self.written, next.0, 0, 0)
    }
}

// The side, and the bytes from and up to which the part lies.
impl Told for Part {
    ghost bytes = { part_bytes };

    fn told(self) -> Reply {
        match self {
            Part::Left(from, to) => of_numbers(0, 3 * LIMIT_BYTES, 1, from, to, 0),
            Part::Right(from, to) => of_numbers(0, 3 * LIMIT_BYTES, 2, from, to, 0),
        }
    }
}

// ---- cells

impl Told for Cell {
    ghost bytes = { encode };

    fn told(self) -> Reply {
        let mut bytes = [0u8; MOST];
        write_cell(&mut bytes, 0, self);
        Reply {
            number: 0,
            long: CELL_BYTES,
            bytes,
        }
    }
}

// A cell that a walk has seen, after a 1; at the end all zeros.
impl Told for Option<Cell> {
    ghost bytes = { seen_bytes };

    fn told(self) -> Reply {
        let mut bytes = [0u8; MOST];
        if let Some(cell) = self {
            bytes[0] = 1;
            write_cell(&mut bytes, 1, cell);
        }
        Reply {
            number: 0,
            long: SEEN,
            bytes,
        }
    }
}

// The cell of a total; a count is one of an INT.
impl Told for Totalled {
    ghost bytes = { total_bytes };

    fn told(self) -> Reply {
        match self {
            Totalled::Count(n) => Cell::Int(n as i64).told(),
            Totalled::Is(cell) => cell.told(),
        }
    }
}
