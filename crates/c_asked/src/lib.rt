// What a caller asks, from bytes: the heads of arrays, the coordinate of a reference, the walking place, a total by its number.
#![tactic(auto)]

ghost use Rattle.std.specs.Prelude.{◌≡◌, ◌+◌, ◌≤◌, ◌<◌, length, drop};
ghost use Rattle.paper.specs.Limits.{limit_bytes, sizes_of};
ghost use Rattle.paper.specs.Numbers.{signed_at};
ghost use Rattle.paper.specs.Reference.{reference, walk};
ghost use Rattle.laws.specs.Answers.{form_of};
ghost use Rattle.pack.specs.Heads.{head_length};
ghost use Rattle.c_asked.specs.Asked.{pieces, head_count, side_shape, coordinate_in, place_in, place_after, no_total, total_asked};
ghost use Rattle.c_asked.specs.Heads.{form_in, HeadsIn};

use bundle::axes::bounds_at;
use bundle::no_head;
use cell::bytes::{half, put4};
use pack::put::whole_head;
use paper::{Cell, Form, LIMIT_BYTES, Ordinality, Refusal, TYPE_BYTES, Total, Totalled, Version};
use refer::{choose, refer, walk_step};
use refusals::refuse;
use totals::total;
use versions::sizes;

// The forms of the arrays to be packed, and how many.
#[derive(Clone, Copy)]
pub struct Forms {
    pub count: usize,
    pub forms: [Form; paper::ARRAYS],
}

// How many pieces of `size` bytes n bytes are; none where they are no whole pieces or more than `most`.
fn pieces_of(most: usize, size: usize, n: usize) -> usize
    requires { (0 < size) × (size ≤ 194) × (most ≤ 6) }
    ensures { result ≡ pieces most size n }
{
    if n % size != 0 {
        return 0;
    }
    if most * size < n {
        return 0;
    }
    n / size
}

// ---- heads

// As many axes as a head's count tells of; none where the version's arrays have no so many.
fn head_count(v: Version, told: usize) -> usize
    ensures { result ≡ head_count (sizes_of v) told }
{
    let z = sizes(v);
    if told <= z.axes {
        return told;
    }
    0
}

// The form that the head at `at` describes.
fn form_at(v: Version, s: &[u8], at: usize) -> Form
    requires { at + head_length (sizes_of v) ≤ length s.now }
    ensures { result ≡ form_in (sizes_of v) (drop at s.now) }
{
    let kind = s[at];
    let rank = head_count(v, s[at + 1] as usize);
    let bounds = bounds_at(v, s, at + TYPE_BYTES, rank);
    let names = bounds.names;
    let extent = bounds.extent;
    let maximum = bounds.maximum;
    Form {
        kind,
        names,
        extent,
        maximum,
    }
}

// The forms of the arrays to be packed.
pub fn forms_in(v: Version, heads: &[u8]) -> Forms
    ensures { HeadsIn (sizes_of v) heads.now result }
{
    let size = whole_head(v);
    let count = pieces_of(paper::ARRAYS, size, heads.len());
    let none = no_head();
    let blank = none.form;
    let mut forms = [blank; paper::ARRAYS];
    for i in 0..count {
        let form = form_at(v, heads, i * size);
        forms[i] = form;
    }
    Forms { count, forms }
}

// The form of one side of a stretch: a head of another length has no type and no axis.
pub fn side_form(v: Version, head: &[u8]) -> Form
    ensures { result ≡ form_of (side_shape (sizes_of v) head.now) }
{
    if head.len() != whole_head(v) {
        let none = no_head();
        return none.form;
    }
    form_at(v, head, 0)
}

// ---- a reference

// The signed number at a byte.
fn signed_at(s: &[u8], at: usize) -> i32
    requires { at + limit_bytes ≤ length s.now }
    ensures { result ≡ signed_at at s.now }
{
    half(s, at).cast_signed()
}

// The cell of array k at the coordinate whose numbers these bytes are.
pub fn refer_bytes(s: &[u8], k: u32, at: &[u8]) -> Result<Cell, Refusal>
    ensures { result ≡ reference s.now k (coordinate_in at.now) }
{
    let n = pieces_of(paper::AXES, LIMIT_BYTES, at.len());
    let mut zs = [0i32; paper::AXES];
    for i in 0..n {
        zs[i] = signed_at(at, i * LIMIT_BYTES);
    }
    refer(s, k, &zs[0..n])
}

// ---- the walking place

// The walking place in these bytes: 0, which is none, where they are too few.
fn place_in(place: &[u8]) -> u32
    ensures { result ≡ place_in place.now }
{
    if place.len() < LIMIT_BYTES {
        return 0;
    }
    half(place, 0)
}

// The walking place after a step, where it stands.
fn place_on(place: &mut [u8], o: u32)
    ensures { place.new ≡ place_after o place.old }
{
    if place.len() < LIMIT_BYTES {
        return;
    }
    put4(place, 0, o);
}

// One step of a walk over array k from the place in these bytes, which is moved forward where it stands.
pub fn walk_bytes(s: &[u8], k: u32, place: &mut [u8]) -> Result<Option<Cell>, Refusal>
    ensures { (result ≡ (walk s.now k (place_in place.old)).answer)
        × (place.new ≡ place_after (walk s.now k (place_in place.old)).place place.old) }
{
    let step = walk_step(s, k, Ordinality(place_in(place)));
    let after = step.place;
    place_on(place, after.0);
    step.answer
}

// ---- a total

// No total has this number: refused as an unknown operator is, once there is such an array.
fn no_total(s: &[u8], k: u32) -> Result<Totalled, Refusal>
    ensures { result ≡ no_total s.now k }
{
    choose(s, k)?;
    Err(refuse(4, k))
}

// The total of array k that has the number `which`.
pub fn total_asked(s: &[u8], k: u32, which: u32) -> Result<Totalled, Refusal>
    ensures { result ≡ total_asked s.now k which }
{
    match which {
        1 => total(s, k, Total::Filled),
        2 => total(s, k, Total::Trues),
        3 => total(s, k, Total::Smallest),
        4 => total(s, k, Total::Largest),
        5 => total(s, k, Total::Sum),
        6 => total(s, k, Total::Average),
        _ => no_total(s, k),
    }
}
