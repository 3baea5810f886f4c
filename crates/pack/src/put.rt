// The writers: each puts its bytes into the output buffer from a place on, and leaves the rest of the buffer as it was.
ghost use Rattle.std.specs.Prelude.{◌≡◌, [], ◌∷◌, ◌++◌, ◌+◌, ◌*◌, ◌≤◌, length, take};
ghost use Rattle.paper.specs.Limits.{half_name, sizes_of};
ghost use Rattle.paper.specs.Numbers.{le_bytes};
ghost use Rattle.paper.specs.Axes.{letters_of};
ghost use Rattle.paper.specs.Bundle.{mark, mark_bytes, axes_bytes};
ghost use Rattle.paper.specs.Answers.{axes_of, names_for};
ghost use Rattle.laws.specs.Put.{put};
ghost use Rattle.pack.specs.Put.{axis_part, AxesRoom};
ghost use Rattle.pack.specs.Heads.{head_length, HeadRoom, HeadPut};
ghost use Rattle.pack.specs.Laid.{laid_bytes};
ghost use Rattle.pack.specs.Laying.{ArrayRoom, ArrayPut, AllRoom};

use cell::bytes::{copy_bytes, put4};
use extent::{cells_of, rank_of};
use paper::{
    AXES, Axis, CELL_BYTES, Extent, Form, HALF_NAME, LIMIT_BYTES, Name, OPENING_BYTES, PAIR_BYTES,
    TYPE_BYTES, Version,
};
use positions::bits_of;
use versions::sizes;

// What half of a number's eight bytes can hold.
const HALF: u64 = 4294967296;

// The bytes of a whole head: one with room for as many axes as the version's arrays may have.
pub fn whole_head(v: Version) -> usize
    ensures { (result ≡ head_length (sizes_of v)) × (result ≤ 194) }
{
    let z = sizes(v);
    TYPE_BYTES + z.axes * z.axis
}

// The eight bytes of half a name, the lowest first.
fn put_half(d: &mut [u8], at: usize, n: u64)
    requires { at + half_name ≤ length d.old }
    ensures { d.new ≡ put d.old at (le_bytes half_name n) }
{
    let high = n / HALF;
    let low = n % HALF;
    put4(d, at, low as u32);
    put4(d, at + LIMIT_BYTES, high as u32);
}

// The sixteen bytes of a name.
fn put_both(d: &mut [u8], at: usize, n: Name)
    requires { at + 2 * half_name ≤ length d.old }
    ensures { d.new ≡ put d.old at (take (2 * half_name) (letters_of n)) }
{
    put_half(d, at, n.first);
    put_half(d, at + HALF_NAME, n.last);
}

// As many of them as the version's names have.
fn put_name(v: Version, d: &mut [u8], at: usize, n: Name)
    requires { at + (sizes_of v).name ≤ length d.old }
    ensures { d.new ≡ put d.old at (take (sizes_of v).name (letters_of n)) }
{
    match v {
        Version::One => return put_half(d, at, n.first),
        Version::Two => return put_both(d, at, n),
    }
}

// An axis with its name and its maximum: name, lower, upper, maximum lower, maximum upper.
fn put_axis(v: Version, d: &mut [u8], at: usize, n: Name, a: Axis, m: Axis)
    requires { at + (sizes_of v).axis ≤ length d.old }
    ensures { d.new ≡ put d.old at (axis_part (sizes_of v) n a m) }
{
    let z = sizes(v);
    let limits = at + z.name;
    put_name(v, d, at, n);
    put4(d, limits, bits_of(a.lo));
    put4(d, limits + LIMIT_BYTES, bits_of(a.hi));
    put4(d, limits + PAIR_BYTES, bits_of(m.lo));
    put4(d, limits + PAIR_BYTES + LIMIT_BYTES, bits_of(m.hi));
}

// The axes of an extent with their names and its maximum.
fn put_axes(v: Version, d: &mut [u8], at: usize, names: [Name; AXES], e: Extent, m: Extent)
    requires { AxesRoom (sizes_of v) e m at d.old }
    ensures { d.new ≡ put d.old at (axes_bytes (sizes_of v) (names_for (axes_of e) names) (axes_of e) (axes_of m)) }
{
    let z = sizes(v);
    let rank = rank_of(e);
    for i in 0..rank {
        put_axis(v, d, at + i * z.axis, names[i], e.axes[i], m.axes[i]);
    }
}

// Where an array's cells end among the cells, and its bytes in the bundle.
#[derive(Clone, Copy)]
pub struct Ends {
    pub from: usize,
    pub at: usize,
}

// A head: its type, its axis count, its axes; answers the byte after it.
pub fn put_head(v: Version, form: Form, d: &mut [u8], at: usize) -> usize
    requires { HeadRoom (sizes_of v) form at d.old }
    ensures { HeadPut (sizes_of v) form at d.old result d.new }
{
    let z = sizes(v);
    let rank = rank_of(form.extent);
    d[at] = form.kind;
    d[at + 1] = rank as u8;
    let names = form.names;
    put_axes(v, d, at + TYPE_BYTES, names, form.extent, form.maximum);
    at + TYPE_BYTES + rank * z.axis
}

// An array: its head, and its cells, which stand from the byte `from` on.
fn put_array(v: Version, form: Form, cells: &[u8], from: usize, d: &mut [u8], at: usize) -> Ends
    requires { ArrayRoom (sizes_of v) form cells.now from d.old at }
    ensures { ArrayPut (sizes_of v) form cells.now from d.old at result d.new }
{
    let long = cells_of(form.extent).unwrap_or(0) * CELL_BYTES;
    let begin = put_head(v, form, d, at);
    copy_bytes(cells, from, d, begin, long);
    Ends {
        from: from + long,
        at: begin + long,
    }
}

// The first `count` arrays, with their cells in one buffer.
pub fn put_arrays(
    v: Version,
    count: usize,
    forms: [Form; paper::ARRAYS],
    cells: &[u8],
    d: &mut [u8],
)
    requires { AllRoom (sizes_of v) count forms cells.now d.old }
    ensures { d.new
        ≡ put d.old (mark_bytes + 1) (laid_bytes (sizes_of v) (take count forms) cells.now) }
{
    let mut from: usize = 0;
    let mut at = OPENING_BYTES;
    for i in 0..count {
        let ends = put_array(v, forms[i], cells, from, d, at);
        from = ends.from;
        at = ends.at;
    }
}

// The bundle's first bytes: mark, version, count.
pub fn put_mark(v: Version, d: &mut [u8], count: u8)
    requires { mark_bytes + 1 ≤ length d.old }
    ensures { d.new ≡ put d.old 0 (mark (sizes_of v) ++ (count ∷ [])) }
{
    let z = sizes(v);
    d[0] = b'R';
    d[1] = b'M';
    d[2] = b'A';
    d[3] = z.version;
    d[4] = 0;
    d[5] = count;
}
