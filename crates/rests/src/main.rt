// The program `rests`: what paper 01, "Eleven hours, whole", says that it prints. It reads `roster.rma` and `recipe.bin` from the current
// folder and prints the text that `report` makes of them. A missing file counts as empty. It is run here on that paper's example.
#![tactic(auto)]

ghost use Rattle.io.specs.Counts.{IsPrefixLen};

use inputs::read_full;
use paper::{FILE_BYTES, LIMIT_BYTES};
use std::fs::File;
use std::io;
use std::rt::Files;

// The bytes of a file at most, and one byte more, by which a longer file is seen.
const FILE: usize = FILE_BYTES + 1;

// A row for each of 4,096 cells, and the longest text.
const ROWS: usize = 4096 * (LIMIT_BYTES + LIMIT_BYTES * paper::AXES);

const TEXT: usize = 634908;

// Reads the file into `buf`, as far as it goes; answers how many bytes. One that does not open has none.
fn read_file(rt: &impl Files, path: &str, buf: &mut [u8]) -> usize
    ensures { IsPrefixLen result buf.new }
{
    match File::open(rt, path) {
        Ok(mut file) => read_full(&mut file, buf),
        Err(_) => 0,
    }
}

// Prints the text of a bundle and a recipe.
fn print_text(rt: &impl Print, roster: &[u8], recipe: &[u8]) -> io::Result<()> {
    let mut work = [0u8; FILE_BYTES];
    let mut rows = [0u8; ROWS];
    let mut out = [0u8; TEXT];
    let n = report::report(roster, recipe, &mut work, &mut rows, &mut out);
    rt.write_all(&out[..n])
}

fn main(rt: HostRuntime) -> io::Result<()> {
    let mut roster = [0u8; FILE];
    let mut recipe = [0u8; FILE];
    let n = read_file(&rt, "roster.rma", &mut roster);
    let m = read_file(&rt, "recipe.bin", &mut recipe);
    print_text(&rt, &roster[..n], &recipe[..m])
}
