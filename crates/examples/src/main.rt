// The printed examples of the report and the papers, run. Standard input has them as a script, a line a command, that says what to print
// and what to call; what the calls give is printed beside it. A new case is a line of the script and one of what it must print.
#![tactic(auto)]

mod ask;
mod obey;

use crate::obey::obey;
use inputs::read_full;
use script::desk::{BUNDLE, CELLS, HEADS, STEPS, blank};
use script::line::read_line;
use script::parts::first;
use std::io;

// Room for the script.
const SCRIPT: usize = 24576;

// Each line of the script in turn.
fn follow(rt: &impl Print, script: &[u8]) -> io::Result<()> {
    let mut heads = [0u8; HEADS];
    let mut cells = [0u8; CELLS];
    let mut steps = [0u8; STEPS];
    let mut bundle = [0u8; BUNDLE];
    let mut desk = blank();
    let mut before = None;
    let mut at: usize = 0;
    while at < script.len() {
        let line = read_line(script, at, before);
        desk = obey(
            rt,
            desk,
            &script[at..],
            line.next - at,
            &line.words,
            &mut heads,
            &mut cells,
            &mut steps,
            &mut bundle,
        )?;
        before = Some(line.words);
        at = line.next;
    }
    Ok(())
}

fn main(rt: HostRuntime) -> io::Result<()> {
    let mut script = [0u8; SCRIPT];
    let n = read_full(&mut rt.stdin(), &mut script);
    follow(&rt, first(&script, n))
}
