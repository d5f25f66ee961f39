//! Runs a script of bad lines and of lines at a border, then many clearings and shares, and writes each line above its answer.
#![tactic(auto)]

use reader::ScriptReader;
use std::io;
use std::io::{Read, Write};

fn main(rt: HostRuntime) -> io::Result<()> {
    let heap = rt.alloc();
    let mut script = Vec::new(heap);
    rt.stdin().read_to_end(&mut script)?;
    let mut reader = ScriptReader::new(heap, true)?;
    let mut text = Vec::new(heap);
    for piece in script.as_slice().chunks(4096) {
        reader.feed(piece, &mut text)?;
    }
    reader.finish(&mut text)?;
    let mut output = rt.stdout();
    output.write_all(text.as_slice())?;
    output.flush()
}
