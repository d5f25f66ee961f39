//! Runs a day script from standard input; with `--echo`, each line is written above its answer.
#![tactic(auto)]

use reader::ScriptReader;
use std::io::{Read, Write};
use std::{env, io};

fn main(rt: HostRuntime) -> io::Result<()> {
    let echo = env::args(&rt)?
        .nth(1)
        .is_some_and(|argument| argument.as_str() == "--echo");
    let heap = rt.alloc();
    let mut input = rt.stdin();
    let mut output = rt.stdout();
    let mut reader = ScriptReader::new(heap, echo)?;
    let mut text = Vec::new(heap);
    // A loop on input has no end that a proof sees, and nothing here may wait: the count is one that no input reaches.
    for _ in 0..u64::MAX {
        // A fixed piece with its count: `read` fills what it is given and says how much.
        let mut piece = [0u8; 4096];
        let count = input.read(&mut piece)?;
        if count == 0 {
            break;
        }
        let fed = reader.feed(&piece[..count], &mut text);
        output.write_all(text.as_slice())?;
        fed?;
        text.clear();
    }
    reader.finish(&mut text)?;
    output.write_all(text.as_slice())?;
    output.flush()
}
