// Reads a list of calls, one a line, and writes an answer a line: README.md, 'A list of calls'.
#![tactic(auto)]

use buffers::Held;
use fields::MOST_LINE;
use input::Lines;
use std::io::{self, Write};

fn main(rt: HostRuntime) -> io::Result<()> {
    let mut input = Lines::new(rt.reader());
    let mut out = io::writer(&rt);
    let mut line = [0u8; MOST_LINE];
    let mut held = Held::new();
    // Lines are counted up to a number that no input uses up.
    for number in 1..=u64::MAX {
        let answer = match input.read_line(&mut line) {
            Ok(Some(line)) => line_calls::answer(&mut out, &mut held, line),
            Ok(None) => break,
            Err(failure) => Err(failure),
        };
        if let Err(failure) = answer {
            writing::tell(&mut out, number, failure)?;
        }
        out.flush()?;
    }
    Ok(())
}
