// What is written: bytes, numbers, floats, yes or no, and why a line has no answer.
#![tactic(auto)]

use fault::Fault;
use fields::Problem;
use std::io::{self, Write};
use std::num::f32_to_bits_with_nan;

// Why a line has no answer.
#[derive(Clone, Copy)]
pub enum Failure {
    // Something is wrong with the line.
    Problem(Problem),
    // The engine turns the call away.
    Fault(Fault),
    // The input cannot be read, or the answers cannot be written.
    Io(io::Error),
}

impl From<Problem> for Failure {
    fn from(problem: Problem) -> Failure {
        Failure::Problem(problem)
    }
}

impl From<Fault> for Failure {
    fn from(fault: Fault) -> Failure {
        Failure::Fault(fault)
    }
}

impl From<io::Error> for Failure {
    fn from(error: io::Error) -> Failure {
        Failure::Io(error)
    }
}

// Bytes, two digits each.
pub fn hex(out: &mut impl Write, bytes: &[u8]) -> io::Result<()> {
    for byte in bytes {
        write!(out, "{byte:02x}")?;
    }
    Ok(())
}

// Numbers, one blank between.
pub fn numbers(out: &mut impl Write, list: &[u16]) -> io::Result<()> {
    for (i, number) in list.iter().enumerate() {
        if i > 0 {
            write!(out, " ")?;
        }
        write!(out, "{number}")?;
    }
    Ok(())
}

// A line that names what its floats are, which come in parts. A float is its bits, and every NaN alike.
pub fn float_line(out: &mut impl Write, name: &str, parts: &[&[f32]]) -> io::Result<()> {
    write!(out, "{name}")?;
    for part in parts {
        for x in *part {
            let bits = f32_to_bits_with_nan(*x);
            write!(out, " {bits:08x}")?;
        }
    }
    writeln!(out)
}

pub fn yes_or_no(out: &mut impl Write, holds: bool) -> io::Result<()> {
    let word = if holds { "yes\n" } else { "no\n" };
    out.write_all(word.as_bytes())
}

pub fn done(out: &mut impl Write) -> io::Result<()> {
    out.write_all(b"done\n")
}

// Says why the line of a number has no answer.
pub fn tell(out: &mut impl Write, line: u64, failure: Failure) -> io::Result<()> {
    match failure {
        Failure::Problem(problem) => writeln!(out, "line {line}: {problem}"),
        Failure::Fault(fault) => writeln!(out, "refused {}", fault.number()),
        Failure::Io(error) => Err(error),
    }
}
