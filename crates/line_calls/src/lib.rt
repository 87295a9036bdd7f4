// The call that a line holds, answered.
#![tactic(auto)]

use buffers::Held;
use fields::Fields;
use std::io::Write;
use writing::Failure;

// Answers a line, if it holds a call.
pub fn answer(out: &mut impl Write, held: &mut Held, line: &[u8]) -> Result<(), Failure> {
    let mut fields = Fields::of(line);
    let Some(name) = fields.next() else {
        return Ok(());
    };
    if name.starts_with(b"#") {
        return Ok(());
    }
    match name {
        b"lay" => lay_calls::lay(out, &mut held.run, &held.next, fields),
        b"lay_at" => lay_calls::lay_at(out, &mut held.run, &held.next, fields),
        _ => mask_calls::answer(out, held, name, fields),
    }
}
