// The calls on a mask buffer and its ink, by their names.
#![tactic(auto)]

use buffers::Held;
use fields::Fields;
use std::io::Write;
use writing::Failure;

// Answers the call that has a name, with the fields behind it: the first is the buffer's.
pub fn answer(
    out: &mut impl Write,
    held: &mut Held,
    name: &[u8],
    mut fields: Fields,
) -> Result<(), Failure> {
    match name {
        b"buf" => buffers::buf(out, held.named(&mut fields)?, fields),
        b"bufn" => buffers::bufn(out, held.named(&mut fields)?, fields),
        b"ink" => buffers::ink(out, held.named(&mut fields)?, fields),
        b"show" => buffers::show(out, held.named(&mut fields)?.mask.as_slice(), fields),
        b"show_ink" => buffers::show_ink(out, held.named(&mut fields)?.ink.as_slice(), fields),
        b"picture" => buffers::picture(out, held.named(&mut fields)?.mask.as_slice(), fields),
        b"write_pgm" => pgm_calls::write_pgm(out, held.named(&mut fields)?.mask.as_slice(), fields),
        b"read_pgm" => pgm_calls::read_pgm(out, held.named(&mut fields)?, fields),
        b"draw" => draw_calls::draw(out, held.named(&mut fields)?, fields),
        b"draw_at" => draw_calls::draw_at(out, held.named(&mut fields)?, fields),
        _ => shape_calls::answer(out, name, fields),
    }
}
