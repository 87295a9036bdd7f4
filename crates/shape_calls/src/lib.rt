// The calls on outlines, boxes, lists of boxes and coverages, by their names.
#![tactic(auto)]

use fields::Fields;
use std::io::Write;
use writing::Failure;

// Answers the call that has a name, with the fields behind it.
pub fn answer(out: &mut impl Write, name: &[u8], mut fields: Fields) -> Result<(), Failure> {
    match name {
        b"transformed" => box_calls::transformed(out, fields.last_floats()?),
        b"bounds" => box_calls::bounds(out, fields.last_floats()?),
        b"coverage" => box_calls::coverage(out, fields.last_floats()?),
        b"intersection" => box_calls::intersection(out, fields.last_floats()?),
        b"rect_intersection" => box_calls::rect_intersection(out, fields.last_floats()?),
        b"parallel" => box_calls::parallel(out, fields.last_floats()?),
        b"with_scissor" => window_calls::with_scissor(out, fields.last_floats()?),
        b"trimmed_scissor" => window_calls::trimmed_scissor(out, fields.last_floats()?),
        b"rect_fill" => window_calls::rect_fill(out, fields.last_floats()?),
        b"contains" => window_calls::contains(out, fields.floats()?, fields.last_floats()?),
        b"distance" => window_calls::distance(out, fields.floats()?, fields.last_floats()?),
        b"reach" => window_calls::reach(out, fields.last_floats()?),
        b"holds" => window_calls::holds(out, fields.floats()?, fields.last_floats()?),
        b"fit" => outline_calls::fit(out, fields),
        b"fit_outline" => outline_calls::fit_outline(out, fields),
        b"fit_with_cut" => outline_calls::fit_with_cut(out, fields),
        b"upright_rect" => outline_calls::upright_rect(out, fields),
        _ => list_calls::answer(out, name, fields),
    }
}
