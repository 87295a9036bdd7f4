// The calls on scissors, fills and device bounds on lent slices: numbers in, a number back, an answer's
// floats written to what is lent for them. Crate beamnettle exports each under its name;
// include/beamnettle.h says what each does in words. Each contract gives the number and all that is lent
// afterwards outright.
#![tactic(auto)]

ghost use Rattle.std.specs.Prelude.{◌≡◌};
ghost use Rattle.boundary.specs.Answers.{after, box_handed, both_box_handed, both_coverage_handed, fill_handed, test_number};
ghost use Rattle.window_exports.specs.Calls.{with_scissor_lent, trimmed_scissor_lent, rect_fill_lent, upright_rect_lent, reach_lent, holds_lent};

use boundary::HandOver;
use fault::Fault;
use lent_floats::{BOUNDS, BOX, COVERAGE, FRAME};

// Fewer are lent than the call takes.
const TOO_SHORT: Fault = Fault::BufferTooShort;

pub fn with_scissor(
    clip: &[f32],
    scissor: &[f32],
    fringe: f32,
    out: &mut [f32],
    coverage: &mut [f32],
) -> u8
    ensures value { result ≡ (both_box_handed (with_scissor_lent clip.now scissor.now fringe out.old coverage.old)).number }
    ensures out_after { out.new ≡ after (both_box_handed (with_scissor_lent clip.now scissor.now fringe out.old coverage.old)) out.old }
    ensures coverage_after { coverage.new ≡ after (both_coverage_handed (with_scissor_lent clip.now scissor.now fringe out.old coverage.old)) coverage.old }
{
    if clip.len() < BOX || scissor.len() < BOX || out.len() < BOX || coverage.len() < COVERAGE {
        return TOO_SHORT.number();
    }
    let answer = scissor::with_scissor(boxes::box_at(clip, 0), boxes::box_at(scissor, 0), fringe);
    boundary::hand_both(answer, out, coverage)
}

pub fn trimmed_scissor(clip: &[f32], scissor: &[f32], fringe: f32, out: &mut [f32]) -> u8
    ensures value { result ≡ (box_handed (trimmed_scissor_lent clip.now scissor.now fringe out.old)).number }
    ensures out_after { out.new ≡ after (box_handed (trimmed_scissor_lent clip.now scissor.now fringe out.old)) out.old }
{
    if clip.len() < BOX || scissor.len() < BOX || out.len() < BOX {
        return TOO_SHORT.number();
    }
    scissor::trimmed_scissor(boxes::box_at(clip, 0), boxes::box_at(scissor, 0), fringe).hand_over(
        out,
    )
}

pub fn rect_fill(clip: &[f32], fill: &[f32], fringe: f32, out: &mut [f32]) -> u8
    ensures value { result ≡ (fill_handed (rect_fill_lent clip.now fill.now fringe out.old)).number }
    ensures out_after { out.new ≡ after (fill_handed (rect_fill_lent clip.now fill.now fringe out.old)) out.old }
{
    if clip.len() < BOX || fill.len() < BOX || out.len() < BOX {
        return TOO_SHORT.number();
    }
    fill::rect_fill(boxes::box_at(clip, 0), boxes::box_at(fill, 0), fringe).hand_over(out)
}

pub fn upright_rect(verbs: &[u8], positions: &[f32], frame: &[f32], out: &mut [f32]) -> u8
    ensures value { result ≡ (box_handed (upright_rect_lent verbs.now positions.now frame.now out.old)).number }
    ensures out_after { out.new ≡ after (box_handed (upright_rect_lent verbs.now positions.now frame.now out.old)) out.old }
{
    if frame.len() < FRAME || out.len() < BOX {
        return TOO_SHORT.number();
    }
    upright_rect::upright_rect(verbs, positions, boxes::frame_at(frame, 0)).hand_over(out)
}

pub fn reach(k: &[f32], out: &mut [f32]) -> u8
    ensures value { result ≡ (reach_lent k.now out.old).number }
    ensures out_after { out.new ≡ after (reach_lent k.now out.old) out.old }
{
    if k.len() < COVERAGE || out.len() < BOUNDS {
        return TOO_SHORT.number();
    }
    device_bounds::reach(lent_floats::coverage_in(k)).hand_over(out)
}

pub fn holds(k: &[f32], bounds: &[f32]) -> u8
    ensures { result ≡ test_number (holds_lent k.now bounds.now) }
{
    if k.len() < COVERAGE || bounds.len() < BOUNDS {
        return TOO_SHORT.number();
    }
    let held = device_bounds::holds(lent_floats::coverage_in(k), lent_floats::bounds_in(bounds));
    boundary::test_number(Ok(held))
}
