// The calls on outlines on lent slices: numbers in, a number back, an answer's floats written to what is
// lent for them. Crate beamnettle exports each under its name; include/beamnettle.h says what each does in
// words. (`upright_rect`, which takes a frame too: crate window_exports.) Each contract gives the number and
// all that is lent afterwards outright.
#![tactic(auto)]

ghost use Rattle.std.specs.Prelude.{◌≡◌};
ghost use Rattle.boundary.specs.Answers.{after, box_handed, outline_handed, cut_handed};
ghost use Rattle.outline_exports.specs.Calls.{fit_lent, fit_outline_lent, fit_with_cut_lent};

use boundary::HandOver;
use fault::Fault;
use lent_floats::{BOX, CUT_OUTLINE, OUTLINE};

// Fewer are lent than the call takes.
const TOO_SHORT: Fault = Fault::BufferTooShort;

pub fn fit(verbs: &[u8], positions: &[f32], out: &mut [f32]) -> u8
    ensures value { result ≡ (box_handed (fit_lent verbs.now positions.now out.old)).number }
    ensures out_after { out.new ≡ after (box_handed (fit_lent verbs.now positions.now out.old)) out.old }
{
    if out.len() < BOX {
        return TOO_SHORT.number();
    }
    fit::fit(verbs, positions).hand_over(out)
}

pub fn fit_outline(verbs: &[u8], positions: &[f32], out: &mut [f32]) -> u8
    ensures value { result ≡ (outline_handed (fit_outline_lent verbs.now positions.now out.old)).number }
    ensures out_after { out.new ≡ after (outline_handed (fit_outline_lent verbs.now positions.now out.old)) out.old }
{
    if out.len() < OUTLINE {
        return TOO_SHORT.number();
    }
    fit::fit_outline(verbs, positions).hand_over(out)
}

// A whole outline takes 11 of the floats: 21 are asked for all the same, before it is known.
pub fn fit_with_cut(verbs: &[u8], positions: &[f32], out: &mut [f32]) -> u8
    ensures value { result ≡ (cut_handed (fit_with_cut_lent verbs.now positions.now out.old)).number }
    ensures out_after { out.new ≡ after (cut_handed (fit_with_cut_lent verbs.now positions.now out.old)) out.old }
{
    if out.len() < CUT_OUTLINE {
        return TOO_SHORT.number();
    }
    fit::fit_with_cut(verbs, positions).hand_over(out)
}
