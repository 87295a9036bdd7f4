// The upright rect that an outline fills: `upright_rect` of femtovg's clip/shape.rs.
//
// The call refuses as document 01 says and else answers what the Rust does, by a definition of specs/.
#![tactic(auto)]

ghost use Rattle.std.specs.Prelude.{◌≡◌};
ghost use Rattle.upright_rect.specs.UprightRect.{upright_only_of, upright_rect_of};
ghost use Rattle.upright_rect.specs.Calls.{upright_rect_call};

use fault::Fault;
use fill::RectFill;
use geometry::Transform2D;
use outline::Outline;
use shape::RoundedBox;

// The box, where it is an upright rect.
#[tactic(auto, unfolding(crate::specs::UprightRect::upright_only_of))]
fn upright_only(b: RoundedBox) -> Option<RoundedBox>
    ensures { result ≡ upright_only_of b }
{
    if fill::upright(b) && sides::square(b) {
        return Some(b);
    }
    None
}

#[tactic(auto, unfolding(crate::specs::UprightRect::upright_rect_of))]
fn upright_rect_unchecked(outline: Outline, transform: Transform2D) -> Option<RoundedBox>
    ensures { result ≡ upright_rect_of outline.entry.verbs.now outline.entry.positions.now transform }
{
    if outline.verbs.len() > RectFill::MAX_FILL_VERBS {
        return None;
    }
    let b = fit::fit_unchecked(outline)?;
    upright_only(b.transformed_unchecked(transform))
}

// The upright rect that an outline fills under a frame, if it is one.
// Ruled out: a fault of the frame told before one of the outline; no box for nine verbs told before a
// fault.
pub fn upright_rect(
    verbs: &[u8],
    positions: &[f32],
    transform: Transform2D,
) -> Result<Option<RoundedBox>, Fault>
    ensures { result ≡ upright_rect_call verbs.now positions.now transform }
{
    let outline = Outline::checked(verbs, positions)?;
    shape::frame_check(transform)?;
    Ok(upright_rect_unchecked(outline, transform))
}
