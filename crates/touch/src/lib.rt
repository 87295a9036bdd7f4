// Touch: which frame of a list lies under a point. Added to femtovg's calls by document 01.
//
// `touch` asks each of the lent boxes whether the point touches it (crate boxes walks them), and then checks fringe and
// point. `touch_floats` is the same over lent floats.
#![tactic(auto)]

ghost use Rattle.std.specs.Prelude.{◌*◌, ◌≤◌, length, ◌≡◌};
ghost use Rattle.boxes.specs.Lent.{boxes_in};
ghost use Rattle.covering.specs.Touches.{touches_of};
ghost use Rattle.touch.specs.Finish.{finish_of};
ghost use Rattle.touch.specs.Touch.{point_of, touch_call};

use boxes::Ask;
use fault::Fault;
use geometry::Position;
use shape::RoundedBox;

// Whether a point touches a box.
#[derive(Clone, Copy)]
struct Touching {
    fringe: f32,
    p: Position,
}

impl Ask for Touching {
    ghost asks = { λ t b. touches_of b t.fringe t.p };

    fn holds(&self, b: RoundedBox) -> bool {
        covering::touches_unchecked(b, self.fringe, self.p)
    }
}

// The answer, where `found` is what the walk found: fringe and point are refused after the boxes, and the place has 16
// bits.
fn finish(found: Result<Option<u16>, Fault>, fringe: f32, p: Position) -> Result<Option<u16>, Fault>
    ensures { result ≡ finish_of found fringe p }
{
    let place = found?;
    shape::fringe_check(fringe)?;
    shape::point_check(p)?;
    Ok(place)
}

// The lowest place whose box the point touches, counted from 0: a box whose coverage exists and whose distance at the
// point is at most 0.5, in fringe widths. Ruled out: a later box of those touched; a place named where a
// box after it is at fault; 'no frame' untried; a walk that ends at 256 boxes; a place modulo 256.
pub fn touch(boxes: &[RoundedBox], fringe: f32, x: f32, y: f32) -> Result<Option<u16>, Fault>
    ensures { result ≡ touch_call boxes.now fringe (point_of x y) }
{
    let p = Position { x, y };
    let found = boxes::first_asked(boxes, &Touching { fringe, p });
    finish(found, fringe, p)
}

// The same for the n boxes that the floats begin with, ten for each: its callers hold no list of boxes,
// and need no walk of their own.
pub fn touch_floats(
    floats: &[f32],
    n: usize,
    fringe: f32,
    x: f32,
    y: f32,
) -> Result<Option<u16>, Fault>
    requires { n * 10 ≤ length floats.now }
    ensures { result ≡ touch_call (boxes_in floats.now n) fringe (point_of x y) }
{
    let p = Position { x, y };
    let found = boxes::first_asked_in(floats, n, &Touching { fringe, p });
    finish(found, fringe, p)
}
