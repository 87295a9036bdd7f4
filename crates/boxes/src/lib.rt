// A list of boxes: what is refused of it, and the first place where something is asked of its boxes.
// Added to femtovg's calls by document 01, and by document 02, change 10.
//
// `first_asked` is one thin walk over lent boxes, which asks of each what its caller's type says. `first_asked_in` is
// the same walk over lent floats, ten for each box: its callers hold no list of boxes. `first_place` and
// `first_place_in` take a closure for what is asked, where the caller knows that it can be called.
#![tactic(auto)]

ghost use Rattle.std.specs.Prelude.{◌+◌, ◌*◌, ◌≤◌, length, ◌≡◌, Bool};
ghost use Rattle.boxes.specs.First.{Tells, PlaceFits, first_place_of};
ghost use Rattle.boxes.specs.Lent.{frame_at, box_at, boxes_in};
ghost use Rattle.shape.specs.declared.RoundedBox.{RoundedBox};

use fault::Fault;
use geometry::Transform2D;
use shape::RoundedBox;

// The most boxes of a list.
pub const MOST_BOXES: usize = 4096;

// What is asked of each box of a list.
pub trait Ask {
    ghost asks: { Self → RoundedBox → Bool };

    fn holds(&self, b: RoundedBox) -> bool
        ensures { result ≡ asks self.now b };
}

// The first place of a list where the ask holds, counted from 0, or the list's first fault: a fault behind a place
// refuses the list.
pub fn first_asked<A: Ask>(boxes: &[RoundedBox], ask: &A) -> Result<Option<u16>, Fault>
    ensures first { result ≡ first_place_of boxes.now (A.asks ask.now) }
    ensures fits { PlaceFits result }
{
    if MOST_BOXES < boxes.len() {
        return Err(Fault::TooManyBoxes);
    }
    let mut found = None;
    for (i, b) in boxes.iter().enumerate() {
        b.check()?;
        if found.is_none() && ask.holds(*b) {
            found = Some(i as u16);
        }
    }
    Ok(found)
}

// The first place of a list whose box is asked for, or the list's first fault, where what is asked is a closure.
pub fn first_place<F: Fn(RoundedBox) -> bool>(
    boxes: &[RoundedBox],
    asks: F,
) -> Result<Option<u16>, Fault>
    requires { F.IsAlwaysCallable asks }
    ensures first { (test : RoundedBox → Bool) → Tells (F.post asks) test → result ≡ first_place_of boxes.now test }
    ensures fits { PlaceFits result }
{
    if boxes.len() > MOST_BOXES {
        return Err(Fault::TooManyBoxes);
    }
    let mut found = None;
    for (place, b) in boxes.iter().enumerate() {
        b.check()?;
        if found.is_none() && asks(*b) {
            found = Some(place as u16);
        }
    }
    Ok(found)
}

// ---- boxes as lent floats

pub fn frame_at(floats: &[f32], at: usize) -> Transform2D
    requires { at + 6 ≤ length floats.now }
    ensures { result ≡ frame_at floats.now at }
{
    Transform2D {
        a: floats[at],
        b: floats[at + 1],
        c: floats[at + 2],
        d: floats[at + 3],
        x: floats[at + 4],
        y: floats[at + 5],
    }
}

pub fn box_at(floats: &[f32], at: usize) -> RoundedBox
    requires { at + 10 ≤ length floats.now }
    ensures { result ≡ box_at floats.now at }
{
    let frame = frame_at(floats, at);
    RoundedBox {
        frame,
        ex: floats[at + 6],
        ey: floats[at + 7],
        rx: floats[at + 8],
        ry: floats[at + 9],
    }
}

// `first_asked` of the n boxes that the floats begin with.
#[tactic(auto, using(crate::proofs::Lent::left_cons, crate::proofs::Lent::left_length))]
pub fn first_asked_in<A: Ask>(floats: &[f32], n: usize, ask: &A) -> Result<Option<u16>, Fault>
    requires { n * 10 ≤ length floats.now }
    ensures first { result ≡ first_place_of (boxes_in floats.now n) (A.asks ask.now) }
    ensures fits { PlaceFits result }
{
    if MOST_BOXES < n {
        return Err(Fault::TooManyBoxes);
    }
    let mut found = None;
    for i in 0..n {
        let b = box_at(floats, i * 10);
        b.check()?;
        if found.is_none() && ask.holds(b) {
            found = Some(i as u16);
        }
    }
    Ok(found)
}

// `first_place` of the n boxes that the floats begin with.
#[tactic(auto, using(crate::proofs::Lent::left_cons, crate::proofs::Lent::left_length))]
pub fn first_place_in<F: Fn(RoundedBox) -> bool>(
    floats: &[f32],
    n: usize,
    asks: F,
) -> Result<Option<u16>, Fault>
    requires lent { n * 10 ≤ length floats.now }
    requires callable { F.IsAlwaysCallable asks }
    ensures first { (test : RoundedBox → Bool) → Tells (F.post asks) test
        → result ≡ first_place_of (boxes_in floats.now n) test }
    ensures fits { PlaceFits result }
{
    if n > MOST_BOXES {
        return Err(Fault::TooManyBoxes);
    }
    let mut found = None;
    for place in 0..n {
        let b = box_at(floats, place * 10);
        b.check()?;
        if found.is_none() && asks(b) {
            found = Some(place as u16);
        }
    }
    Ok(found)
}

#[cfg(test)]
mod tests;
