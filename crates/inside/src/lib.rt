// Inside: whether every box of a list lies inside a safe area. Added to femtovg's calls by document 02,
// change 10.
//
// `all_inside` asks each of the lent boxes whether it lies outside (crate boxes walks them), and then checks the safe area
// and the fringe, as `touch::touch` does. `inside_floats` is the same over lent floats.
#![tactic(auto)]

ghost use Rattle.std.specs.Prelude.{◌≡◌, ◌*◌, ◌≤◌, length};
ghost use Rattle.boxes.specs.Lent.{boxes_in};
ghost use Rattle.inside.specs.Finish.{lies_outside_of, inside_of, finish_of};
ghost use Rattle.inside.specs.Inside.{inside_call};

use boxes::Ask;
use clip_coverage::ClipCoverage;
use fault::Fault;
use shape::RoundedBox;

// What is said of a list's boxes.
#[derive(Clone, Copy, Debug, PartialEq, Eq)]
pub enum Inside {
    All,
    // the lowest place whose box the safe area does not contain, counted from 0
    Outside(u16),
}

// Whether the safe area's coverage does not contain a box. Where there is no coverage, no box lies outside: the boxes
// are still checked.
fn lies_outside(area: Option<ClipCoverage>, b: RoundedBox) -> bool
    ensures { result ≡ lies_outside_of area b }
{
    match area {
        Some(k) => !k.contains_unchecked(b),
        None => false,
    }
}

// Whether a box lies outside a safe area.
#[derive(Clone, Copy)]
struct Outlying {
    area: Option<ClipCoverage>,
}

impl Ask for Outlying {
    ghost asks = { λ o b. lies_outside_of o.area b };

    fn holds(&self, b: RoundedBox) -> bool {
        lies_outside(self.area, b)
    }
}

// The place of the first box outside, as 16 bits, or all inside.
fn said_of(place: Option<u16>) -> Inside
    ensures { result ≡ inside_of place }
{
    match place {
        Some(k) => Inside::Outside(k),
        None => Inside::All,
    }
}

// The answer, where `found` is what the walk found: safe area and fringe are refused after the boxes, and there is
// none without a coverage.
fn finish(
    found: Result<Option<u16>, Fault>,
    area: Option<ClipCoverage>,
    safe: RoundedBox,
    fringe: f32,
) -> Result<Option<Inside>, Fault>
    ensures { result ≡ finish_of found area safe fringe }
{
    let place = found?;
    safe.check()?;
    shape::fringe_check(fringe)?;
    if area.is_none() {
        return Ok(None);
    }
    Ok(Some(said_of(place)))
}

// Whether the safe area's coverage at the fringe contains every box, or the lowest place of a box that it
// does not contain; none where there is no coverage. Ruled out: all inside untried; an empty list inside where there is
// no coverage; a later place of those outside; a place named where a box after it is at fault; the safe area refused
// before a box of the list.
pub fn all_inside(
    boxes: &[RoundedBox],
    safe: RoundedBox,
    fringe: f32,
) -> Result<Option<Inside>, Fault>
    ensures { result ≡ inside_call boxes.now safe fringe }
{
    let area = covering::coverage_unchecked(safe, fringe);
    let found = boxes::first_asked(boxes, &Outlying { area });
    finish(found, area, safe, fringe)
}

// The same for the n boxes that the floats begin with, ten for each: its callers hold no list of boxes,
// and need no walk of their own.
pub fn inside_floats(
    floats: &[f32],
    n: usize,
    safe: RoundedBox,
    fringe: f32,
) -> Result<Option<Inside>, Fault>
    requires { n * 10 ≤ length floats.now }
    ensures { result ≡ inside_call (boxes_in floats.now n) safe fringe }
{
    let area = covering::coverage_unchecked(safe, fringe);
    let found = boxes::first_asked_in(floats, n, &Outlying { area });
    finish(found, area, safe, fringe)
}
