// What an answer hands over at the C boundary: its number, and its floats, written to what is lent.
// No function here is a call of the kiosk's: crate beamnettle exports those.
#![tactic(auto)]

ghost use Rattle.std.specs.Prelude.{◌≡◌, ◌≤◌, ℕ, length};
ghost use Rattle.mask.specs.Calls.{outcome_number};
ghost use Rattle.boundary.specs.Answers.{Handed, after, whole_box, whole_coverage, whole_bounds, whole_distance, whole_outline, whole_cut, rect_fill_handed, optional, unless_refused};
ghost use Rattle.boundary.specs.Answers.{both_box_handed, both_coverage_handed, test_number, touch_number, inside_number};
ghost use Rattle.boundary.specs.Answers.{write_number, read_number, size_after, corner_after};

use cells::MaskRecord;
use clip_coverage::ClipCoverage;
use fault::Fault;
use fill::RectFill;
use geometry::Bounds;
use inside::Inside;
use rounded::Fitted;
use shape::RoundedBox;

const DONE: u8 = 0;

const NONE: u8 = 32;

const YES: u8 = 33;

const NO: u8 = 34;

const NO_FRAME: u32 = 35;

const SHARED: u8 = 36;

const COVERED: u8 = 37;

const CUT: u8 = 38;

// What is counted, a place or a length, is answered above all other numbers.
const FIRST_COUNTED: u32 = 256;

// ---- answers, handed over

// What is handed over at the C boundary: a number, and floats, written to the front of what is lent.
pub trait HandOver {
    // The number and the floats of a value.
    ghost handed: { Self → Handed };

    // The most floats that any value takes.
    ghost most: { ℕ };

    fn hand_over(self, out: &mut [f32]) -> u8
        requires { most ≤ length out.old }
        ensures number { result ≡ (handed self).number }
        ensures out_after { out.new ≡ after (handed self) out.old };
}

impl HandOver for RoundedBox {
    ghost handed = { whole_box };

    ghost most = { 10 };

    fn hand_over(self, out: &mut [f32]) -> u8 {
        lent_floats::put_box(out, self);
        DONE
    }
}

impl HandOver for ClipCoverage {
    ghost handed = { whole_coverage };

    ghost most = { 11 };

    fn hand_over(self, out: &mut [f32]) -> u8 {
        lent_floats::put_coverage(out, self);
        DONE
    }
}

impl HandOver for Bounds {
    ghost handed = { whole_bounds };

    ghost most = { 4 };

    fn hand_over(self, out: &mut [f32]) -> u8 {
        lent_floats::put_bounds(out, self);
        DONE
    }
}

// A distance.
impl HandOver for f32 {
    ghost handed = { whole_distance };

    ghost most = { 1 };

    fn hand_over(self, out: &mut [f32]) -> u8 {
        lent_floats::put(out, &[self]);
        DONE
    }
}

impl HandOver for RectFill {
    ghost handed = { rect_fill_handed };

    ghost most = { 10 };

    fn hand_over(self, out: &mut [f32]) -> u8 {
        match self {
            RectFill::Shared(b) => {
                lent_floats::put_box(out, b);
                SHARED
            }
            RectFill::Covered(b) => {
                lent_floats::put_box(out, b);
                COVERED
            }
        }
    }
}

// A box and its strays.
impl HandOver for (RoundedBox, f32) {
    ghost handed = { whole_outline };

    ghost most = { 11 };

    fn hand_over(self, out: &mut [f32]) -> u8 {
        let (b, strays) = self;
        lent_floats::put_outline(out, b, strays);
        DONE
    }
}

impl HandOver for Fitted {
    ghost handed = { whole_cut };

    ghost most = { 21 };

    fn hand_over(self, out: &mut [f32]) -> u8 {
        let shape = self.shape;
        match self.cut {
            Some(cut) => {
                lent_floats::put_cut_outline(out, shape, self.strays, cut);
                CUT
            }
            None => {
                lent_floats::put_outline(out, shape, self.strays);
                DONE
            }
        }
    }
}

impl<T: HandOver> HandOver for Option<T> {
    ghost handed = { optional T.handed };

    ghost most = { T.most };

    fn hand_over(self, out: &mut [f32]) -> u8 {
        match self {
            Some(value) => value.hand_over(out),
            None => NONE,
        }
    }
}

// A refusal leaves what is lent as it was.
impl<T: HandOver> HandOver for Result<T, Fault> {
    ghost handed = { unless_refused T.handed };

    ghost most = { T.most };

    fn hand_over(self, out: &mut [f32]) -> u8 {
        match self {
            Ok(value) => value.hand_over(out),
            Err(fault) => fault.number(),
        }
    }
}

// A box and its coverage, written apart.
pub fn hand_both(
    answer: Result<Option<(RoundedBox, ClipCoverage)>, Fault>,
    out: &mut [f32],
    coverage: &mut [f32],
) -> u8
    requires in_bounds { 10 ≤ length out.old }
    requires in_bounds_2 { 11 ≤ length coverage.old }
    ensures value { result ≡ (both_box_handed answer).number }
    ensures out_after { out.new ≡ after (both_box_handed answer) out.old }
    ensures coverage_after { coverage.new ≡ after (both_coverage_handed answer) coverage.old }
{
    match answer {
        Ok(Some((b, k))) => {
            lent_floats::put_box(out, b);
            lent_floats::put_coverage(coverage, k);
            DONE
        }
        Ok(None) => NONE,
        Err(fault) => fault.number(),
    }
}

// ---- answers without floats

pub fn outcome_number(outcome: Result<(), Fault>) -> u8
    ensures { result ≡ outcome_number outcome }
{
    match outcome {
        Ok(()) => DONE,
        Err(fault) => fault.number(),
    }
}

pub fn test_number(answer: Result<bool, Fault>) -> u8
    ensures { result ≡ test_number answer }
{
    match answer {
        Ok(true) => YES,
        Ok(false) => NO,
        Err(fault) => fault.number(),
    }
}

pub fn touch_number(answer: Result<Option<u16>, Fault>) -> u32
    ensures { result ≡ touch_number answer }
{
    match answer {
        Ok(Some(k)) => FIRST_COUNTED + u32::from(k),
        Ok(None) => NO_FRAME,
        Err(fault) => u32::from(fault.number()),
    }
}

pub fn inside_number(answer: Result<Option<Inside>, Fault>) -> u32
    ensures { result ≡ inside_number answer }
{
    match answer {
        Ok(Some(Inside::All)) => u32::from(YES),
        Ok(Some(Inside::Outside(k))) => FIRST_COUNTED + u32::from(k),
        Ok(None) => u32::from(NONE),
        Err(fault) => u32::from(fault.number()),
    }
}

// ---- files

pub fn write_number(answer: Result<usize, Fault>) -> u32
    requires { write_number answer ≤ 4294967295 }
    ensures { result ≡ write_number answer }
{
    match answer {
        Ok(length) => FIRST_COUNTED + length as u32,
        Err(fault) => u32::from(fault.number()),
    }
}

pub fn hand_record(answer: Result<MaskRecord, Fault>, size: &mut [usize], corner: &mut [i32]) -> u8
    requires { (2 ≤ length size.old) × (2 ≤ length corner.old) }
    ensures value { result ≡ read_number answer }
    ensures size_after { size.new ≡ size_after answer size.old }
    ensures corner_after { corner.new ≡ corner_after answer corner.old }
{
    match answer {
        Ok(read) => {
            size[0] = read.size.width;
            size[1] = read.size.height;
            let x = read.corner.x;
            let y = read.corner.y;
            corner[0] = x;
            corner[1] = y;
            DONE
        }
        Err(fault) => fault.number(),
    }
}
