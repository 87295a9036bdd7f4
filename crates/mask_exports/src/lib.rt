// The calls on masks, on lent slices: numbers in, a number back. Crate beamnettle exports each under its name;
// include/beamnettle.h says what each does in words. Each contract gives the number and all that is lent
// afterwards outright.
#![tactic(auto)]

ghost use Rattle.std.specs.Prelude.{◌≡◌, length};
ghost use Rattle.ink.specs.Lent.{lent};
ghost use Rattle.mask.specs.Calls.{outcome_number, draw_answer, lay_answer, lay_placed_answer};
ghost use Rattle.mask_exports.specs.Calls.{drawing_lent, mask_drawn, ink_drawn, floats_drawn, counters_drawn};
ghost use Rattle.mask_exports.specs.Calls.{laying_lent, mask_laid, ink_laid, placed_lent, mask_laid_placed, ink_laid_placed};

use cells::{Corner, MaskRecord, Size};
use laying::Offset;

pub fn draw(
    mask: &mut [u8],
    ink: &mut [u16],
    width: usize,
    height: usize,
    x: i32,
    y: i32,
    words: &[i32],
    floats: &mut [f32],
    counters: &mut [u64],
) -> u8
    ensures number { result ≡ outcome_number (draw_answer (drawing_lent width height words.now floats.old counters.old) (lent mask.old ink.old)) }
    ensures cells { mask.new ≡ mask_drawn (drawing_lent width height words.now floats.old counters.old) mask.old ink.old }
    ensures ink { ink.new ≡ ink_drawn (drawing_lent width height words.now floats.old counters.old) mask.old ink.old }
    ensures floats { floats.new
        ≡ floats_drawn (drawing_lent width height words.now floats.old counters.old) mask.old ink.old floats.old }
    ensures counters { counters.new
        ≡ counters_drawn (drawing_lent width height words.now floats.old counters.old) mask.old ink.old counters.old }
{
    let size = Size { width, height };
    let corner = Corner { x, y };
    let mask_record = MaskRecord { size, corner };
    boundary::outcome_number(mask::rasterize_into(mask, ink, mask_record, words, floats, counters))
}

pub fn lay(
    mask: &mut [u8],
    ink: &mut [u16],
    width: usize,
    height: usize,
    other: &[u8],
    other_width: usize,
    other_height: usize,
    offset_x: i32,
    offset_y: i32,
) -> u8
    ensures number { result ≡ outcome_number (lay_answer (laying_lent width height other_width other_height offset_x offset_y) (lent mask.old ink.old) (length other.now)) }
    ensures cells { mask.new ≡ mask_laid (laying_lent width height other_width other_height offset_x offset_y) mask.old ink.old other.now }
    ensures ink { ink.new ≡ ink_laid (laying_lent width height other_width other_height offset_x offset_y) mask.old ink.old other.now }
{
    let own_size = Size { width, height };
    let other_size = Size {
        width: other_width,
        height: other_height,
    };
    let offset = Offset {
        x: offset_x,
        y: offset_y,
    };
    boundary::outcome_number(mask::intersect(mask, ink, own_size, other, other_size, offset))
}

pub fn lay_placed(
    mask: &mut [u8],
    ink: &mut [u16],
    width: usize,
    height: usize,
    x: i32,
    y: i32,
    other: &[u8],
    other_width: usize,
    other_height: usize,
    other_x: i32,
    other_y: i32,
) -> u8
    ensures number { result ≡ outcome_number (lay_placed_answer (placed_lent width height x y other_width other_height other_x other_y) (lent mask.old ink.old) (length other.now)) }
    ensures cells { mask.new ≡ mask_laid_placed (placed_lent width height x y other_width other_height other_x other_y) mask.old ink.old other.now }
    ensures ink { ink.new ≡ ink_laid_placed (placed_lent width height x y other_width other_height other_x other_y) mask.old ink.old other.now }
{
    let own = MaskRecord {
        size: Size { width, height },
        corner: Corner { x, y },
    };
    let other_record = MaskRecord {
        size: Size {
            width: other_width,
            height: other_height,
        },
        corner: Corner {
            x: other_x,
            y: other_y,
        },
    };
    boundary::outcome_number(mask::intersect_placed(mask, ink, own, other, other_record))
}
