// The kiosk's C library: the documents' calls over numbers and lent slices. include/beamnettle.h says
// what each does in words; each contract gives its number and all that is lent afterwards outright.
#![tactic(auto)]

ghost use Rattle.std.specs.Prelude.{◌≡◌, length};
ghost use Rattle.ink.specs.Lent.{lent};
ghost use Rattle.mask.specs.Calls.{outcome_number, draw_answer, lay_answer, lay_placed_answer};
ghost use Rattle.touch.specs.Touch.{point_of, touch_call};
ghost use Rattle.boundary.specs.Answers.{after, whole_box_handed, box_handed, coverage_handed, bounds_handed, distance_handed, test_number, touch_number, inside_number};
ghost use Rattle.boundary.specs.Answers.{both_box_handed, both_coverage_handed, fill_handed, outline_handed, cut_handed, write_number, read_number, size_after, corner_after};
ghost use Rattle.mask_exports.specs.Calls.{drawing_lent, mask_drawn, ink_drawn, floats_drawn, counters_drawn};
ghost use Rattle.mask_exports.specs.Calls.{laying_lent, mask_laid, ink_laid, placed_lent, mask_laid_placed, ink_laid_placed};
ghost use Rattle.pgm_exports.specs.Calls.{write_lent, file_written, read_lent, mask_read, ink_read};
ghost use Rattle.outline_exports.specs.Calls.{fit_lent, fit_outline_lent, fit_with_cut_lent};
ghost use Rattle.box_exports.specs.Calls.{transformed_lent, intersection_lent, rect_intersection_lent, coverage_lent};
ghost use Rattle.box_exports.specs.Calls.{bounds_lent, distance_lent, parallel_lent, contains_lent, inside_lent};
ghost use Rattle.window_exports.specs.Calls.{with_scissor_lent, trimmed_scissor_lent, rect_fill_lent, upright_rect_lent, reach_lent, holds_lent};

use fault::Fault;
use lent_floats::BOX;
use shape::RoundedBox;

// ---- masks: crate mask_exports has the calls

#[unsafe(no_mangle)]
pub extern "C" fn beamnettle_draw(
    mask: &mut [u8],
    ink: &mut [u16],
    width: usize,
    height: usize,
    x: i32,
    y: i32,
    words: &[i32],
    floats: &mut [f32],
    counters: &mut [u64],
) -> u8
    ensures number { result ≡ outcome_number (draw_answer (drawing_lent width height words.now floats.old counters.old) (lent mask.old ink.old)) }
    ensures cells { mask.new ≡ mask_drawn (drawing_lent width height words.now floats.old counters.old) mask.old ink.old }
    ensures ink { ink.new ≡ ink_drawn (drawing_lent width height words.now floats.old counters.old) mask.old ink.old }
    ensures floats { floats.new
        ≡ floats_drawn (drawing_lent width height words.now floats.old counters.old) mask.old ink.old floats.old }
    ensures counters { counters.new
        ≡ counters_drawn (drawing_lent width height words.now floats.old counters.old) mask.old ink.old counters.old }
{
    mask_exports::draw(mask, ink, width, height, x, y, words, floats, counters)
}

#[unsafe(no_mangle)]
pub extern "C" fn beamnettle_lay(
    mask: &mut [u8],
    ink: &mut [u16],
    width: usize,
    height: usize,
    other: &[u8],
    other_width: usize,
    other_height: usize,
    offset_x: i32,
    offset_y: i32,
) -> u8
    ensures number { result ≡ outcome_number (lay_answer (laying_lent width height other_width other_height offset_x offset_y) (lent mask.old ink.old) (length other.now)) }
    ensures cells { mask.new ≡ mask_laid (laying_lent width height other_width other_height offset_x offset_y) mask.old ink.old other.now }
    ensures ink { ink.new ≡ ink_laid (laying_lent width height other_width other_height offset_x offset_y) mask.old ink.old other.now }
{
    mask_exports::lay(
        mask,
        ink,
        width,
        height,
        other,
        other_width,
        other_height,
        offset_x,
        offset_y,
    )
}

#[unsafe(no_mangle)]
pub extern "C" fn beamnettle_lay_placed(
    mask: &mut [u8],
    ink: &mut [u16],
    width: usize,
    height: usize,
    x: i32,
    y: i32,
    other: &[u8],
    other_width: usize,
    other_height: usize,
    other_x: i32,
    other_y: i32,
) -> u8
    ensures number { result ≡ outcome_number (lay_placed_answer (placed_lent width height x y other_width other_height other_x other_y) (lent mask.old ink.old) (length other.now)) }
    ensures cells { mask.new ≡ mask_laid_placed (placed_lent width height x y other_width other_height other_x other_y) mask.old ink.old other.now }
    ensures ink { ink.new ≡ ink_laid_placed (placed_lent width height x y other_width other_height other_x other_y) mask.old ink.old other.now }
{
    mask_exports::lay_placed(
        mask,
        ink,
        width,
        height,
        x,
        y,
        other,
        other_width,
        other_height,
        other_x,
        other_y,
    )
}

// ---- masks as files: crate pgm_exports has the calls

#[unsafe(no_mangle)]
pub extern "C" fn beamnettle_write_pgm(
    mask: &[u8],
    width: usize,
    height: usize,
    file: &mut [u8],
) -> u32
    ensures number { result ≡ write_number (write_lent width height mask.now file.old) }
    ensures file { file.new ≡ file_written width height mask.now file.old }
{
    pgm_exports::write_pgm(mask, width, height, file)
}

#[unsafe(no_mangle)]
pub extern "C" fn beamnettle_read_pgm(
    file: &[u8],
    mask: &mut [u8],
    ink: &mut [u16],
    size: &mut [usize],
    corner: &mut [i32],
) -> u8
    ensures number { result ≡ read_number (read_lent file.now (lent mask.old ink.old) (length size.old) (length corner.old)) }
    ensures cells { mask.new
        ≡ mask_read file.now mask.old ink.old (length size.old) (length corner.old) }
    ensures ink { ink.new
        ≡ ink_read file.now mask.old ink.old (length size.old) (length corner.old) }
    ensures size { size.new
        ≡ size_after (read_lent file.now (lent mask.old ink.old) (length size.old) (length corner.old)) size.old }
    ensures corner { corner.new
        ≡ corner_after (read_lent file.now (lent mask.old ink.old) (length size.old) (length corner.old)) corner.old }
{
    pgm_exports::read_pgm(file, mask, ink, size, corner)
}

// ---- outlines: crate outline_exports has the calls

#[unsafe(no_mangle)]
pub extern "C" fn beamnettle_fit(verbs: &[u8], positions: &[f32], out: &mut [f32]) -> u8
    ensures value { result ≡ (box_handed (fit_lent verbs.now positions.now out.old)).number }
    ensures out_after { out.new ≡ after (box_handed (fit_lent verbs.now positions.now out.old)) out.old }
{
    outline_exports::fit(verbs, positions, out)
}

#[unsafe(no_mangle)]
pub extern "C" fn beamnettle_fit_outline(verbs: &[u8], positions: &[f32], out: &mut [f32]) -> u8
    ensures value { result ≡ (outline_handed (fit_outline_lent verbs.now positions.now out.old)).number }
    ensures out_after { out.new ≡ after (outline_handed (fit_outline_lent verbs.now positions.now out.old)) out.old }
{
    outline_exports::fit_outline(verbs, positions, out)
}

#[unsafe(no_mangle)]
pub extern "C" fn beamnettle_fit_with_cut(verbs: &[u8], positions: &[f32], out: &mut [f32]) -> u8
    ensures value { result ≡ (cut_handed (fit_with_cut_lent verbs.now positions.now out.old)).number }
    ensures out_after { out.new ≡ after (cut_handed (fit_with_cut_lent verbs.now positions.now out.old)) out.old }
{
    outline_exports::fit_with_cut(verbs, positions, out)
}

// ---- boxes: crate box_exports has the calls

#[unsafe(no_mangle)]
pub extern "C" fn beamnettle_transformed(b: &[f32], frame: &[f32], out: &mut [f32]) -> u8
    ensures value { result ≡ (whole_box_handed (transformed_lent b.now frame.now out.old)).number }
    ensures out_after { out.new ≡ after (whole_box_handed (transformed_lent b.now frame.now out.old)) out.old }
{
    box_exports::transformed(b, frame, out)
}

#[unsafe(no_mangle)]
pub extern "C" fn beamnettle_intersection(
    one: &[f32],
    two: &[f32],
    fringe: f32,
    out: &mut [f32],
) -> u8
    ensures value { result ≡ (box_handed (intersection_lent one.now two.now fringe out.old)).number }
    ensures out_after { out.new ≡ after (box_handed (intersection_lent one.now two.now fringe out.old)) out.old }
{
    box_exports::intersection(one, two, fringe, out)
}

#[unsafe(no_mangle)]
pub extern "C" fn beamnettle_rect_intersection(one: &[f32], two: &[f32], out: &mut [f32]) -> u8
    ensures value { result ≡ (box_handed (rect_intersection_lent one.now two.now out.old)).number }
    ensures out_after { out.new ≡ after (box_handed (rect_intersection_lent one.now two.now out.old)) out.old }
{
    box_exports::rect_intersection(one, two, out)
}

#[unsafe(no_mangle)]
pub extern "C" fn beamnettle_coverage(b: &[f32], fringe: f32, out: &mut [f32]) -> u8
    ensures value { result ≡ (coverage_handed (coverage_lent b.now fringe out.old)).number }
    ensures out_after { out.new ≡ after (coverage_handed (coverage_lent b.now fringe out.old)) out.old }
{
    box_exports::coverage(b, fringe, out)
}

#[unsafe(no_mangle)]
pub extern "C" fn beamnettle_bounds(b: &[f32], out: &mut [f32]) -> u8
    ensures value { result ≡ (bounds_handed (bounds_lent b.now out.old)).number }
    ensures out_after { out.new ≡ after (bounds_handed (bounds_lent b.now out.old)) out.old }
{
    box_exports::bounds(b, out)
}

#[unsafe(no_mangle)]
pub extern "C" fn beamnettle_distance(k: &[f32], x: f32, y: f32, out: &mut [f32]) -> u8
    ensures value { result ≡ (distance_handed (distance_lent k.now x y out.old)).number }
    ensures out_after { out.new ≡ after (distance_handed (distance_lent k.now x y out.old)) out.old }
{
    box_exports::distance(k, x, y, out)
}

#[unsafe(no_mangle)]
pub extern "C" fn beamnettle_parallel(one: &[f32], two: &[f32]) -> u8
    ensures { result ≡ test_number (parallel_lent one.now two.now) }
{
    box_exports::parallel(one, two)
}

#[unsafe(no_mangle)]
pub extern "C" fn beamnettle_contains(k: &[f32], b: &[f32]) -> u8
    ensures { result ≡ test_number (contains_lent k.now b.now) }
{
    box_exports::contains(k, b)
}

// ---- scissors, fills and device bounds: crate window_exports has the calls

#[unsafe(no_mangle)]
pub extern "C" fn beamnettle_with_scissor(
    clip: &[f32],
    scissor: &[f32],
    fringe: f32,
    out: &mut [f32],
    coverage: &mut [f32],
) -> u8
    ensures value { result ≡ (both_box_handed (with_scissor_lent clip.now scissor.now fringe out.old coverage.old)).number }
    ensures out_after { out.new ≡ after (both_box_handed (with_scissor_lent clip.now scissor.now fringe out.old coverage.old)) out.old }
    ensures coverage_after { coverage.new ≡ after (both_coverage_handed (with_scissor_lent clip.now scissor.now fringe out.old coverage.old)) coverage.old }
{
    window_exports::with_scissor(clip, scissor, fringe, out, coverage)
}

#[unsafe(no_mangle)]
pub extern "C" fn beamnettle_trimmed_scissor(
    clip: &[f32],
    scissor: &[f32],
    fringe: f32,
    out: &mut [f32],
) -> u8
    ensures value { result ≡ (box_handed (trimmed_scissor_lent clip.now scissor.now fringe out.old)).number }
    ensures out_after { out.new ≡ after (box_handed (trimmed_scissor_lent clip.now scissor.now fringe out.old)) out.old }
{
    window_exports::trimmed_scissor(clip, scissor, fringe, out)
}

#[unsafe(no_mangle)]
pub extern "C" fn beamnettle_rect_fill(
    clip: &[f32],
    fill: &[f32],
    fringe: f32,
    out: &mut [f32],
) -> u8
    ensures value { result ≡ (fill_handed (rect_fill_lent clip.now fill.now fringe out.old)).number }
    ensures out_after { out.new ≡ after (fill_handed (rect_fill_lent clip.now fill.now fringe out.old)) out.old }
{
    window_exports::rect_fill(clip, fill, fringe, out)
}

#[unsafe(no_mangle)]
pub extern "C" fn beamnettle_upright_rect(
    verbs: &[u8],
    positions: &[f32],
    frame: &[f32],
    out: &mut [f32],
) -> u8
    ensures value { result ≡ (box_handed (upright_rect_lent verbs.now positions.now frame.now out.old)).number }
    ensures out_after { out.new ≡ after (box_handed (upright_rect_lent verbs.now positions.now frame.now out.old)) out.old }
{
    window_exports::upright_rect(verbs, positions, frame, out)
}

#[unsafe(no_mangle)]
pub extern "C" fn beamnettle_reach(k: &[f32], out: &mut [f32]) -> u8
    ensures value { result ≡ (reach_lent k.now out.old).number }
    ensures out_after { out.new ≡ after (reach_lent k.now out.old) out.old }
{
    window_exports::reach(k, out)
}

#[unsafe(no_mangle)]
pub extern "C" fn beamnettle_holds(k: &[f32], bounds: &[f32]) -> u8
    ensures { result ≡ test_number (holds_lent k.now bounds.now) }
{
    window_exports::holds(k, bounds)
}

// ---- lists of boxes

#[unsafe(no_mangle)]
pub extern "C" fn beamnettle_touch(boxes: &[RoundedBox], fringe: f32, x: f32, y: f32) -> u32
    ensures { result ≡ touch_number (touch_call boxes.now fringe (point_of x y)) }
{
    boundary::touch_number(touch::touch(boxes, fringe, x, y))
}

#[unsafe(no_mangle)]
pub extern "C" fn beamnettle_inside(boxes: &[RoundedBox], safe: &[f32], fringe: f32) -> u32
    ensures { result ≡ inside_number (inside_lent boxes.now safe.now fringe) }
{
    if safe.len() < BOX {
        return u32::from(Fault::BufferTooShort.number());
    }
    boundary::inside_number(inside::all_inside(boxes, boxes::box_at(safe, 0), fringe))
}
