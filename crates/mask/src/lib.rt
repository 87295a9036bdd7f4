// The public calls on masks.
#![tactic(auto)]

ghost use Rattle.std.specs.Prelude.{◌≡◌, length};
ghost use Rattle.cells.specs.Cells.{SizeAllowed};
ghost use Rattle.ink.specs.Lent.{lent, LentEnough};
ghost use Rattle.laying.specs.Laying.{laying};
ghost use Rattle.laying.specs.Placed.{placed, by_offset};
ghost use Rattle.mask.specs.Calls.{drawing, outcome_number, draw_answer, mask_after_drawing, floats_after_drawing, counters_after_drawing, lay_answer, mask_after_laying, lay_placed_answer, ink_after_call};
ghost use Rattle.mask.specs.Laws.{DrawNumber, LayNumber, LayPlacedNumber};
ghost use Rattle.mask.specs.Steps.{LayChecked, corners_check};
ghost use Rattle.groups.specs.Steps.{ListCounted};

use cells::{MaskRecord, Size};
use fault::{Check, Fault};
use laying::Offset;

// Draws a list without a fault, of so many points, where scratch is long enough. Its ink is kept meanwhile.
fn draw_in(
    mask: &mut [u8],
    ink: &mut [u16],
    floats: &mut [f32],
    counters: &mut [u64],
    size: Size,
    points: usize,
    words: &[i32],
) -> Result<(), Fault>
    requires size_allowed { SizeAllowed size × LentEnough size (lent mask.old ink.old) }
    requires list_counted { ListCounted words.now points }
    ensures value { result ≡ draw_answer (drawing size words.now floats.old counters.old) (lent mask.old ink.old) }
    ensures mask_after { mask.new ≡ mask_after_drawing result (drawing size words.now floats.old counters.old) mask.old }
    ensures ink_after { ink.new ≡ ink_after_call result size mask.new ink.old }
    ensures floats_after { floats.new ≡ floats_after_drawing result floats.old }
    ensures counters_after { counters.new ≡ counters_after_drawing result counters.old }
    ensures draw_number { DrawNumber (drawing size words.now floats.old counters.old) (lent mask.old ink.old) (outcome_number result) }
{
    if floats.len() < coverage::floats_needed(size, points) {
        return Err(Fault::BufferTooShort);
    }
    if counters.len() < coverage::counters_needed(size) {
        return Err(Fault::BufferTooShort);
    }
    let cells = size.width * size.height;
    let numbers = 2 * size.height;
    groups::draw(
        &mut mask[..cells],
        &mut ink[..numbers],
        floats,
        counters,
        size,
        points,
        words,
    );
    Ok(())
}

// Draws a word list into a mask, over lent scratch, and finds its ink. Words are relative to the mask's corner,
// wherever that lies.
pub fn rasterize_into(
    mask: &mut [u8],
    ink: &mut [u16],
    mask_record: MaskRecord,
    words: &[i32],
    floats: &mut [f32],
    counters: &mut [u64],
) -> Result<(), Fault>
    ensures answer { result ≡ draw_answer (drawing mask_record.size words.now floats.old counters.old) (lent mask.old ink.old) }
    ensures cells { mask.new ≡ mask_after_drawing result (drawing mask_record.size words.now floats.old counters.old) mask.old }
    ensures ink { ink.new ≡ ink_after_call result mask_record.size mask.new ink.old }
    ensures floats { floats.new ≡ floats_after_drawing result floats.old }
    ensures counters { counters.new ≡ counters_after_drawing result counters.old }
    ensures number { DrawNumber (drawing mask_record.size words.now floats.old counters.old) (lent mask.old ink.old) (outcome_number result) }
{
    let size = mask_record.size;
    if size.is_too_large() {
        return Err(Fault::MaskTooLarge);
    }
    if ink::lent_short(size, mask.len(), ink.len()) {
        return Err(Fault::BufferTooShort);
    }
    let scan = words::read_words(words)?;
    draw_in(mask, ink, floats, counters, size, scan.points, words)
}

// 3 for either mask, then 4 for either: whether one of so many bytes, its ink of so many numbers, can have
// another laid on it.
fn lay_check(
    size: Size,
    mask_length: usize,
    ink_length: usize,
    other_size: Size,
    other_length: usize,
) -> Check
    ensures { LayChecked size (record { mask = mask_length; ink = ink_length }) other_size other_length result }
{
    if size.is_too_large() || other_size.is_too_large() {
        return Err(Fault::MaskTooLarge);
    }
    if ink::lent_short(size, mask_length, ink_length)
        || other_length < other_size.width * other_size.height
    {
        return Err(Fault::BufferTooShort);
    }
    Ok(())
}

// Lays the other mask on a mask: multiplies it by the other where they overlap, and clears it
// elsewhere; then finds its ink. `offset` is where the mask's corner lies in the other.
pub fn intersect(
    mask: &mut [u8],
    ink: &mut [u16],
    size: Size,
    other: &[u8],
    other_size: Size,
    offset: Offset,
) -> Result<(), Fault>
    ensures answer { result ≡ lay_answer (laying size other_size offset) (lent mask.old ink.old) (length other.now) }
    ensures cells { mask.new ≡ mask_after_laying result (laying size other_size offset) mask.old other.now }
    ensures ink { ink.new ≡ ink_after_call result size mask.new ink.old }
    ensures number { LayNumber (laying size other_size offset) (lent mask.old ink.old) (length other.now) (outcome_number result) }
{
    lay_check(size, mask.len(), ink.len(), other_size, other.len())?;
    let cells = size.width * size.height;
    laying::lay(&mut mask[..cells], size, other, other_size, offset);
    ink::scan(mask, size, ink);
    Ok(())
}

// 3 for either mask, then 16 for either, own mask before the other.
fn corners_check(own: MaskRecord, other: MaskRecord) -> Check
    ensures { result ≡ corners_check (placed own other) }
{
    if own.size.is_too_large() || other.size.is_too_large() {
        return Err(Fault::MaskTooLarge);
    }
    if own.corner.is_out_of_range() || other.corner.is_out_of_range() {
        return Err(Fault::CornerOutOfRange);
    }
    Ok(())
}

// Lays the other mask on a mask by where their corners lie on the sheet.
pub fn intersect_placed(
    mask: &mut [u8],
    ink: &mut [u16],
    mask_record: MaskRecord,
    other: &[u8],
    other_record: MaskRecord,
) -> Result<(), Fault>
    ensures answer { result ≡ lay_placed_answer (placed mask_record other_record) (lent mask.old ink.old) (length other.now) }
    ensures cells { mask.new ≡ mask_after_laying result (by_offset (placed mask_record other_record)) mask.old other.now }
    ensures ink { ink.new ≡ ink_after_call result mask_record.size mask.new ink.old }
    ensures number { LayPlacedNumber (placed mask_record other_record) (lent mask.old ink.old) (length other.now) (outcome_number result) }
{
    corners_check(mask_record, other_record)?;
    let offset = Offset::between(mask_record.corner, other_record.corner);
    intersect(
        mask,
        ink,
        mask_record.size,
        other,
        other_record.size,
        offset,
    )
}
