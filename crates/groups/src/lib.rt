// The groups of a list without a fault, added one after another to a mask, over lent scratch. No function here
// is a call of the kiosk's: crate mask has those.
#![tactic(auto)]

ghost use Rattle.std.specs.Prelude.{◌≡◌, length, drop, replicate};
ghost use Rattle.float.specs.Ops.{f0};
ghost use Rattle.ink.specs.Ink.{ink_of_rows};
ghost use Rattle.ink.specs.Lent.{ink_needed};
ghost use Rattle.ink.specs.Grown.{InkKept};
ghost use Rattle.word_list.specs.Words.{read_group, groups_of};
ghost use Rattle.words.specs.Scan.{end_of};
ghost use Rattle.coverage.specs.Drawing.{group_row, drawing_of};
ghost use Rattle.coverage.specs.Scratch.{Room, Clean};
ghost use Rattle.coverage.specs.Resolving.{rows_added};
ghost use Rattle.groups.specs.Steps.{ListCounted, GroupFine, group_at};

use cells::Size;

// Adds the group whose words start at `at`, and keeps the mask's ink. Returns where the next starts.
fn draw_group(
    mask: &mut [u8],
    ink: &mut [u16],
    floats: &mut [f32],
    counters: &mut [u64],
    size: Size,
    points: usize,
    words: &[i32],
    at: usize,
) -> usize
    requires room { Room mask.old floats.old counters.old size points }
    requires clean { Clean floats.old counters.old size }
    requires group_fine { GroupFine words.now at points }
    requires ink_kept { InkKept size mask.old ink.old }
    ensures mask_after { mask.new ≡ rows_added (group_row size (group_at words.now at)) size mask.old }
    ensures value { result ≡ end_of (length words.now) (read_group 0 (drop at words.now)) }
    ensures clean_2 { Clean floats.new counters.new size }
    ensures ink_kept_2 { InkKept size mask.new ink.new }
{
    let head = word_reader::head_at(words, at);
    let Ok(n) = head.contours else {
        return at;
    };
    let stored = contour::contours(words, at + 2, n, floats, size.width, size.height);
    coverage::resolve(
        mask,
        ink,
        floats,
        counters,
        size,
        points,
        stored.count,
        head.even_odd,
    );
    stored.at
}

// Adds every group of a list without a fault to a mask of zeros, whose ink it keeps.
fn draw_groups(
    mask: &mut [u8],
    ink: &mut [u16],
    floats: &mut [f32],
    counters: &mut [u64],
    size: Size,
    points: usize,
    words: &[i32],
)
    requires room { Room mask.old floats.old counters.old size points }
    requires clean { Clean floats.old counters.old size }
    requires mask_value { mask.old ≡ replicate (length mask.old) 0 }
    requires list_counted { ListCounted words.now points }
    requires ink_kept { InkKept size mask.old ink.old }
    ensures mask_after { mask.new ≡ drawing_of size (groups_of words.now) }
    ensures ink_kept_2 { InkKept size mask.new ink.new }
{
    let mut at = 0;
    while at < words.len() {
        at = draw_group(mask, ink, floats, counters, size, points, words, at);
    }
}

// Draws a list without a fault, over scratch that is long enough, finds its ink, and clears the
// scratch.
pub fn draw(
    mask: &mut [u8],
    ink: &mut [u16],
    floats: &mut [f32],
    counters: &mut [u64],
    size: Size,
    points: usize,
    words: &[i32],
)
    requires room { Room mask.old floats.old counters.old size points }
    requires list_counted { ListCounted words.now points }
    requires ink_len { length ink.old ≡ ink_needed size }
    ensures mask_after { mask.new ≡ drawing_of size (groups_of words.now) }
    ensures floats_after { floats.new ≡ replicate (length floats.old) f0 }
    ensures counters_after { counters.new ≡ replicate (length counters.old) 0 }
    ensures ink_after { ink.new ≡ ink_of_rows size mask.new }
{
    let width = size.width;
    mask.fill(0);
    ink.fill(0);
    floats[..width].fill(0.0);
    counters.fill(0);
    draw_groups(mask, ink, floats, counters, size, points, words);
    floats.fill(0.0);
    counters.fill(0);
}
