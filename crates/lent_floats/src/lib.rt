// Boxes, coverages and bounds as lent floats (crate boxes reads boxes and frames): what crosses the C
// boundary beside numbers.
#![tactic(auto)]

ghost use Rattle.std.specs.Prelude.{◌≡◌, ◌≤◌, length};
ghost use Rattle.lent_floats.specs.Lent.{coverage_in, bounds_in, box_floats, coverage_floats, bounds_floats, outline_floats, cut_outline_floats, over};

use clip_coverage::ClipCoverage;
use geometry::Bounds;
use shape::RoundedBox;

// How many floats a box, a frame, a coverage, bounds, an outline's box with its strays, and that with the
// box that cuts it take.
pub const BOX: usize = 10;

pub const FRAME: usize = 6;

pub const COVERAGE: usize = 11;

pub const BOUNDS: usize = 4;

pub const OUTLINE: usize = 11;

pub const CUT_OUTLINE: usize = 21;

// ---- read

pub fn coverage_in(s: &[f32]) -> ClipCoverage
    requires { 11 ≤ length s.now }
    ensures { result ≡ coverage_in s.now }
{
    ClipCoverage {
        la: s[0],
        lb: s[1],
        lc: s[2],
        ld: s[3],
        ox: s[4],
        oy: s[5],
        ex: s[6],
        ey: s[7],
        rx: s[8],
        ry: s[9],
        strays: s[10],
    }
}

pub fn bounds_in(s: &[f32]) -> Bounds
    requires { 4 ≤ length s.now }
    ensures { result ≡ bounds_in s.now }
{
    Bounds {
        minx: s[0],
        miny: s[1],
        maxx: s[2],
        maxy: s[3],
    }
}

// ---- written

// Writes an answer's floats to the front of what is lent.
pub fn put(out: &mut [f32], floats: &[f32])
    requires { length floats.now ≤ length out.old }
    ensures { out.new ≡ over floats.now out.old }
{
    out[..floats.len()].copy_from_slice(floats);
}

pub fn put_box(out: &mut [f32], b: RoundedBox)
    requires { 10 ≤ length out.old }
    ensures { out.new ≡ over (box_floats b) out.old }
{
    let f = b.frame;
    put(out, &[f.a, f.b, f.c, f.d, f.x, f.y, b.ex, b.ey, b.rx, b.ry]);
}

pub fn put_coverage(out: &mut [f32], k: ClipCoverage)
    requires { 11 ≤ length out.old }
    ensures { out.new ≡ over (coverage_floats k) out.old }
{
    put(
        out,
        &[
            k.la, k.lb, k.lc, k.ld, k.ox, k.oy, k.ex, k.ey, k.rx, k.ry, k.strays,
        ],
    );
}

pub fn put_bounds(out: &mut [f32], b: Bounds)
    requires { 4 ≤ length out.old }
    ensures { out.new ≡ over (bounds_floats b) out.old }
{
    put(out, &[b.minx, b.miny, b.maxx, b.maxy]);
}

pub fn put_outline(out: &mut [f32], b: RoundedBox, strays: f32)
    requires { 11 ≤ length out.old }
    ensures { out.new ≡ over (outline_floats b strays) out.old }
{
    let f = b.frame;
    put(
        out,
        &[f.a, f.b, f.c, f.d, f.x, f.y, b.ex, b.ey, b.rx, b.ry, strays],
    );
}

pub fn put_cut_outline(out: &mut [f32], b: RoundedBox, strays: f32, cut: RoundedBox)
    requires { 21 ≤ length out.old }
    ensures { out.new ≡ over (cut_outline_floats b strays cut) out.old }
{
    let f = b.frame;
    let g = cut.frame;
    put(
        out,
        &[
            f.a, f.b, f.c, f.d, f.x, f.y, b.ex, b.ey, b.rx, b.ry, strays, g.a, g.b, g.c, g.d, g.x,
            g.y, cut.ex, cut.ey, cut.rx, cut.ry,
        ],
    );
}
