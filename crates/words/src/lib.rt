// The word list of a mask: the first word at fault, or how many points it has. Functions take the
// list and a place in it; what stands there is what a definition reads from that place on.
#![tactic(auto)]

ghost use Rattle.std.specs.Prelude.{◌≡◌, ◌+◌, ◌≤◌, length, drop};
ghost use Rattle.word_list.specs.Words.{read_point, read_points, read_contour, read_contours, read_group, read_words, points_of, points_in};
ghost use Rattle.word_reader.specs.Reader.{checked_of};
ghost use Rattle.words.specs.Scan.{scan_of};
ghost use Rattle.word_list.specs.Words.{group_points};

use fault::{Check, Fault};

// How reading goes on: at a place of the list, behind so many of its points.
#[derive(Clone, Copy)]
pub struct Scan {
    pub at: usize,
    pub points: usize,
}

impl Scan {
    // Points that a list may have.
    const MOST_POINTS: usize = 2048;
}

// The pair of coordinates at a place.
fn point_at(words: &[i32], at: usize) -> Check
    ensures { result ≡ checked_of (read_point (drop at words.now)) }
{
    let point = word_reader::pair_at(words, at);
    word_reader::coordinate(point.first)?;
    word_reader::coordinate(point.second)
}

// The n points of a contour.
fn points_at(words: &[i32], from: Scan, n: usize) -> Result<Scan, Fault>
    requires { (from.points + n ≤ 2048) × (from.at ≤ length words.now) }
    ensures { result ≡ scan_of (length words.now) length from.points (read_points n (drop from.at words.now)) }
{
    for i in 0..n {
        point_at(words, from.at + 2 * i)?;
    }
    Ok(Scan {
        at: from.at + 2 * n,
        points: from.points + n,
    })
}

// A contour.
fn contour_at(words: &[i32], from: Scan) -> Result<Scan, Fault>
    requires { from.points ≤ 2048 }
    ensures { result ≡ scan_of (length words.now) length from.points (read_contour from.points (drop from.at words.now)) }
{
    let n = word_reader::count_at(words, from.at)?;
    if Scan::MOST_POINTS - from.points < n {
        return Err(Fault::CountOutOfRange);
    }
    let first = Scan {
        at: from.at + 1,
        points: from.points,
    };
    points_at(words, first, n)
}

// n contours.
fn contours_at(words: &[i32], from: Scan, n: usize) -> Result<Scan, Fault>
    requires { (from.points ≤ 2048) × (from.at ≤ length words.now) }
    ensures { result ≡ scan_of (length words.now) points_of from.points (read_contours n from.points (drop from.at words.now)) }
{
    let mut scan = from;
    for _ in 0..n {
        scan = contour_at(words, scan)?;
    }
    Ok(scan)
}

// A group. Where its rule is missing, so is its count.
fn group_at(words: &[i32], from: Scan) -> Result<Scan, Fault>
    requires { from.points ≤ 2048 }
    ensures { result ≡ scan_of (length words.now) group_points from.points (read_group from.points (drop from.at words.now)) }
{
    let n = word_reader::head_at(words, from.at).contours?;
    let first = Scan {
        at: from.at + 2,
        points: from.points,
    };
    contours_at(words, first, n)
}

// The whole list.
pub fn read_words(words: &[i32]) -> Result<Scan, Fault>
    ensures { result ≡ scan_of (length words.now) points_in 0 (read_words words.now) }
{
    let mut scan = Scan { at: 0, points: 0 };
    while scan.at < words.len() {
        scan = group_at(words, scan)?;
    }
    Ok(scan)
}
