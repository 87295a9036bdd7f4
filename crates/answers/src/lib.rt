// The engine's answers, written one a line.
#![tactic(auto)]

use cells::MaskRecord;
use clip_coverage::ClipCoverage;
use fill::RectFill;
use geometry::Bounds;
use inside::Inside;
use rounded::Fitted;
use shape::RoundedBox;
use std::io::{self, Write};

// ---- files

// A file's length, and the whole of what was lent for it.
pub fn written(out: &mut impl Write, length: usize, file: &[u8]) -> io::Result<()> {
    write!(out, "file {length} ")?;
    writing::hex(out, file)?;
    writeln!(out)
}

pub fn read(out: &mut impl Write, record: MaskRecord) -> io::Result<()> {
    let MaskRecord { size, corner } = record;
    write!(out, "size {} {}", size.width, size.height)?;
    writeln!(out, " corner {} {}", corner.x, corner.y)
}

// ---- boxes and coverages

fn no_box(out: &mut impl Write) -> io::Result<()> {
    out.write_all(b"nobox\n")
}

fn ten_floats(b: RoundedBox) -> [f32; 10] {
    let frame = b.frame;
    [
        frame.a, frame.b, frame.c, frame.d, frame.x, frame.y, b.ex, b.ey, b.rx, b.ry,
    ]
}

fn eleven_floats(k: ClipCoverage) -> [f32; 11] {
    [
        k.la, k.lb, k.lc, k.ld, k.ox, k.oy, k.ex, k.ey, k.rx, k.ry, k.strays,
    ]
}

// A line that names what a box is.
fn box_line(out: &mut impl Write, name: &str, b: RoundedBox) -> io::Result<()> {
    writing::float_line(out, name, &[&ten_floats(b)])
}

pub fn boxed(out: &mut impl Write, found: Option<RoundedBox>) -> io::Result<()> {
    match found {
        Some(b) => box_line(out, "box", b),
        None => no_box(out),
    }
}

pub fn coverage(out: &mut impl Write, found: Option<ClipCoverage>) -> io::Result<()> {
    match found {
        Some(k) => writing::float_line(out, "cov", &[&eleven_floats(k)]),
        None => no_box(out),
    }
}

pub fn both(out: &mut impl Write, found: Option<(RoundedBox, ClipCoverage)>) -> io::Result<()> {
    match found {
        Some((b, k)) => writing::float_line(out, "both", &[&ten_floats(b), &eleven_floats(k)]),
        None => no_box(out),
    }
}

pub fn filled(out: &mut impl Write, found: Option<RectFill>) -> io::Result<()> {
    match found {
        Some(RectFill::Shared(b)) => box_line(out, "shared", b),
        Some(RectFill::Covered(b)) => box_line(out, "covered", b),
        None => no_box(out),
    }
}

// ---- outlines

// A line that names what an outline is: its box and strays.
fn outline_line(out: &mut impl Write, name: &str, b: RoundedBox, strays: f32) -> io::Result<()> {
    writing::float_line(out, name, &[&ten_floats(b), &[strays]])
}

pub fn outlined(out: &mut impl Write, found: Option<(RoundedBox, f32)>) -> io::Result<()> {
    match found {
        Some((b, strays)) => outline_line(out, "outline", b, strays),
        None => no_box(out),
    }
}

pub fn cut(out: &mut impl Write, found: Option<Fitted>) -> io::Result<()> {
    let Some(Fitted { shape, strays, cut }) = found else {
        return no_box(out);
    };
    match cut {
        None => outline_line(out, "whole", shape, strays),
        Some(cut) => {
            writing::float_line(
                out,
                "cut",
                &[&ten_floats(shape), &[strays], &ten_floats(cut)],
            )
        }
    }
}

// ---- bounds, numbers, tests

pub fn bounds(out: &mut impl Write, b: Bounds) -> io::Result<()> {
    writing::float_line(out, "bounds", &[&[b.minx, b.miny, b.maxx, b.maxy]])
}

pub fn reach(out: &mut impl Write, found: Option<Bounds>) -> io::Result<()> {
    match found {
        Some(b) => bounds(out, b),
        None => out.write_all(b"everywhere\n"),
    }
}

pub fn distance(out: &mut impl Write, x: f32) -> io::Result<()> {
    writing::float_line(out, "float", &[&[x]])
}

pub fn touch(out: &mut impl Write, frame: Option<u16>) -> io::Result<()> {
    match frame {
        Some(place) => writeln!(out, "frame {place}"),
        None => out.write_all(b"noframe\n"),
    }
}

pub fn inside(out: &mut impl Write, found: Option<Inside>) -> io::Result<()> {
    match found {
        Some(Inside::All) => out.write_all(b"inside\n"),
        Some(Inside::Outside(place)) => writeln!(out, "outside {place}"),
        None => no_box(out),
    }
}
