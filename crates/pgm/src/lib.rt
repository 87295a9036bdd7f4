// Masks as raw Netpbm PGM files, written and read: document 02, changes 4, 8 and 9.
#![tactic(auto)]

ghost use Rattle.std.specs.Prelude.{◌≡◌, length};
ghost use Rattle.ink.specs.Lent.{lent};
ghost use Rattle.pgm.specs.Calls.{no_cells, write_check, write_call, file_after, read_check, raster_call, read_call, raster_over, mask_after_reading, ink_after_reading};

use cells::{Corner, MaskRecord, Size};
use fault::{Check, Fault};

// The depth of a mask's cells.
const DEPTH: usize = 255;

// ---- writing

fn has_no_cells(size: Size) -> bool
    ensures { result ≡ no_cells size }
{
    size.width == 0 || size.height == 0
}

// 13, 3, then 4: whether a mask of so many bytes can be written to a file of so many.
fn write_check(size: Size, mask: usize, file: usize) -> Check
    ensures { result ≡ write_check size mask file }
{
    if has_no_cells(size) {
        return Err(Fault::NotPgm);
    }
    if size.is_too_large() {
        return Err(Fault::MaskTooLarge);
    }
    let cells = size.width * size.height;
    if mask < cells || file < pgm_writer::header_length(size) + cells {
        return Err(Fault::BufferTooShort);
    }
    Ok(())
}

// Writes a mask as a PGM file.
pub fn write_pgm(mask: &[u8], size: Size, file: &mut [u8]) -> Result<usize, Fault>
    ensures answer { result ≡ write_call size (length mask.now) (length file.old) }
    ensures file { file.new ≡ file_after result size mask.now file.old }
{
    write_check(size, mask.len(), file.len())?;
    let cells = size.width * size.height;
    Ok(pgm_writer::put_pgm(file, size, &mask[..cells]))
}

// ---- reading

// 14, 3, 15, then 4: whether a raster of so many bytes can be read into a mask of so many, and its ink into so
// many numbers.
fn read_check(size: Size, depth: usize, raster: usize, mask: usize, ink: usize) -> Check
    ensures { result ≡ read_check (record { size = size; depth = depth }) raster (record { mask = mask; ink = ink }) }
{
    if depth != DEPTH {
        return Err(Fault::WrongDepth);
    }
    if size.is_too_large() {
        return Err(Fault::MaskTooLarge);
    }
    if raster != size.width * size.height {
        return Err(Fault::WrongRaster);
    }
    if ink::lent_short(size, mask, ink) {
        return Err(Fault::BufferTooShort);
    }
    Ok(())
}

// Reads the raster behind a header into a mask, and finds its ink. A file says nothing of the sheet: the mask
// stands at (0, 0).
fn read_raster(
    raster: &[u8],
    size: Size,
    depth: usize,
    mask: &mut [u8],
    ink: &mut [u16],
) -> Result<MaskRecord, Fault>
    ensures value { result ≡ raster_call (record { size = size; depth = depth }) (length raster.now) (lent mask.old ink.old) }
    ensures mask_after { mask.new ≡ raster_over result raster.now mask.old }
    ensures ink_after { ink.new ≡ ink_after_reading result mask.new ink.old }
{
    read_check(size, depth, raster.len(), mask.len(), ink.len())?;
    cells::put_bytes(mask, 0, raster);
    ink::scan(mask, size, ink);
    Ok(MaskRecord {
        size,
        corner: Corner { x: 0, y: 0 },
    })
}

// Reads a PGM file into a mask, and finds its ink.
pub fn read_pgm(file: &[u8], mask: &mut [u8], ink: &mut [u16]) -> Result<MaskRecord, Fault>
    ensures answer { result ≡ read_call file.now (lent mask.old ink.old) }
    ensures cells { mask.new ≡ mask_after_reading result file.now mask.old }
    ensures ink { ink.new ≡ ink_after_reading result mask.new ink.old }
{
    let Some(header) = pgm_reader::read_header(file) else {
        return Err(Fault::NotPgm);
    };
    read_raster(&file[header.at..], header.size, header.depth, mask, ink)
}
