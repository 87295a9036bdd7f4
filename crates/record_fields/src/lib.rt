// A mask's record, out of a line's fields.
#![tactic(auto)]

use cells::{Corner, MaskRecord, Size};
use fields::{Fields, Problem};

fn size(fields: &mut Fields) -> Result<Size, Problem> {
    Ok(Size {
        width: fields.natural()?,
        height: fields.natural()?,
    })
}

// A size, of a mask that stands at (0, 0).
pub fn size_at(fields: &mut Fields) -> Result<MaskRecord, Problem> {
    Ok(MaskRecord {
        size: size(fields)?,
        corner: Corner { x: 0, y: 0 },
    })
}

// A size and a corner.
pub fn record_at(fields: &mut Fields) -> Result<MaskRecord, Problem> {
    Ok(MaskRecord {
        size: size(fields)?,
        corner: Corner {
            x: fields.word()?,
            y: fields.word()?,
        },
    })
}
