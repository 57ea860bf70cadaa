//! How many cells a terminal of a size was sent.
use crate::setup::number;
use case_lines::fault::{Fault, Wrong};
use case_lines::line::Line;
use con_units::Size;

/// The size that a line is: width and height with `x` between them.
pub fn size(line: Line<'_>) -> Result<Size, Wrong> {
    let Some((width, height)) = line.text.split_once('x') else {
        return Err(line.wrong(Fault::Size));
    };
    let w = given!(number::<u16>(line.part(width)));
    let h = given!(number::<u16>(line.part(height)));
    if 1 <= w && w <= 512 && 1 <= h && h <= 256 {
        Ok(Size { w, h })
    } else {
        Err(line.wrong(Fault::Size))
    }
}

// Where the bytes of a terminal's sequences are.
#[derive(Clone, Copy, PartialEq, Eq)]
enum At {
    Text,
    Escape,
    Charset,
    Sequence,
}

// Where the next byte is.
fn next(at: At, byte: u8) -> At {
    match at {
        At::Text if byte == 0x1B => At::Escape,
        At::Escape if byte == 0x5B => At::Sequence,
        At::Escape if byte == 0x28 => At::Charset,
        At::Sequence if byte < 0x40 => At::Sequence,
        _ => At::Text,
    }
}

/// The most cells that ASCII bytes print or erase on a terminal: a character one, a row's end or a run of blanks a row, and the rest of a
/// screen all of it.
pub fn cells(bytes: &[u8], size: Size) -> usize {
    let (w, h) = (size.w as usize, size.h as usize);
    let mut at = At::Text;
    let mut count: usize = 0;
    for byte in bytes {
        let more = match (at, *byte) {
            (At::Text, 0x20..=0x7E) => 1,
            (At::Sequence, 0x4A) => w * h,
            (At::Sequence, 0x4B | 0x58) => w,
            _ => 0,
        };
        count = count.saturating_add(more);
        at = next(at, *byte);
    }
    count
}
