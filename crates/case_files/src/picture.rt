//! A picture as lines.
use con_events::Reply;
use con_units::{Cell, View};
use std::alloc::{AllocError, Global};

// A row with its number, unless it is blank. A unit that is no byte is a question mark.
fn push_row(alloc: Global, out: &mut String, row: usize, cells: &[Cell]) -> Result<(), AllocError> {
    let mut text = String::new(alloc);
    for cell in cells {
        given!(text.push(char::from(u8::try_from(cell.unit()).unwrap_or(b'?'))));
    }
    let text = text.as_str().trim_end_matches(' ');
    if !text.is_empty() {
        given!(writeln!(out, "{row}|{text}"));
    }
    Ok(())
}

fn push_rows(alloc: Global, out: &mut String, view: &View) -> Result<(), AllocError> {
    let width = (view.size.w as usize).max(1);
    for (row, cells) in view.rows.as_slice().chunks(width).enumerate() {
        given!(push_row(alloc, out, row, cells));
    }
    Ok(())
}

// `all`, or the marked rows.
fn push_marks(out: &mut String, marks: &[bool]) -> Result<(), AllocError> {
    given!(out.push_str(" marks"));
    if marks.iter().all(|mark| *mark) {
        return out.push_str(" all\n");
    }
    for (row, mark) in marks.iter().enumerate() {
        if *mark {
            given!(write!(out, " {row}"));
        }
    }
    out.push('\n')
}

// The size, and where the cursor is.
fn push_size(out: &mut String, view: &View) -> Result<(), AllocError> {
    let (w, h) = (view.size.w, view.size.h);
    if !view.visible {
        return write!(out, "{w}x{h} cursor hidden");
    }
    let (x, y) = (view.cursor.x, view.cursor.y);
    write!(out, "{w}x{h} cursor {x},{y}")
}

/// Puts a reply's picture last, if it has one: its size and cursor, `new` where it is for a terminal of a new size, the marked
/// rows, and each row that is not blank.
pub fn push_picture(alloc: Global, out: &mut String, reply: &Reply) -> Result<(), AllocError> {
    let Reply::View(view, marks, anew) = reply else {
        return Ok(());
    };
    given!(push_size(out, view));
    if *anew {
        given!(out.push_str(" new"));
    }
    given!(push_marks(out, marks.as_slice()));
    push_rows(alloc, out, view)
}
