//! Frames, byte by byte, and the terminal that plays them.
ghost use Rattle.std.specs.Prelude.{◌≡◌, IfOk, IfSome};
ghost use Rattle.con_units.specs.Words.Limits.{IsWindow};
ghost use Rattle.con_units.specs.Words.View.{IsWhole};

use con_dump::dump;
use con_paint::{Painter, room_for};
use con_term::Terminal;
use con_units::{Attr, Cell, Coord, Marks, OutOfMemory, Rows, Shade, Size, View};
use std::alloc::Global;
use std::test::Fail;

// The text of a window, where # stands for a unit on whose width terminals do not agree; the letters of the attributes of
// its first cells, of which the others are white on black; and the place of its cursor, which is hidden where x is negative.
type Picture = (&'static [u8], &'static [u8], i16, i16);

// Two pictures, and a part of what is told of them: `>`, the bytes of both frames, each on a line, ESC as ^, what the terminal
// shows then, and `<`. A picture of 18 cells is of a window of 6 by 3, one of 20 cells of 20 by 1.
const ROWS: [(Picture, Picture, &str); 22] = [
    // a whole frame, and one changed cell
    (
        (b"ab    cdefgh      ", b"wr", 1, 1),
        (b"ab    cdXfgh      ", b"wr", 1, 1),
        ">^[!p^[?69l^[?6l^[4l^[20l^[?7h^[?5l^[?2026l^[r^(B\u{F}^[0m^[?25l^[Ha^[31;40mb^[m^[K\r\ncdefgh^[3H^[K^[2;2H^[?25h\n\
          ^[CX\u{8}\u{8}\n6x3 cursor 1,1\n|ab    |\n|cdXfgh|\n|      |\n@0,1+1 0004\n<",
    ),
    // rows that are lifted; the lower right cell leaves a wrap pending, and the cursor stays hidden
    (
        (b"abcdefghijklmnopqr", b"", 0, 2),
        (b"ghijklmnopqrstuvwx", b"", -1, 0),
        ">^[!p^[?69l^[?6l^[4l^[20l^[?7h^[?5l^[?2026l^[r^(B\u{F}^[0m^[?25l^[Habcdef^[2Hghijkl^[3Hmnopqr^[3H^[?25h\n\r\n^[?25lstuvwx\n\
          6x3 cursor hidden\n|ghijkl|\n|mnopqr|\n|stuvwx|\n<",
    ),
    // an equal view, of which no byte is sent
    (
        (b"                  ", b"", 3, 0),
        (b"                  ", b"", 3, 0),
        ">^[!p^[?69l^[?6l^[4l^[20l^[?7h^[?5l^[?2026l^[r^(B\u{F}^[0m^[H^[J^[3C^[?25h\n\n6x3 cursor 3,0\n|      |\n|      |\n|      |\n<",
    ),
    // the cursor alone
    (
        (b"                  ", b"wn", 3, 0),
        (b"                  ", b"wn", 0, 2),
        "\n\r\n\n\n6x3 cursor 0,2\n|      |\n|      |\n|      |\n@0,1+1 4007\n<",
    ),
    // in the last row CR LF lifts by one and goes to the new row; the cell before the cursor is emptied between two BS
    (
        (b"abc   def   ghi   ", b"", 3, 2),
        (b"def   ghi   jkl   ", b"", 3, 2),
        "\n\r\njkl\n6x3 cursor 3,2\n|def   |\n|ghi   |\n|jkl   |\n<",
    ),
    (
        (b"abc               ", b"", 3, 0),
        (b"ab                ", b"", 2, 0),
        "\n\u{8} \u{8}\n6x3 cursor 2,0\n|ab    |\n|      |\n|      |\n<",
    ),
    // up or down in a column (CUD, CUU), back or on in a row (CUB, BS, CUF), by the first column of a row, and by its number
    // (CUP) where that is no longer
    (
        (b"                  ", b"", 3, 0),
        (b"                  ", b"", 3, 2),
        "\n^[2B\n6x3",
    ),
    (
        (b"                  ", b"", 3, 2),
        (b"                  ", b"", 3, 1),
        "\n^[A\n6x3",
    ),
    (
        (b"                  ", b"", 3, 1),
        (b"                  ", b"", 2, 2),
        "\n^[B\u{8}\n6x3",
    ),
    (
        (b"                  ", b"", 5, 1),
        (b"                  ", b"", 1, 1),
        "\n^[4D\n6x3",
    ),
    (
        (b"                  ", b"", 5, 1),
        (b"                  ", b"", 3, 1),
        "\n\u{8}\u{8}\n6x3",
    ),
    (
        (b"                  ", b"", 1, 1),
        (b"                  ", b"", 5, 1),
        "\n^[4C\n6x3",
    ),
    (
        (b"                  ", b"", 5, 0),
        (b"                  ", b"", 1, 1),
        "\n\r\n^[C\n6x3",
    ),
    (
        (b"                  ", b"", 5, 2),
        (b"                  ", b"", 3, 0),
        "\n^[1;4H\n6x3",
    ),
    (
        (b"                  ", b"", 5, 2),
        (b"                  ", b"", 0, 0),
        "\n^[H\n6x3",
    ),
    // a blank that stands there is printed up to the cursor, and gone over where it is in another attribute
    (
        (b"                  ", b"", 0, 0),
        (b"$                 ", b"", 2, 0),
        "\n$ \n6x3 cursor 2,0\n|$     |\n|      |\n|      |\n<",
    ),
    (
        (b"                  ", b"wr", 0, 0),
        (b" b                ", b"wr", 3, 0),
        "\n^[C^[31;40mb^[C\n6x3 cursor 3,0\n| b    |\n|      |\n|      |\n@0,1+1 0004\n<",
    ),
    // behind a width that is doubted the place is sent anew, and the cells that stand there are gone over
    (
        (b"abcdef            ", b"", 0, 1),
        (b"#bcdeX            ", b"", 0, 1),
        "\n^[H\u{d8}\u{80}^[1;6HX^[2H\n6x3 cursor 0,1\n|\u{600}bcdeX|\n|      |\n|      |\n<",
    ),
    (
        (b"                  ", b"", 0, 2),
        (b"#a    bcdefg      ", b"", 0, 2),
        "\n^[?25l^[H\u{d8}\u{80}^[1;2Ha\r\nbcdefg^[3H^[?25h\n6x3 cursor 0,2\n|\u{600}a    |\n|bcdefg|\n|      |\n<",
    ),
    // twelve blanks are erased by one sequence (ECH), at the end of what differs and before a cell that does
    (
        (b"abcdefghijklmnopqrst", b"", 0, 0),
        (b"ab            opqrst", b"", 0, 0),
        "\n^[2C^[12X\r\n20x1",
    ),
    (
        (b"abcdefghijklmnopqrst", b"", 0, 0),
        (b"ab            opqrsX", b"", 0, 0),
        "\n^[2C^[12X^[17CX^[H\n20x1",
    ),
    // one ground alone changes between cells and between frames; an index gives way to plain colours
    (
        (b"abcd              ", b"wRBL", 0, 1),
        (b"abcd              ", b"wBwL", 0, 1),
        ">^[!p^[?69l^[?6l^[4l^[20l^[?7h^[?5l^[?2026l^[r^(B\u{F}^[0m^[?25l^[Ha^[38;5;196;40mb^[48;5;21mc^[1;38;5;124;40md^[m  ^[2H^[J\
          ^[?25h\n^[1;2H^[38;5;196;48;5;21mb^[mc\r\n\n6x3 cursor 0,1\n|abcd  |\n|      |\n|      |\n@0,1+1 009c f196 b21\n@0,3+1 000c f124\n\
          <",
    ),
];

// The attribute of a letter: red, white with its colours exchanged, index 196 on black, the same on index 21, index 124 with its
// intensity set on black, and white on black.
#[tactic(auto, unfolding(con_units::specs::Shade::near))]
fn attr_of(letter: u8) -> Attr {
    match letter {
        b'r' => Attr::of(0x0004),
        b'n' => Attr::of(0x4007),
        b'R' => Attr::shaded(0x000C, Shade::Index(196), Shade::Plain),
        b'B' => Attr::shaded(0x009C, Shade::Index(196), Shade::Index(21)),
        b'L' => Attr::shaded(0x000C, Shade::Index(124), Shade::Plain),
        _ => Attr::of(0x0007),
    }
}

// The cell of a byte and a letter.
fn cell_of(byte: u8, letter: u8) -> Cell {
    let unit = if byte == b'#' { 0x600 } else { byte as u16 };
    Cell::new(unit, attr_of(letter))
}

// The cells of a picture.
fn cells_of(alloc: Global, text: &[u8], letters: &[u8]) -> Result<Vec<Cell>, OutOfMemory> {
    let mut cells = Vec::new(alloc);
    for at in 0..text.len() {
        let letter = if at < letters.len() {
            letters[at]
        } else {
            b'w'
        };
        if cells.push(cell_of(text[at], letter)).is_err() {
            return Err(OutOfMemory);
        }
    }
    Ok(cells)
}

// The view of a picture; None where it is of neither window.
fn view(alloc: Global, picture: Picture) -> Result<Option<View>, OutOfMemory>
    ensures { IfOk result (λ found. IfSome found (λ v. IsWhole v × IsWindow v.size.w v.size.h)) }
{
    let (text, letters, x, y) = picture;
    let rows = cells_of(alloc, text, letters)?;
    let cursor = Coord { x, y };
    let visible = 0 <= x;
    if rows.len() == 18 && x < 6 && 0 <= y && y < 3 {
        return Ok(Some(View {
            size: Size { w: 6, h: 3 },
            rows: Rows(rows),
            cursor,
            visible,
        }));
    }
    if rows.len() == 20 && x < 20 && y == 0 {
        return Ok(Some(View {
            size: Size { w: 20, h: 1 },
            rows: Rows(rows),
            cursor,
            visible,
        }));
    }
    Ok(None)
}

// Plays the bytes of a frame in which every row is marked, and appends them to a text, ESC as ^.
fn played(
    alloc: Global,
    painter: &mut Painter,
    terminal: &mut Terminal,
    view: &View,
    text: &mut String,
) -> Result<(), Fail>
    requires window { IsWindow view.now.size.w view.now.size.h }
    requires view { IsWhole view.now }
    requires size { (painter.old.w ≡ view.now.size.w) × (painter.old.h ≡ view.now.size.h) }
    ensures { (painter.new.w ≡ painter.old.w) × (painter.new.h ≡ painter.old.h) }
{
    let marks = Marks(Vec::from_elem(alloc, true, view.size.h as usize)?);
    let mut out = Vec::with_capacity(alloc, room_for(view.size))?;
    painter.paint(view, &marks, &mut out);
    terminal.play_all(out.as_slice());
    for byte in &out {
        text.push(if *byte == 0x1B { '^' } else { *byte as char })?;
    }
    text.push('\n')?;
    Ok(())
}

// What is told of two frames, by a painter that was made for another size.
fn told(alloc: Global, first: &View, second: &View) -> Result<String, Fail>
    requires first { IsWhole first.now × IsWindow first.now.size.w first.now.size.h }
    requires second { IsWhole second.now × IsWindow second.now.size.w second.now.size.h }
    requires size { (second.now.size.w ≡ first.now.size.w) × (second.now.size.h ≡ first.now.size.h) }
{
    let mut text = String::new(alloc);
    text.push('>')?;
    let mut painter = Painter::new(alloc, Size { w: 3, h: 2 })?;
    painter.resize(first.size)?;
    let mut terminal = Terminal::new(alloc, first.size)?;
    played(alloc, &mut painter, &mut terminal, first, &mut text)?;
    played(alloc, &mut painter, &mut terminal, second, &mut text)?;
    let units = dump(&terminal)?;
    for unit in units.as_slice() {
        text.push(char::from_u32(*unit as u32).unwrap_or('?'))?;
    }
    text.push('<')?;
    Ok(text)
}

// Whether this part is in what is told of two pictures.
fn is_told(alloc: Global, first: Picture, second: Picture, part: &str) -> Result<bool, Fail> {
    let Some(one) = view(alloc, first)? else {
        return Ok(false);
    };
    let Some(next) = view(alloc, second)? else {
        return Ok(false);
    };
    if next.size.w != one.size.w || next.size.h != one.size.h {
        return Ok(false);
    }
    let text = told(alloc, &one, &next)?;
    Ok(text.as_str().contains(part))
}

// The first row of which something else is told, or how many there are.
fn first_wrong(alloc: Global) -> Result<usize, Fail> {
    for at in 0..ROWS.len() {
        let (first, second, part) = ROWS[at];
        if !is_told(alloc, first, second, part)? {
            return Ok(at);
        }
    }
    Ok(ROWS.len())
}

#[test]
fn two_frames_and_what_is_shown(rt: HostRuntime) -> Result<(), Fail> {
    assert_eq!(rt; first_wrong(rt.alloc())?, 22);
    Ok(())
}
