//! Bytes that a terminal acts on, each call with what they do to a terminal that is between sequences.
ghost use Rattle.std.specs.Prelude.{◌≡◌, ◌+◌, ◌-◌, ◌*◌, ◌<◌, ◌≤◌, ◌++◌, ◌||◌, false, length};
ghost use Rattle.std.specs.Vec.{vec_len, vec_capacity};
ghost use Rattle.con_units.specs.Stored.{stored_unit};
ghost use Rattle.con_units.specs.Decimal.{decimal};
ghost use Rattle.con_vtgram.specs.Pen.{starting_pen};
ghost use Rattle.con_term.specs.Page.{Page, erased, place, printed};
ghost use Rattle.con_term.specs.Effect.{gone_to, row_end, unpended};
ghost use Rattle.con_term.specs.Steps.{lifted, moved_down, moved_left, moved_right, moved_up};
ghost use Rattle.con_strokes.specs.Bytes.{csi_bytes, part, separated, utf8_of};
ghost use Rattle.con_strokes.specs.Leads.{Leads};
ghost use Rattle.con_strokes.specs.Places.{count_numbers, place_numbers};

/// Appends bytes.
pub(crate) fn append(out: &mut Vec<u8>, bytes: &[u8])
    requires room { vec_len out.old + length bytes.now ≤ vec_capacity out.old }
    ensures bytes { out.new.items ≡ out.old.items ++ bytes.now }
    ensures capacity { vec_capacity out.new ≡ vec_capacity out.old }
    ensures few { vec_len out.new ≤ vec_len out.old + length bytes.now }
{
    for byte in bytes {
        out.push_reserved(*byte);
    }
}

// Appends a number.
#[tactic(auto, unfolding(con_units::specs::Decimal::decimal))]
fn number(out: &mut Vec<u8>, n: u16)
    requires few { n < 1000 }
    requires room { vec_len out.old + 3 ≤ vec_capacity out.old }
    ensures bytes { out.new.items ≡ out.old.items ++ decimal n }
    ensures capacity { vec_capacity out.new ≡ vec_capacity out.old }
    ensures few { vec_len out.new ≤ vec_len out.old + 3 }
    ensures short { n < 10 → vec_len out.new ≤ vec_len out.old + 1 }
{
    if 100 <= n {
        out.push_reserved((0x30 + n / 100) as u8);
    }
    if 10 <= n {
        out.push_reserved((0x30 + n / 10 % 10) as u8);
    }
    out.push_reserved((0x30 + n % 10) as u8);
}

/// Appends a number where it is wanted, behind a semicolon where there are some before it, and tells whether there are
/// some then.
pub(crate) fn number_if(out: &mut Vec<u8>, some: bool, wanted: bool, n: u16) -> bool
    requires few { n < 1000 }
    requires room { vec_len out.old + 4 ≤ vec_capacity out.old }
    ensures bytes { out.new.items ≡ out.old.items ++ separated some (part wanted n) }
    ensures some { result ≡ (some || wanted) }
    ensures capacity { vec_capacity out.new ≡ vec_capacity out.old }
    ensures few { vec_len out.new ≤ vec_len out.old + 4 }
    ensures short { some ≡ false → n < 10 → vec_len out.new ≤ vec_len out.old + 1 }
{
    if !wanted {
        return some;
    }
    if some {
        out.push_reserved(0x3B);
    }
    number(out, n);
    true
}

/// Whether one of two holds.
pub fn either(a: bool, b: bool) -> bool
    ensures { result ≡ (a || b) }
{
    a || b
}

// The control sequence of a place.
#[tactic(auto, unfolding(crate::specs::Bytes::csi_bytes))]
fn place_bytes(out: &mut Vec<u8>, row: u16, column: u16)
    requires few { (row < 1000) × (column < 1000) }
    requires room { vec_len out.old + 11 ≤ vec_capacity out.old }
    ensures bytes { out.new.items ≡ out.old.items ++ csi_bytes (place_numbers row column) 0x48 }
    ensures capacity { vec_capacity out.new ≡ vec_capacity out.old }
    ensures few { vec_len out.new ≤ vec_len out.old + 11 }
{
    out.push_reserved(0x1B);
    out.push_reserved(0x5B);
    let inward = column != 1;
    let named = either(inward, row != 1);
    let some = number_if(out, false, named, row);
    let _ = number_if(out, some, inward, column);
    out.push_reserved(0x48);
}

/// Puts the cursor on a row and a column, counted from 1.
pub(crate) fn go_to(out: &mut Vec<u8>, row: u16, column: u16)
    requires few { (row < 1000) × (column < 1000) }
    requires room { vec_len out.old + 11 ≤ vec_capacity out.old }
    ensures leads { (s : Page) → Leads out.old.items out.new.items s (gone_to s row column) 0 }
    ensures capacity { vec_capacity out.new ≡ vec_capacity out.old }
    ensures few { vec_len out.new ≤ vec_len out.old + 11 }
{
    place_bytes(out, row, column);
}

/// Brings the cursor to the first column of its row.
pub(crate) fn carriage_return(out: &mut Vec<u8>)
    requires room { vec_len out.old + 1 ≤ vec_capacity out.old }
    ensures leads { (s : Page) → Leads out.old.items out.new.items s (record s { x = 0; pending = false }) 0 }
    ensures capacity { vec_capacity out.new ≡ vec_capacity out.old }
    ensures few { vec_len out.new ≤ vec_len out.old + 1 }
{
    append(out, b"\r");
}

/// Brings the cursor to the first column of the next row, where there is one.
pub(crate) fn next_row(out: &mut Vec<u8>)
    requires room { vec_len out.old + 2 ≤ vec_capacity out.old }
    ensures leads { (s : Page) → s.y + 1 < s.h → Leads out.old.items out.new.items s (record s { x = 0; y = s.y + 1; pending = false }) 0 }
    ensures capacity { vec_capacity out.new ≡ vec_capacity out.old }
    ensures few { vec_len out.new ≤ vec_len out.old + 2 }
{
    append(out, b"\r\n");
}

/// Brings the cursor to the first column of the row behind the next one, where there is one.
pub(crate) fn second_row(out: &mut Vec<u8>)
    requires room { vec_len out.old + 3 ≤ vec_capacity out.old }
    ensures leads { (s : Page) → s.y + 2 < s.h → Leads out.old.items out.new.items s (record s { x = 0; y = s.y + 2; pending = false }) 0 }
    ensures capacity { vec_capacity out.new ≡ vec_capacity out.old }
    ensures few { vec_len out.new ≤ vec_len out.old + 3 }
{
    append(out, b"\r\n\n");
}

/// Lifts all rows by one and brings the cursor to the first column of the last one, where it stands in that row.
pub fn new_row(out: &mut Vec<u8>)
    requires room { vec_len out.old + 2 ≤ vec_capacity out.old }
    ensures leads { (s : Page) → s.y + 1 ≡ s.h → s.pending ≡ false → Leads out.old.items out.new.items s (record (lifted s 1) { x = 0 }) 0 }
    ensures capacity { vec_capacity out.new ≡ vec_capacity out.old }
    ensures few { vec_len out.new ≤ vec_len out.old + 2 }
{
    append(out, b"\r\n");
}

/// Brings the cursor one column back.
pub(crate) fn backspace(out: &mut Vec<u8>)
    requires room { vec_len out.old + 1 ≤ vec_capacity out.old }
    ensures leads { (s : Page) → Leads out.old.items out.new.items s (record s { x = s.x - 1; pending = false }) 0 }
    ensures capacity { vec_capacity out.new ≡ vec_capacity out.old }
    ensures few { vec_len out.new ≤ vec_len out.old + 1 }
{
    append(out, b"\x08");
}

#[tactic(auto, unfolding(crate::specs::Bytes::utf8_of))]
fn unit_bytes(out: &mut Vec<u8>, unit: u16)
    requires room { vec_len out.old + 3 ≤ vec_capacity out.old }
    ensures bytes { out.new.items ≡ out.old.items ++ utf8_of unit }
    ensures capacity { vec_capacity out.new ≡ vec_capacity out.old }
    ensures few { vec_len out.new ≤ vec_len out.old + 3 }
{
    if unit < 0x80 {
        out.push_reserved(unit as u8);
    } else if unit < 0x800 {
        out.push_reserved((0xC0 + unit / 64) as u8);
        out.push_reserved((0x80 + unit % 64) as u8);
    } else {
        out.push_reserved((0xE0 + unit / 4096) as u8);
        out.push_reserved((0x80 + unit / 64 % 64) as u8);
        out.push_reserved((0x80 + unit % 64) as u8);
    }
}

/// Prints a unit.
pub(crate) fn print(out: &mut Vec<u8>, unit: u16)
    requires shown { stored_unit unit ≡ unit }
    requires room { vec_len out.old + 3 ≤ vec_capacity out.old }
    ensures leads { (s : Page) → Leads out.old.items out.new.items s (printed unit s) 1 }
    ensures capacity { vec_capacity out.new ≡ vec_capacity out.old }
    ensures few { vec_len out.new ≤ vec_len out.old + 3 }
{
    unit_bytes(out, unit);
}

/// Shows or hides the cursor.
pub fn show(out: &mut Vec<u8>, visible: bool)
    requires room { vec_len out.old + 6 ≤ vec_capacity out.old }
    ensures leads { (s : Page) → Leads out.old.items out.new.items s (record s { visible = visible }) 0 }
    ensures capacity { vec_capacity out.new ≡ vec_capacity out.old }
    ensures few { vec_len out.new ≤ vec_len out.old + 6 }
{
    if visible {
        append(out, b"\x1B[?25h");
    } else {
        append(out, b"\x1B[?25l");
    }
}

/// Brings a terminal to known ground.
pub fn ground(out: &mut Vec<u8>)
    requires room { vec_len out.old + 53 ≤ vec_capacity out.old }
    ensures leads { (s : Page) → Leads out.old.items out.new.items s (record s { pen = starting_pen }) 0 }
    ensures capacity { vec_capacity out.new ≡ vec_capacity out.old }
    ensures few { vec_len out.new ≤ vec_len out.old + 53 }
{
    append(
        out,
        b"\x1B[!p\x1B[?69l\x1B[?6l\x1B[4l\x1B[20l\x1B[?7h\x1B[?5l\x1B[?2026l\x1B[r\x1B(B\x0F\x1B[0m",
    );
}

/// Erases from the cursor to the end of its row.
pub fn erase_row(out: &mut Vec<u8>)
    requires room { vec_len out.old + 3 ≤ vec_capacity out.old }
    ensures leads { (s : Page) → Leads out.old.items out.new.items s (unpended (erased s (place s) (row_end s))) (s.w - s.x) }
    ensures capacity { vec_capacity out.new ≡ vec_capacity out.old }
    ensures few { vec_len out.new ≤ vec_len out.old + 3 }
{
    append(out, b"\x1B[K");
}

/// Erases n cells from the cursor on, in its row.
pub fn erase_some(out: &mut Vec<u8>, n: u16)
    requires few { (n < 1000) × (0 < n) }
    requires room { vec_len out.old + 7 ≤ vec_capacity out.old }
    ensures leads { (s : Page) → s.x + n ≤ s.w → Leads out.old.items out.new.items s (unpended (erased s (place s) (place s + n))) n }
    ensures capacity { vec_capacity out.new ≡ vec_capacity out.old }
    ensures few { vec_len out.new ≤ vec_len out.old + 7 }
{
    count_bytes(out, n, 0x58);
}

/// Erases from the cursor to the end of the page.
pub fn erase_rest(out: &mut Vec<u8>)
    requires room { vec_len out.old + 3 ≤ vec_capacity out.old }
    ensures leads { (s : Page) → Leads out.old.items out.new.items s (unpended (erased s (place s) (s.h * s.w))) (s.h * s.w - place s) }
    ensures capacity { vec_capacity out.new ≡ vec_capacity out.old }
    ensures few { vec_len out.new ≤ vec_len out.old + 3 }
{
    append(out, b"\x1B[J");
}

// The control sequence of a count.
#[tactic(auto, unfolding(crate::specs::Bytes::csi_bytes))]
fn count_bytes(out: &mut Vec<u8>, n: u16, last: u8)
    requires few { n < 1000 }
    requires room { vec_len out.old + 7 ≤ vec_capacity out.old }
    ensures bytes { out.new.items ≡ out.old.items ++ csi_bytes (count_numbers n) last }
    ensures capacity { vec_capacity out.new ≡ vec_capacity out.old }
    ensures few { vec_len out.new ≤ vec_len out.old + 7 }
    ensures short { n < 10 → vec_len out.new ≤ vec_len out.old + 4 }
{
    out.push_reserved(0x1B);
    out.push_reserved(0x5B);
    let _ = number_if(out, false, n != 1, n);
    out.push_reserved(last);
}

/// Lifts all rows by n.
pub fn up(out: &mut Vec<u8>, n: u16)
    requires few { (n < 1000) × (0 < n) }
    requires room { vec_len out.old + 7 ≤ vec_capacity out.old }
    ensures leads { (s : Page) → Leads out.old.items out.new.items s (lifted s n) 0 }
    ensures capacity { vec_capacity out.new ≡ vec_capacity out.old }
    ensures few { vec_len out.new ≤ vec_len out.old + 7 }
{
    count_bytes(out, n, 0x53);
}

/// Brings the cursor n columns on in its row.
pub(crate) fn right(out: &mut Vec<u8>, n: u16)
    requires few { (n < 1000) × (0 < n) }
    requires room { vec_len out.old + 7 ≤ vec_capacity out.old }
    ensures leads { (s : Page) → Leads out.old.items out.new.items s (moved_right s n) 0 }
    ensures capacity { vec_capacity out.new ≡ vec_capacity out.old }
    ensures few { vec_len out.new ≤ vec_len out.old + 7 }
{
    count_bytes(out, n, 0x43);
}

/// Brings the cursor n columns back in its row.
pub(crate) fn left(out: &mut Vec<u8>, n: u16)
    requires few { (n < 1000) × (0 < n) }
    requires room { vec_len out.old + 7 ≤ vec_capacity out.old }
    ensures leads { (s : Page) → Leads out.old.items out.new.items s (moved_left s n) 0 }
    ensures capacity { vec_capacity out.new ≡ vec_capacity out.old }
    ensures few { vec_len out.new ≤ vec_len out.old + 7 }
{
    count_bytes(out, n, 0x44);
}

/// Brings the cursor n rows down in its column.
pub(crate) fn down(out: &mut Vec<u8>, n: u16)
    requires few { (n < 10) × (0 < n) }
    requires room { vec_len out.old + 7 ≤ vec_capacity out.old }
    ensures leads { (s : Page) → Leads out.old.items out.new.items s (moved_down s n) 0 }
    ensures capacity { vec_capacity out.new ≡ vec_capacity out.old }
    ensures few { vec_len out.new ≤ vec_len out.old + 4 }
{
    count_bytes(out, n, 0x42);
}

/// Brings the cursor n rows up in its column.
pub(crate) fn above(out: &mut Vec<u8>, n: u16)
    requires few { (n < 10) × (0 < n) }
    requires room { vec_len out.old + 7 ≤ vec_capacity out.old }
    ensures leads { (s : Page) → Leads out.old.items out.new.items s (moved_up s n) 0 }
    ensures capacity { vec_capacity out.new ≡ vec_capacity out.old }
    ensures few { vec_len out.new ≤ vec_len out.old + 4 }
{
    count_bytes(out, n, 0x41);
}
