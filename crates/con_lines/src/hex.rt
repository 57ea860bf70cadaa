//! Hexadecimal digits.

ghost use Rattle.std.specs.Prelude.{◌≡◌, ◌<◌, List, [], ◌∷◌, ◌++◌, IfOk};
ghost use Rattle.std.specs.Char.{digit_char};
ghost use Rattle.con_lines.specs.Hex.{hex_units, hex_bytes};
ghost use Rattle.con_lines.specs.Shown.{cell_words};

use con_units::{Cell, OutOfMemory};

/// The lower-case digit.
fn digit(d: u8) -> u8
    requires { d < 16 }
    ensures { result ≡ digit_char d }
{
    if d < 10 { 48 + d } else { 87 + d }
}

/// The four digits of a unit.
fn unit_digits(unit: u16) -> [u8; 4]
    ensures { hex_units (unit ∷ []) ≡ result }
{
    [
        digit((unit / 4096) as u8),
        digit((unit / 256 % 16) as u8),
        digit((unit / 16 % 16) as u8),
        digit((unit % 16) as u8),
    ]
}

/// Four digits for each unit.
pub fn push_units(out: &mut Vec<u8>, units: &[u16]) -> Result<(), OutOfMemory>
    ensures { IfOk result (λ _. out.new.items ≡ out.old.items ++ hex_units units.now) }
{
    for unit in units {
        let Ok(()) = out.extend_from_slice(&unit_digits(*unit)) else {
            return Err(OutOfMemory);
        };
    }
    Ok(())
}

/// Two digits for each byte.
pub fn push_bytes(out: &mut Vec<u8>, bytes: &[u8]) -> Result<(), OutOfMemory>
    ensures { IfOk result (λ _. out.new.items ≡ out.old.items ++ hex_bytes bytes.now) }
{
    for byte in bytes {
        let Ok(()) = out.extend_from_slice(&[digit(*byte / 16), digit(*byte % 16)]) else {
            return Err(OutOfMemory);
        };
    }
    Ok(())
}

/// Four digits for the unit of each cell, and four for its attribute word.
pub fn push_cells(out: &mut Vec<u8>, cells: &[Cell]) -> Result<(), OutOfMemory>
    ensures { IfOk result (λ _. out.new.items ≡ out.old.items ++ hex_units (cell_words cells.now)) }
{
    for cell in cells {
        given!(push_units(out, &[cell.unit(), cell.attr().bits()]));
    }
    Ok(())
}
