//! Which controls wake a read.
ghost use Rattle.std.specs.Prelude.{◌≡◌, ◌==◌, not};
ghost use Rattle.con_cooked.specs.Mask.{typed_unit, is_waking, is_masked};
ghost use Rattle.con_cooked.specs.Parts.{waking_unit};

use con_records::Record;

fn is_waking(mask: u32, unit: u16) -> bool
    ensures { result ≡ is_waking mask unit }
{
    0 < unit && unit < 32 && (mask >> unit) % 2 == 1
}

// The unit of a key-down, or 0.
fn typed_unit(pressed: &Record) -> u16
    ensures { result ≡ typed_unit pressed.now }
{
    match pressed {
        Record::Key(key) => if key.down { key.unit } else { 0 },
        Record::Mouse(_) => 0,
        Record::Size(_) => 0,
        Record::Menu(_) => 0,
        Record::Focus(_) => 0,
    }
}

/// The control by which a record wakes a read, or 0 where it does not.
pub fn waking_unit(mask: u32, pressed: &Record) -> u16
    ensures unit { result ≡ waking_unit mask pressed.now }
    ensures masked { (result == 0) ≡ not (is_masked mask pressed.now) }
{
    let unit = typed_unit(pressed);
    if is_waking(mask, unit) { unit } else { 0 }
}
