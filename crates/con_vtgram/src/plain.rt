//! Runs of printable ASCII.
ghost use Rattle.std.specs.Prelude.{◌≡◌, ◌<◌, ◌≤◌, true, false, take, length, slice_index};
ghost use Rattle.std.specs.List.{list_all};
ghost use Rattle.con_units.specs.Plain.{is_plain as is_plain_unit};
ghost use Rattle.con_vtgram.specs.Plain.{PlainIsPrinted};

/// Whether the unit is printable ASCII, SPACE to `~`.
pub fn is_plain(unit: u16) -> bool
    ensures { result ≡ is_plain_unit unit }
{
    0x20 <= unit && unit <= 0x7E
}

/// How many units at the front are printable ASCII.
pub fn plain_count(units: &[u16]) -> usize
    ensures few { result ≤ length units.now }
    ensures plain { list_all is_plain_unit (take result units.now) ≡ true }
    ensures longest { result < length units.now → is_plain_unit (slice_index units.now result) ≡ false }
{
    for (at, unit) in units.iter().enumerate() {
        if !is_plain(*unit) {
            return at;
        }
    }
    units.len()
}

/// Between sequences printable ASCII is printed, unit by unit.
pub fn plain_is_printed()
    ensures { PlainIsPrinted }
{}
