//! Units on whose width terminals agree.
ghost use Rattle.std.specs.Prelude.{◌≡◌};
ghost use Rattle.con_strokes.specs.Width as widths;

fn is_latin(unit: u16) -> bool
    ensures { result ≡ widths.is_latin unit }
{
    matches!(unit, 0x20..=0x7E | 0xA0..=0xAC | 0xAE..=0x2FF)
}

fn is_greek_or_cyrillic(unit: u16) -> bool
    ensures { result ≡ widths.is_greek_or_cyrillic unit }
{
    matches!(unit, 0x370..=0x3FF | 0x400..=0x482 | 0x48A..=0x52F | 0x1E00..=0x1FFF)
}

fn is_punctuation(unit: u16) -> bool
    ensures { result ≡ widths.is_punctuation unit }
{
    matches!(unit, 0x2010..=0x2027 | 0x2030..=0x205E | 0x2070..=0x20CF)
}

fn is_symbol(unit: u16) -> bool
    ensures { result ≡ widths.is_symbol unit }
{
    matches!(unit, 0x2100..=0x22FF | 0x2500..=0x25FF | 0x2800..=0x28FF | 0xFFFD)
}

/// Whether terminals agree that a unit takes one column.
#[tactic(auto, unfolding(crate::specs::Width::is_trusted))]
pub(crate) fn is_trusted(unit: u16) -> bool
    ensures { result ≡ widths.is_trusted unit }
{
    is_latin(unit) || is_greek_or_cyrillic(unit) || is_punctuation(unit) || is_symbol(unit)
}
