//! Colours of a table of 256, and the nearest ones of sixteen.
ghost use Rattle.std.specs.Prelude.{◌≡◌, ◌<◌, ◌≤◌, if◌then◌else◌};
ghost use Rattle.con_units.specs.Shade.{near as near_to, near_in_cube, near_grey};
ghost use Rattle.con_units.specs.Words.Shade.{shade_of, IsNearSo};

/// What a cell keeps of a colour beside the four bits of it in an attribute word.
#[derive(Clone, Copy, PartialEq, Eq)]
pub enum Shade {
    /// One of the sixteen colours of the word.
    Plain,
    /// A colour of the table of 256 by its index, 16 to 255.
    Index(u8),
}

impl Shade {
    /// The shade of a colour of the table of 256: 0 to 15 are the colours of an attribute word, and plain.
    pub fn of(number: u8) -> Shade
        ensures { result ≡ shade_of number }
    {
        if number < 16 {
            Shade::Plain
        } else {
            Shade::Index(number)
        }
    }
}

// The bit's worth where it is set.
fn worth(set: bool, bit: u8) -> u8
    ensures { result ≡ (if set then bit else 0) }
{
    if set { bit } else { 0 }
}

fn in_cube(red: u8, green: u8, blue: u8) -> u8
    ensures value { result ≡ near_in_cube red green blue }
    ensures small { result < 16 }
{
    let bright = red == 5 || green == 5 || blue == 5;
    worth(3 <= red, 4) + worth(3 <= green, 2) + worth(3 <= blue, 1) + worth(bright, 8)
}

fn of_greys(quarter: u8) -> u8
    ensures value { result ≡ near_grey quarter }
    ensures small { result < 16 }
{
    match quarter {
        0 => 0,
        1 => 8,
        2 => 7,
        _ => 15,
    }
}

/// The colour of the sixteen, 0 to 15 in the bits of an attribute word, that stands for an index of 16 to 255. From 16
/// on there are six reds, greens and blues, from 232 on 24 greys.
#[tactic(auto, unfolding(crate::specs::Shade::near))]
pub fn near(index: u8) -> u8
    requires { 16 ≤ index }
    ensures value { result ≡ near_to index }
    ensures small { result < 16 }
{
    if index <= 231 {
        let place = index - 16;
        in_cube(place / 36, place / 6 % 6, place % 6)
    } else {
        of_greys((index - 232) / 6)
    }
}

/// The parts of an index: 16 + 36 r + 6 g + b with r, g and b of 0 to 5, or 232 + 6 q + k with k of 0 to 5.
pub fn is_near_by_parts()
    ensures { IsNearSo }
{}
