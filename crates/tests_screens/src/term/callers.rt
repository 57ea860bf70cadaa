//! What a caller knows of a terminal that it holds.
ghost use Rattle.std.specs.Prelude.{◌≡◌, ◌++◌, ◌*◌, ◌≤◌, true, length, flat_map, vec_capacity};
ghost use Rattle.con_units.specs.Split.{split_after};
ghost use Rattle.con_units.specs.Utf8.{utf8};
ghost use Rattle.con_term.specs.Page.{IsPage};
ghost use Rattle.con_term.specs.Play.{play, units_of};
ghost use Rattle.con_term.specs.Terminal.{IsTerminal};

use con_dump::decode;
use con_term::Terminal;
use con_units::{Utf8, is_read_however_cut};

/// Plays one text after another: the terminal is that of both at once, of the same sides, and sound.
pub fn play_both(terminal: &mut Terminal, first: &[u8], second: &[u8])
    ensures played { terminal.new ≡ play terminal.old (first.now ++ second.now) }
    ensures kept { IsPage terminal.new.page }
    ensures sides { terminal.new.page.w ≡ terminal.old.page.w }
{
    terminal.play_all(first);
    terminal.play_all(second);
}

/// Plays bytes until the terminal is between sequences, or all are played.
pub fn is_settled(terminal: &mut Terminal, bytes: &[u8]) -> bool
    ensures { result ≡ true → IsTerminal terminal.old.page.w terminal.old.page.h terminal.new }
{
    terminal.play_all(bytes);
    terminal.is_between()
}

/// Decodes one text after another: the units are those of both at once, and so are the bytes that are held.
pub fn decode_both(
    decoder: &mut Utf8,
    first: &[u8],
    second: &[u8],
    front: &mut Vec<u16>,
    rest: &mut Vec<u16>,
)
    requires front_room { 4 * length first.now ≤ vec_capacity front.old }
    requires rest_room { 4 * length second.now ≤ vec_capacity rest.old }
    ensures units { front.new.items ++ rest.new.items ≡ flat_map units_of (split_after utf8 decoder.old (first.now ++ second.now)).items }
    ensures held { decoder.new ≡ (split_after utf8 decoder.old (first.now ++ second.now)).tail }
{
    is_read_however_cut();
    decode(decoder, first, front);
    decode(decoder, second, rest);
}
