//! `play`: the link's bytes on the specified terminal, and its dump.

ghost use Rattle.std.specs.Prelude.{◌≡◌, ℕ, ◌+◌, ◌<◌, ◌≤◌, ◌⊎◌, List, [], ◌++◌, length, take, Option, Some, None, IfSome, IsTrue};
ghost use Rattle.con_outside.specs.Outside.{Rose, then_left, then_written};
ghost use Rattle.con_text.specs.Playing.{Played};

use crate::reading::{Listener, ReadEnd, read_link};
use crate::text::encoded;
use con_dump::dump;
use con_ending::{DONE, LINK, MEMORY, REPORT, TOO_LONG, close, status_after};
use con_lines::EndLine;
use con_outside::{Sink, Source, write_whole};
use con_term::Terminal;
use con_units::{OutOfMemory, Size};
use std::alloc::Global;

impl Listener for Terminal {
    ghost use Rattle.std.specs.Prelude.{◌≡◌};
    ghost use Rattle.con_term.specs.Play.{play};
    ghost use Rattle.con_term.specs.PlayLaws.{play-none};
    ghost use Rattle.con_text.specs.PlayedInTurn.{played_in_turn};

    ghost became = { λ before bytes after. after ≡ play before bytes };

    fn hear(&mut self, bytes: &[u8]) -> Result<(), OutOfMemory> {
        self.play_all(bytes);
        Ok(())
    }

    ghost nothing_heard = { play-none };

    ghost heard_in_turn = { played_in_turn };
}

/// The dump of a terminal, as bytes.
pub fn dumped(alloc: Global, terminal: &Terminal) -> Result<Vec<u8>, OutOfMemory>
    ensures { IfOk result (λ bytes. bytes.items ≡ dump_bytes terminal.now.page) }
{
    let units = dump(terminal)?;
    encoded(alloc, units.as_slice())
}

ghost use Rattle.std.specs.Prelude.{IfOk};
ghost use Rattle.con_text.specs.Words.Playing.{dump_bytes};

/// Plays the link's bytes to its end on a blank terminal of this size, and writes its dump to the report.
pub fn host_play<I: Source, R: Sink>(alloc: Global, size: Size, link: &mut I, report: &mut R) -> u8
    requires some { (0 < size.w) × (0 < size.h) }
    requires few { (size.w ≤ 512) × (size.h ≤ 256) }
    ensures outcome { (text : List ℕ) × (I.left link.old ≡ then_left text (I.left link.new))
        × Played result size text (I.left link.new) (R.written report.old) (R.written report.new) (Rose (R.faults report.old) (R.faults report.new)) }
    ensures link_failed { result ≡ LINK → Rose (I.faults link.old) (I.faults link.new) }
    ensures report_failed { result ≡ REPORT → Rose (R.faults report.old) (R.faults report.new) }
    ensures never_fall { (I.faults link.old ≤ I.faults link.new) × (R.faults report.old ≤ R.faults report.new) }
{
    let Ok(mut terminal) = Terminal::new(alloc, size) else {
        return MEMORY;
    };
    match read_link(link, &mut terminal) {
        ReadEnd::Failed => return close(alloc, report, &EndLine::Word(LINK, "link")),
        ReadEnd::TooLong => return close(alloc, report, &EndLine::Word(TOO_LONG, "too long")),
        ReadEnd::Memory => return MEMORY,
        ReadEnd::End => {}
    }
    let Ok(bytes) = dumped(alloc, &terminal) else {
        return MEMORY;
    };
    status_after(write_whole(report, bytes.as_slice()), DONE)
}
