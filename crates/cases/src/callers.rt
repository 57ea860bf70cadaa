//! What a caller knows of the statuses.

ghost use Rattle.std.specs.Prelude.{◌≡◌, ◌≢◌, ◌≤◌, ℕ, All, List, length, map, Some, None, string_bytes};
ghost use Rattle.con_units.specs.declared.place.Size.{Size};
ghost use Rattle.con_inspect.specs.Auditing.{AreARun};
ghost use Rattle.con_inspect.specs.Four.{four_of};
ghost use Rattle.con_outside.specs.Words.Named.{file_in};
ghost use Rattle.con_words.specs.Words.{auditing, form_of, typing, playing, solo};

use con_ending::{REPORT, TERMINAL};
use con_handlers::CtrlHandler;
use con_host::console_host;
use con_outside::{Gate, MemoryFiles, MemorySink, Sink, Source};
use std::alloc::Global;
use std::sync::Wait;
use std::thread::Threads;

/// With `type` the report's failure is no status; with `play` the terminal's is none, and nothing is shown; nor is it with no form. With `solo`
/// nothing is written to the second terminal. With `audit` nothing is shown, and 0 says that the four files are a run.
pub fn status<T: Threads + Wait + Sync, I: Source + Send, O: Sink + Send, G: Gate>(
    rt: &T,
    alloc: Global,
    words: &[String],
    files: &mut MemoryFiles,
    link: &mut I,
    term: &mut O,
    second: &mut MemorySink,
    report: &mut MemorySink,
    racks: Vec<Vec<Box<dyn CtrlHandler + Send>>>,
    gate: &G,
) -> u8
    requires few { All (λ rack. length rack.items ≤ 255) racks.items }
    ensures typed { form_of (map string_bytes words.now) ≡ Some typing → result ≢ REPORT }
    ensures played { (size : Size) → form_of (map string_bytes words.now) ≡ Some (playing size) → result ≢ TERMINAL }
    ensures untouched { (size : Size) → form_of (map string_bytes words.now) ≡ Some (playing size)
        → O.written term.new ≡ O.written term.old }
    ensures second_untouched { (name : List ℕ) → form_of (map string_bytes words.now) ≡ Some (solo name) → second.new.written ≡ second.old.written }
    ensures sound { (names link_name stream trace : List ℕ) → form_of (map string_bytes words.now) ≡ Some (auditing names link_name stream trace) → result ≡ 0
        → AreARun (Some (file_in (map string_bytes files.old.names.items) (map (λ t. t.items) files.old.texts.items))) (four_of names link_name stream trace) }
    ensures unshown { (names link_name stream trace : List ℕ) → form_of (map string_bytes words.now) ≡ Some (auditing names link_name stream trace)
        → O.written term.new ≡ O.written term.old }
    ensures no_form { form_of (map string_bytes words.now) ≡ None → O.written term.new ≡ O.written term.old }
{
    console_host(
        rt, alloc, words, files, link, term, second, report, racks, gate,
    )
}
