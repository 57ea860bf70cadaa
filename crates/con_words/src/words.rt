//! The words of the command line.
ghost use Rattle.std.specs.Prelude.{◌≡◌, ℕ, ◌+◌, ◌*◌, ◌-◌, ◌≤◌, ◌<◌, ◌==◌};
ghost use Rattle.std.specs.Prelude.{List, [], ◌∷◌, length, map, take, drop, Option, Some, None, IfSome, IfOk, IsTrue, string_bytes};
ghost use Rattle.std.specs.List.{position};

use clap::ArgMatches;
use clap::error::ErrorKind;
use con_command::{Files, files, matches, word};
use con_units::limits::{MOST_COLUMNS, MOST_WINDOW_ROWS};
use con_units::{OutOfMemory, Size};
use std::alloc::Global;

/// What the words ask for.
#[derive(Clone, Copy, PartialEq, Eq, Drop)]
pub enum Form<'a> {
    /// `type`: the link's bytes are a text; one frame that shows it goes to the terminal.
    Type,
    /// `play WxH`: the link's bytes are played on a terminal of that size; its dump goes to the report.
    Play(Size),
    /// `run SESSION`: the session of the file of this name runs by threads; its history goes to the report.
    Run(&'a str),
    /// `solo SESSION`: the session of the file of this name runs by turns; its history goes to the report.
    Solo(&'a str),
    /// `mirror SESSION`: as `solo`, and a second terminal that attaches and detaches by frames of the link shows a part of it.
    Mirror(&'a str),
    /// `audit SESSION LINK STREAM REPORT`: the files of these names are a session, a link, and what a run wrote; whether they are a run that was done goes
    /// to the report.
    Audit {
        session: &'a str,
        link: &'a str,
        stream: &'a str,
        report: &'a str,
    },
    /// `gen N`: the generated session of this number runs by turns; its summary goes to the report.
    Gen(u32),
}

impl<'a> Form<'a> {
    ghost use Rattle.con_words.specs.Words.{form_of};
    ghost use Rattle.con_words.specs.Asked.{asked_of, IsWindowed};

    /// The form that the words are, and `None` where they are none: `type` alone, `play` with a size of 1 to 512
    /// by 1 to 256, in decimal digits without a sign or a leading zero, joined by `x`, `run`, `solo` or `mirror` with a name, `audit` with four, or `gen` with
    /// a number of 0 to 4,294,967,295, in decimal digits without a sign or a leading zero. An empty word and one that begins with `-` stand in no form.
    pub fn of(alloc: Global, words: &'a [String]) -> Result<Option<Form<'a>>, OutOfMemory>
        ensures form { IfOk result (λ form. option_map asked_of form ≡ form_of (map string_bytes words.entry.now)) }
        ensures window { IfOk result (λ form. IfSome form IsWindowed) }
    {
        if !may_be_form(words) {
            return Ok(None);
        }
        match matches(alloc, words) {
            Ok(found) => Ok(form_met(&found)),
            Err(error) if is_memory(error.kind()) => Err(OutOfMemory),
            Err(_) => Ok(None),
        }
    }
}

ghost use Rattle.con_words.specs.Words.{is_word, number_in, size_of};
ghost use Rattle.con_words.specs.Words.Words.{IsWindow};
ghost use Rattle.con_words.specs.Spelling.{is_first, is_digit, number_of, side_of, is_x, digit_of, with_digit, spelled_after, seed_of};
ghost use Rattle.con_words.specs.Asked.{asked_of, IsWindowed};
ghost use Rattle.con_command.specs.Command.{files_shown};
ghost use Rattle.con_words.specs.Naming.{may_be_form, of_size, of_name, of_number, of_run, of_mirror, of_files, form_named, form_in, form_met};
ghost use Rattle.std.specs.Prelude.{true, false, option_map};
ghost use Rattle.std.specs.List.{list_all};
ghost use Rattle.clap.specs.Words.{found_of, rows_of, subcommand_rows_of};

fn is_memory(kind: ErrorKind) -> bool
    ensures memory { result ≡ true → kind ≡ ErrorKind.OutOfMemory }
    ensures other { result ≡ false → ¬ (kind ≡ ErrorKind.OutOfMemory) }
{
    kind == ErrorKind::OutOfMemory
}

fn is_word(word: &str) -> bool
    ensures { result ≡ is_word word.now }
{
    match word.as_bytes() {
        [] => false,
        [byte, ..] => *byte != 0x2D,
    }
}

// At most two words, or `audit` and four more, of which none is empty or begins with '-'.
fn may_be_form(words: &[String]) -> bool
    ensures { result ≡ may_be_form (map string_bytes words.now) }
{
    match words {
        [] => true,
        [one] => is_word(one.as_str()),
        [one, two] => is_word(one.as_str()) && is_word(two.as_str()),
        [name, session, link, stream, report] => {
            name.as_str() == "audit"
                && is_word(session.as_str())
                && is_word(link.as_str())
                && is_word(stream.as_str())
                && is_word(report.as_str())
        }
        _ => false,
    }
}

// The form that the command met.
fn form_met<'a>(found: &ArgMatches<'a>) -> Option<Form<'a>>
    ensures form { option_map asked_of result ≡ form_met (subcommand_rows_of found.now) }
    ensures window { IfSome result IsWindowed }
{
    match found.subcommand() {
        Some((name, inner)) => form_in(name, inner),
        None => None,
    }
}

// The form of a subcommand with its words.
fn form_in<'a>(name: &str, inner: &ArgMatches<'a>) -> Option<Form<'a>>
    ensures form { option_map asked_of result ≡ form_in (name.now, rows_of (found_of inner.now)) }
    ensures window { IfSome result IsWindowed }
{
    if name == "audit" {
        auditing(files(inner))
    } else {
        form_of_name(name, word(inner))
    }
}

fn auditing<'a>(files: Files<'a>) -> Option<Form<'a>>
    ensures form { option_map asked_of result ≡ of_files (files_shown files.entry) }
    ensures window { IfSome result IsWindowed }
{
    let (session, link, stream, report) = files;
    Some(Form::Audit {
        session: session?,
        link: link?,
        stream: stream?,
        report: report?,
    })
}

fn form_of_name<'a>(name: &str, word: Option<&'a str>) -> Option<Form<'a>>
    ensures form { option_map asked_of result ≡ form_named (name.now, option_map (λ s. s.now) word.entry) }
    ensures window { IfSome result IsWindowed }
{
    if name == "type" {
        Some(Form::Type)
    } else if name == "play" {
        playing(word)
    } else if name == "solo" {
        turning(word)
    } else if name == "gen" {
        generating(word)
    } else if name == "run" {
        running(word)
    } else if name == "mirror" {
        mirroring(word)
    } else {
        None
    }
}

fn playing<'a>(word: Option<&'a str>) -> Option<Form<'a>>
    ensures form { option_map asked_of result ≡ of_size (option_map (λ s. s.now) word.entry) }
    ensures window { IfSome result IsWindowed }
{
    let Some(word) = word else {
        return None;
    };
    match size_in(word.as_bytes()) {
        Some(size) => Some(Form::Play(size)),
        None => None,
    }
}

fn turning<'a>(word: Option<&'a str>) -> Option<Form<'a>>
    ensures form { option_map asked_of result ≡ of_name (option_map (λ s. s.now) word.entry) }
    ensures window { IfSome result IsWindowed }
{
    match word {
        Some(name) => Some(Form::Solo(name)),
        None => None,
    }
}

fn running<'a>(word: Option<&'a str>) -> Option<Form<'a>>
    ensures form { option_map asked_of result ≡ of_run (option_map (λ s. s.now) word.entry) }
    ensures window { IfSome result IsWindowed }
{
    match word {
        Some(name) => Some(Form::Run(name)),
        None => None,
    }
}

fn mirroring<'a>(word: Option<&'a str>) -> Option<Form<'a>>
    ensures form { option_map asked_of result ≡ of_mirror (option_map (λ s. s.now) word.entry) }
    ensures window { IfSome result IsWindowed }
{
    match word {
        Some(name) => Some(Form::Mirror(name)),
        None => None,
    }
}

fn generating<'a>(word: Option<&'a str>) -> Option<Form<'a>>
    ensures form { option_map asked_of result ≡ of_number (option_map (λ s. s.now) word.entry) }
    ensures window { IfSome result IsWindowed }
{
    let Some(word) = word else {
        return None;
    };
    match seed_in(word.as_bytes()) {
        Some(seed) => Some(Form::Gen(seed)),
        None => None,
    }
}

fn first(byte: u8) -> bool
    ensures first { result ≡ is_first byte }
    ensures some { result ≡ true → 0x31 ≤ byte }
{
    0x31 <= byte && byte <= 0x39
}

fn digit(byte: u8) -> bool
    ensures { result ≡ is_digit byte }
{
    0x30 <= byte && byte <= 0x39
}

fn value(byte: u8) -> u16
    ensures { result ≡ digit_of byte }
{
    byte.saturating_sub(0x30) as u16
}

// The number that one to three digits spell.
fn number(digits: &[u8]) -> Option<u16>
    ensures number { result ≡ number_of digits.now }
    ensures some { IfSome result (λ n. 0 < n) }
{
    match digits {
        [a] if first(*a) => Some(value(*a)),
        [a, b] if first(*a) && digit(*b) => Some(value(*a) * 10 + value(*b)),
        [a, b, c] if first(*a) && digit(*b) && digit(*c) => {
            Some(value(*a) * 100 + value(*b) * 10 + value(*c))
        }
        _ => None,
    }
}

fn side_within(digits: &[u8], most: u16) -> Option<u16>
    ensures side { result ≡ side_of digits.now most }
    ensures inside { IfSome result (λ n. (0 < n) × (n ≤ most)) }
{
    match number(digits) {
        Some(n) if n <= most => Some(n),
        _ => None,
    }
}

// The number of 1 to `most` that the digits spell.
fn side(digits: &[u8], most: u16) -> Option<u16>
    requires { most ≤ 999 }
    ensures side { result ≡ number_in 1 most digits.now }
    ensures inside { IfSome result (λ n. (0 < n) × (n ≤ most)) }
{
    side_within(digits, most)
}

fn place_of_x(word: &[u8]) -> Option<usize>
    ensures { result ≡ position is_x word.now }
{
    word.iter().position(|byte| *byte == 0x78)
}

fn size_in(word: &[u8]) -> Option<Size>
    ensures size { result ≡ size_of word.now }
    ensures window { IfSome result IsWindow }
{
    let Some(at) = place_of_x(word) else {
        return None;
    };
    let Some(w) = side(&word[..at], MOST_COLUMNS) else {
        return None;
    };
    let Some(h) = side(&word[at + 1..], MOST_WINDOW_ROWS) else {
        return None;
    };
    Some(Size { w, h })
}

// The number with one digit more, where it is one of a session.
fn with_digit(number: u32, byte: u8) -> Option<u32>
    ensures { result ≡ with_digit number byte }
{
    let more = number as u64 * 10 + value(byte) as u64;
    if digit(byte) && more <= 4_294_967_295 {
        Some(more as u32)
    } else {
        None
    }
}

// The number that all digits spell.
fn spelled(digits: &[u8]) -> Option<u32>
    ensures { result ≡ spelled_after 0 digits.now }
{
    let mut number = 0;
    for byte in digits {
        let Some(more) = with_digit(number, *byte) else {
            return None;
        };
        number = more;
    }
    Some(number)
}

fn seed(word: &[u8]) -> Option<u32>
    ensures { result ≡ seed_of word.now }
{
    match word {
        [] => None,
        [0x30] => Some(0),
        [0x30, ..] => None,
        _ => spelled(word),
    }
}

// The number of a session that the word spells.
fn seed_in(word: &[u8]) -> Option<u32>
    ensures { result ≡ number_in 0 4294967295 word.now }
{
    seed(word)
}
