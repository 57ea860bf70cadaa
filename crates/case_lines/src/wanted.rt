//! Wanted lines beside those that came.
ghost use Rattle.std.specs.Prelude.{◌≡◌, ◌≢◌, ◌<◌, ◌≤◌, ◌+◌, ◌-◌, ℕ, ◌↔◌, true, false, length, take, drop, map, max, string_bytes, MatchOption, MatchResult};
ghost use Rattle.std.specs.List.{list_all};
ghost use Rattle.con_units.specs.Units.{is_space};
ghost use Rattle.case_lines.specs.Wanted.{number_len, begins, first_is, begins_with, same_len, from_gap, BehindSome, IsAsWanted};
ghost use Rattle.case_lines.specs.Wanted.{is_told as told_by, is_blank_up_to as blank_up_to, is_shown as shown_by, is_line as line_by, is_blank as blank_row, is_any as any_line, block_len as len_by};

use crate::line::Line;

/// What stands for a number in a wanted line.
pub const NUMBER: u8 = 0;

/// How a line is compared with a wanted one.
#[derive(Clone, Copy, PartialEq, Eq)]
pub enum Way {
    Report,
    Dump,
    Picture,
}

/// A wanted line, and what it stands for.
#[derive(Drop)]
pub struct Wanted<'a> {
    pub line: Line<'a>,
    pub text: String,
}

impl Wanted<'_> {
    // Whether any number of lines may stand here.
    #[tactic(auto, unfolding(crate::specs::Wanted::is_any))]
    fn is_any(&self) -> bool
        ensures { result ≡ any_line self.now }
    {
        self.line.text == "..."
    }
}

/// A line that came, counted from 0, and the one that was wanted; `None` is none.
#[derive(Clone, Copy)]
pub struct Difference<'a> {
    pub at: usize,
    pub wanted: Option<Line<'a>>,
}

/// Whether a line of a report is the one that a wanted line stands for.
pub fn is_told(wanted: &str, line: &str) -> bool
    ensures { result ≡ told_by wanted.now line.now }
{
    let signs = wanted.as_bytes();
    let mut rest = line.as_bytes();
    for sign in signs {
        match behind(*sign, rest) {
            Some(behind) => rest = behind,
            None => return false,
        }
    }
    rest.is_empty()
}

// What stands behind a sign of a wanted line, where a text begins with what it stands for.
fn behind(sign: u8, text: &[u8]) -> Option<&[u8]>
    ensures number { sign ≡ 0 → MatchOption result (number_len text.now ≡ 0)
        (λ x. (0 < number_len text.now) × (x.now ≡ drop (number_len text.now) text.now)) }
    ensures other { sign ≢ 0 → MatchOption result (begins sign text.now ≡ false)
        (λ x. (begins sign text.now ≡ true) × (x.now ≡ drop 1 text.now)) }
{
    if sign == NUMBER {
        return behind_number(text);
    }
    match text.split_first() {
        Some((first, rest)) if *first == sign => Some(rest),
        _ => None,
    }
}

// What stands behind the number that a text begins with.
fn behind_number(text: &[u8]) -> Option<&[u8]>
    ensures { MatchOption result (number_len text.now ≡ 0)
        (λ x. (0 < number_len text.now) × (x.now ≡ drop (number_len text.now) text.now)) }
{
    let digits = digits(text);
    if digits == 0 {
        return None;
    }
    text.get(digits..)
}

// How many digits a text begins with.
fn digits(text: &[u8]) -> usize
    ensures few { result ≤ length text.now }
    ensures value { result ≡ number_len text.now }
{
    for (at, c) in text.iter().enumerate() {
        if !c.is_ascii_digit() {
            return at;
        }
    }
    text.len()
}

// Whether a text is spaces alone.
fn are_spaces(text: &[u8]) -> bool
    ensures { result ≡ list_all is_space text.now }
{
    for c in text {
        if *c != b' ' {
            return false;
        }
    }
    true
}

// Whether a text is spaces, and behind them a mark.
fn is_blank_up_to(mark: u8, text: &[u8]) -> bool
    ensures { result ≡ blank_up_to mark text.now }
{
    match text.strip_suffix(&[mark]) {
        Some(spaces) => are_spaces(spaces),
        None => false,
    }
}

// Whether a line of a dump is the wanted one.
fn is_shown(wanted: &str, line: &str) -> bool
    ensures { result ≡ shown_by wanted.now line.now }
{
    let (wanted, line) = (wanted.as_bytes(), line.as_bytes());
    let Some(front) = wanted.strip_suffix(b">") else {
        return wanted == line;
    };
    match line.strip_prefix(front) {
        Some(rest) => is_blank_up_to(b'|', rest),
        None => false,
    }
}

/// Whether a line is the wanted one.
pub fn is_line(way: Way, wanted: &str, line: &str) -> bool
    ensures { result ≡ line_by way wanted.now line.now }
{
    match way {
        Way::Report => is_told(wanted, line),
        Way::Dump => is_shown(wanted, line),
        Way::Picture => wanted.as_bytes() == line.as_bytes(),
    }
}

/// Whether a line of a dump, also a wanted one, is a row of spaces.
pub fn is_blank(line: &str) -> bool
    ensures { result ≡ blank_row line.now }
{
    match line.as_bytes().split_first() {
        Some((b'|', rest)) => is_blank_up_to(b'|', rest) || is_blank_up_to(b'>', rest),
        _ => false,
    }
}

// Whether the first of some lines is the wanted one.
fn is_first(way: Way, wanted: &str, lines: &[&str]) -> bool
    ensures { result ≡ first_is way wanted.now (map (λ l. l.now) lines.now) }
{
    match lines.split_first() {
        Some((line, _)) => is_line(way, wanted, *line),
        None => false,
    }
}

// Whether the line at a place is the wanted one.
#[tactic(auto, using(crate::proofs::Lines::none_from))]
fn is_at(way: Way, wanted: &str, lines: &[&str], at: usize) -> bool
    ensures { result ≡ first_is way wanted.now (map (λ l. l.now) (drop at lines.now)) }
{
    match lines.get(at..) {
        Some(rest) => is_first(way, wanted, rest),
        None => false,
    }
}

// The place of the first of some lines that does not begin those that came.
fn first_other(way: Way, wanted: &[Wanted<'_>], lines: &[&str]) -> Option<usize>
    ensures { MatchOption result (begins_with way (map (λ w. string_bytes w.text) wanted.now) (map (λ l. l.now) lines.now) ≡ true)
        (λ at. (begins_with way (map (λ w. string_bytes w.text) wanted.now) (map (λ l. l.now) lines.now) ≡ false)
        × (at ≡ same_len way (map (λ w. string_bytes w.text) wanted.now) (map (λ l. l.now) lines.now))) }
{
    for (at, one) in wanted.iter().enumerate() {
        if !is_at(way, one.text.as_str(), lines, at) {
            return Some(at);
        }
    }
    None
}

// Where some lines first stand from a place on.
fn found(way: Way, wanted: &[Wanted<'_>], lines: &[&str], from: usize) -> Option<usize>
    ensures { MatchOption result
        ((k : ℕ) → from ≤ k → k ≤ length lines.now
        → begins_with way (map (λ w. string_bytes w.text) wanted.now) (map (λ l. l.now) (drop k lines.now)) ≡ false)
        (λ at. (from ≤ at) × (at ≤ length lines.now)
        × (begins_with way (map (λ w. string_bytes w.text) wanted.now) (map (λ l. l.now) (drop at lines.now)) ≡ true)
        × ((k : ℕ) → from ≤ k → k < at
        → begins_with way (map (λ w. string_bytes w.text) wanted.now) (map (λ l. l.now) (drop k lines.now)) ≡ false)) }
{
    for at in from..lines.len() + 1 {
        if first_other(way, wanted, &lines[at..]).is_none() {
            return Some(at);
        }
    }
    None
}

// How many lines stand before the first that is `...`.
fn block_len(wanted: &[Wanted<'_>]) -> usize
    ensures few { result ≤ length wanted.now }
    ensures value { result ≡ len_by wanted.now }
{
    for (at, one) in wanted.iter().enumerate() {
        if one.is_any() {
            return at;
        }
    }
    wanted.len()
}

// The lines before the first that is `...`.
fn block<'b, 'a>(wanted: &'b [Wanted<'a>]) -> &'b [Wanted<'a>]
    ensures { result.now ≡ take (len_by wanted.now) wanted.now }
{
    &wanted[..block_len(wanted)]
}

// That one of some lines is not there, at a place.
fn missing<'a>(wanted: &[Wanted<'a>], one: usize, at: usize) -> Difference<'a> {
    let wanted = match wanted.get(one) {
        Some(wanted) => Some(wanted.line),
        None => None,
    };
    Difference { at, wanted }
}

// The place behind some lines that have to stand at a place.
fn behind_block<'a>(
    way: Way,
    block: &[Wanted<'a>],
    lines: &[&str],
    from: usize,
) -> Result<usize, Difference<'a>>
    requires { from ≤ length lines.now }
    ensures { MatchResult result
        (λ behind. (behind ≡ from + length block.now) × (behind ≤ length lines.now)
        × (begins_with way (map (λ w. string_bytes w.text) block.now) (map (λ l. l.now) (drop from lines.now)) ≡ true))
        (λ d. begins_with way (map (λ w. string_bytes w.text) block.now) (map (λ l. l.now) (drop from lines.now)) ≡ false) }
{
    match first_other(way, block, &lines[from..]) {
        Some(one) => Err(missing(block, one, from.saturating_add(one))),
        None => Ok(from + block.len()),
    }
}

// Where so many lines end with the last one, but none before a place.
fn last_place(lines: usize, count: usize, at: usize) -> usize
    ensures { result ≡ max at (lines - count) }
{
    at.max(lines.saturating_sub(count))
}

// The place behind the lines up to the next gap, if what stands before them, from a place on, is a gap. They are looked for where they first
// stand, and where no gap follows, at the end.
fn behind_gap<'a>(
    way: Way,
    rest: &[Wanted<'a>],
    lines: &[&str],
    at: usize,
) -> Result<usize, Difference<'a>>
    requires { at ≤ length lines.now }
    ensures { MatchResult result
        (λ behind. (behind ≤ length lines.now)
        × (BehindSome (IsAsWanted way rest.now) (map (λ l. l.now) (drop at lines.now))
        ↔ IsAsWanted way (from_gap rest.now) (map (λ l. l.now) (drop behind lines.now))))
        (λ d. BehindSome (IsAsWanted way rest.now) (map (λ l. l.now) (drop at lines.now)) → ⊥) }
{
    let block = block(rest);
    if block.len() == rest.len() {
        let from = last_place(lines.len(), block.len(), at);
        return behind_block(way, block, lines, from);
    }
    match found(way, block, lines, at) {
        Some(from) => behind_block(way, block, lines, from),
        None => Err(missing(block, 0, at)),
    }
}

// The place behind the lines up to the next gap, if the first line is one; otherwise they have been looked at, and the place stays.
fn behind_first<'a>(
    way: Way,
    wanted: &[Wanted<'a>],
    lines: &[&str],
    at: usize,
) -> Result<usize, Difference<'a>>
    requires { at ≤ length lines.now }
    ensures { MatchResult result
        (λ behind. (behind ≤ length lines.now)
        × (IsAsWanted way (from_gap wanted.now) (map (λ l. l.now) (drop at lines.now))
        ↔ IsAsWanted way (from_gap (drop 1 wanted.now)) (map (λ l. l.now) (drop behind lines.now))))
        (λ d. IsAsWanted way (from_gap wanted.now) (map (λ l. l.now) (drop at lines.now)) → ⊥) }
{
    let Some((one, rest)) = wanted.split_first() else {
        return Ok(at);
    };
    if one.is_any() {
        behind_gap(way, rest, lines, at)
    } else {
        Ok(at)
    }
}

/// The first difference of lines from those that are wanted, where `...` stands for any number of lines.
pub fn first_difference<'a>(
    way: Way,
    wanted: &[Wanted<'a>],
    lines: &[&str],
) -> Option<Difference<'a>>
    ensures { MatchOption result (IsAsWanted way wanted.now (map (λ l. l.now) lines.now))
        (λ d. IsAsWanted way wanted.now (map (λ l. l.now) lines.now) → ⊥) }
{
    let mut at = match behind_block(way, block(wanted), lines, 0) {
        Ok(behind) => behind,
        Err(other) => return Some(other),
    };
    for number in 0..wanted.len() {
        at = match behind_first(way, &wanted[number..], lines, at) {
            Ok(behind) => behind,
            Err(other) => return Some(other),
        };
    }
    if at < lines.len() {
        Some(Difference { at, wanted: None })
    } else {
        None
    }
}
