//! The automaton that splits a text into its items, unit by unit.
ghost use Rattle.std.specs.Prelude.{◌≡◌, ◌≢◌, ℕ, true, false, nat_lt, length, List, [], ◌∷◌, ◌++◌, option_to_list, ◌≤◌, take, drop, vec_capacity};
ghost use Rattle.con_vtgram.specs.Spoken.{text_of};
ghost use Rattle.con_vtgram.specs.TitleKept.{IsQuiet, KeepsTitle, Titles, is_title_name, is_title_item};
ghost use Rattle.con_units.specs.Split.{next};
ghost use Rattle.con_units.specs.Stored as units;
ghost use Rattle.con_vtgram.specs.Text as text;
ghost use Rattle.con_vtgram.specs.State.{state_of, item_of, parameters_of};
ghost use Rattle.con_vtgram.specs.declared.automaton.Sequence.{Sequence};
ghost use Rattle.con_vtgram.specs.Reading.{Counts, Reads, Holds, Follows, is_paren, name_of, Inside};
ghost use Rattle.con_vtgram.specs.Step.{Begins, Gives};
ghost use Rattle.std.specs.List.{list_all};

use crate::found::Found;
use crate::item::Csi;

/// A control sequence so far.
#[derive(Clone, Copy)]
pub(crate) struct Sequence {
    /// Its count of parameters is 17 where there are more than 16 so far.
    pub(crate) csi: Csi,
    /// There were digits and semicolons alone.
    plain: bool,
    /// There was at most one intermediate.
    single: bool,
}

/// What a string has so far of the front of a title.
#[derive(Clone, Copy)]
pub(crate) enum Name {
    Start,
    Digit,
    Title,
    Other,
}

/// What stands in the units that are no item yet.
#[derive(Clone, Copy)]
pub(crate) enum Phase {
    Ground,
    Escape,
    Paren,
    Nested,
    Open,
    First,
    Second,
    Text(Name),
    TextEscape(Name),
}

/// The next phase, and what the unit completes.
#[derive(Clone, Copy)]
pub(crate) struct Next {
    pub(crate) phase: Phase,
    pub(crate) found: Found,
}

fn is_acting(unit: u16) -> bool
    ensures { result ≡ text.is_acting unit }
{
    (7 <= unit && unit <= 10) || unit == 13
}

fn is_control(unit: u16) -> bool
    ensures { result ≡ units.is_control unit }
{
    unit < 0x20 || (0x7F <= unit && unit <= 0x9F)
}

fn is_intermediate(unit: u16) -> bool
    ensures { result ≡ text.is_intermediate unit }
{
    0x20 <= unit && unit <= 0x2F
}

fn is_parameter_unit(unit: u16) -> bool
    ensures { result ≡ text.is_parameter_unit unit }
{
    0x30 <= unit && unit <= 0x3F
}

fn ends_escape(unit: u16) -> bool
    ensures { result ≡ text.ends_escape unit }
{
    0x30 <= unit && unit <= 0x7E
}

fn ends_control(unit: u16) -> bool
    ensures { result ≡ text.ends_control unit }
{
    0x40 <= unit && unit <= 0x7E
}

fn opens_string(unit: u16) -> bool
    ensures { result ≡ text.opens_string unit }
{
    unit == 0x5D || unit == 0x50 || unit == 0x58 || unit == 0x5E || unit == 0x5F
}

impl Sequence {
    /// No control sequence.
    pub(crate) fn none() -> Sequence {
        Sequence {
            csi: Csi {
                private: false,
                count: 0,
                params: [0; 16],
                inter: 0,
                last: 0,
            },
            plain: true,
            single: true,
        }
    }

    // Begins with no parameter.
    fn begin(&mut self, private: bool)
        ensures private { (parameters_of self.new).private ≡ private }
        ensures counts { Counts (parameters_of self.new) [] }
        ensures single { self.new.single ≡ true }
        ensures inter { self.new.csi.inter ≡ 0 }
    {
        self.csi.private = private;
        self.csi.count = 0;
        self.csi.params = [0; 16];
        self.csi.inter = 0;
        self.plain = true;
        self.single = true;
    }

    // One unit more of the first part.
    fn push(&mut self, unit: u16)
        ensures private { (parameters_of self.new).private ≡ (parameters_of self.old).private }
        ensures counts { (body : List ℕ) → Counts (parameters_of self.old) body → Counts (parameters_of self.new) (body ++ unit ∷ []) }
        ensures single { self.new.single ≡ self.old.single }
        ensures inter { self.new.csi.inter ≡ self.old.csi.inter }
    {
        let count = self.csi.count.max(1);
        if unit == 0x3B {
            self.csi.count = count.min(16) + 1;
        } else if unit < 0x30 || 0x39 < unit {
            self.plain = false;
        } else {
            self.csi.count = count;
            if count <= 16 {
                let at = count as usize - 1;
                let value = self.csi.params[at] as u32 * 10 + (unit as u32 - 0x30);
                self.csi.params[at] = value.min(32767) as u16;
            }
        }
    }

    // Ends, and tells whether it is an item.
    fn end(&mut self, last: u16) -> Found
        ensures gives { (first is : List ℕ) → Reads (parameters_of self.old) first → self.old.single ≡ nat_lt (length is) 2
            → self.old.csi.inter ≡ text.only_intermediate is → option_to_list (item_of result last self.new.csi) ≡ text.csi_items first is last }
        ensures quiet { is_title_item (item_of result last self.new.csi) ≡ false }
    {
        if !self.plain {
            return Found::Nothing;
        }
        if !self.single {
            return Found::Nothing;
        }
        self.csi.count = self.csi.count.min(16);
        self.csi.last = last;
        Found::Sequence
    }
}

// What a unit begins.
#[tactic(auto, unfolding(crate::specs::Text::is_front, crate::specs::Text::whole))]
fn begin(unit: u16) -> Next
    ensures gives { (s : Sequence) → Begins (state_of result.phase s) (item_of result.found unit s.csi) unit }
    ensures quiet { (s : Sequence) → IsQuiet (state_of result.phase s) (item_of result.found unit s.csi) }
{
    if unit == 0x1B {
        Next {
            phase: Phase::Escape,
            found: Found::Nothing,
        }
    } else if is_acting(unit) {
        Next {
            phase: Phase::Ground,
            found: Found::Control,
        }
    } else if is_control(unit) {
        Next {
            phase: Phase::Ground,
            found: Found::Nothing,
        }
    } else {
        Next {
            phase: Phase::Ground,
            found: Found::Print,
        }
    }
}

#[tactic(auto, unfolding(crate::specs::Text::is_front, crate::specs::Text::whole, con_units::specs::Split::next))]
fn from_escape(unit: u16) -> Next
    ensures gives { (s : Sequence) → Gives (state_of result.phase s) (item_of result.found unit s.csi) (0x1B ∷ []) unit }
    ensures quiet { (s : Sequence) → IsQuiet (state_of result.phase s) (item_of result.found unit s.csi) }
{
    if unit == 0x5B {
        Next {
            phase: Phase::Open,
            found: Found::Nothing,
        }
    } else if unit == 0x28 {
        Next {
            phase: Phase::Paren,
            found: Found::Nothing,
        }
    } else if is_intermediate(unit) {
        Next {
            phase: Phase::Nested,
            found: Found::Nothing,
        }
    } else if opens_string(unit) {
        Next {
            phase: Phase::Text(opened(unit)),
            found: Found::Nothing,
        }
    } else if ends_escape(unit) {
        Next {
            phase: Phase::Ground,
            found: Found::Escape,
        }
    } else {
        begin(unit)
    }
}

fn cancels(unit: u16) -> bool
    ensures { result ≡ text.cancels unit }
{
    unit == 0x18 || unit == 0x1A
}

fn opened(opener: u16) -> Name
    ensures named { result ≡ name_of opener [] }
    ensures quiet { is_title_name result ≡ false }
{
    if opener == 0x5D {
        Name::Start
    } else {
        Name::Other
    }
}

fn named(name: Name, unit: u16) -> Name
    ensures { (opener : ℕ) (units : List ℕ) → name ≡ name_of opener units → result ≡ name_of opener (units ++ unit ∷ []) }
{
    match name {
        Name::Start => if unit == 0x30 || unit == 0x32 {
            Name::Digit
        } else {
            Name::Other
        },
        Name::Digit => if unit == 0x3B {
            Name::Title
        } else {
            Name::Other
        },
        Name::Title => Name::Title,
        Name::Other => Name::Other,
    }
}

// Keeps the text of a title, one unit on.
fn keep_title(title: &mut Vec<u16>, name: Name, unit: u16)
    requires { 255 ≤ vec_capacity title.old }
    ensures title { (opener : ℕ) (text : List ℕ) → name ≡ name_of opener text → (is_title_name name ≡ true → title.old.items ≡ take 255 (drop 2 text))
        → is_title_name (name_of opener (text ++ unit ∷ [])) ≡ true → title.new.items ≡ take 255 (drop 2 (text ++ unit ∷ [])) }
    ensures capacity { vec_capacity title.new ≡ vec_capacity title.old }
    ensures short { length title.old.items ≤ 255 → length title.new.items ≤ 255 }
{
    match name {
        Name::Title => push_up_to(title, unit),
        Name::Digit => title.clear(),
        Name::Start => {}
        Name::Other => {}
    }
}

// Adds a unit where there are fewer than 255.
fn push_up_to(title: &mut Vec<u16>, unit: u16)
    requires { 255 ≤ vec_capacity title.old }
    ensures title { (text : List ℕ) → title.old.items ≡ take 255 text → title.new.items ≡ take 255 (text ++ unit ∷ []) }
    ensures capacity { vec_capacity title.new ≡ vec_capacity title.old }
    ensures short { length title.old.items ≤ 255 → length title.new.items ≤ 255 }
{
    if title.len() < 255 {
        title.push_reserved(unit);
    }
}

fn string_found(name: Name) -> Found
    ensures gives { (opener : ℕ) (body : List ℕ) (unit : ℕ) (s : Sequence) → name ≡ name_of opener (text.string_text body)
        → option_to_list (item_of result unit s.csi) ≡ text.string_items opener body }
    ensures title { (unit : ℕ) (s : Sequence) → is_title_item (item_of result unit s.csi) ≡ is_title_name name }
{
    match name {
        Name::Title => Found::Title,
        Name::Start => Found::Nothing,
        Name::Digit => Found::Nothing,
        Name::Other => Found::Nothing,
    }
}

fn from_text(name: Name, unit: u16, title: &mut Vec<u16>) -> Next
    requires { 255 ≤ vec_capacity title.old }
    ensures gives { (s : Sequence) (opener : ℕ) (body : List ℕ) → Inside name opener body
        → Gives (state_of result.phase s) (item_of result.found unit s.csi) (0x1B ∷ opener ∷ body) unit }
    ensures title { (s : Sequence) (opener : ℕ) (body : List ℕ) → Inside name opener body
        → (is_title_name name ≡ true → title.old.items ≡ text_of body)
        → Titles (state_of result.phase s) (item_of result.found unit s.csi) (0x1B ∷ opener ∷ body) unit title.new.items }
    ensures capacity { vec_capacity title.new ≡ vec_capacity title.old }
    ensures short { length title.old.items ≤ 255 → length title.new.items ≤ 255 }
{
    if unit == 7 {
        Next {
            phase: Phase::Ground,
            found: string_found(name),
        }
    } else if unit == 0x1B {
        Next {
            phase: Phase::TextEscape(name),
            found: Found::Nothing,
        }
    } else if cancels(unit) {
        begin(unit)
    } else if is_control(unit) {
        Next {
            phase: Phase::Text(name),
            found: Found::Nothing,
        }
    } else {
        keep_title(title, name, unit);
        Next {
            phase: Phase::Text(named(name, unit)),
            found: Found::Nothing,
        }
    }
}

fn from_text_escape(name: Name, unit: u16) -> Next
    ensures gives { (s : Sequence) (opener : ℕ) (body : List ℕ) → Inside name opener body
        → Gives (state_of result.phase s) (item_of result.found unit s.csi) (0x1B ∷ opener ∷ (body ++ 0x1B ∷ [])) unit }
    ensures title { (s : Sequence) (opener : ℕ) (body kept : List ℕ) → Inside name opener body → (is_title_name name ≡ true → kept ≡ text_of body)
        → Titles (state_of result.phase s) (item_of result.found unit s.csi) (0x1B ∷ opener ∷ (body ++ 0x1B ∷ [])) unit kept }
{
    if unit == 0x5C {
        Next {
            phase: Phase::Ground,
            found: string_found(name),
        }
    } else {
        from_escape(unit)
    }
}

fn from_nested(paren: bool, unit: u16) -> Next
    ensures gives { (s : Sequence) (is : List ℕ) → list_all text.is_intermediate is ≡ true → is ≢ [] → paren ≡ is_paren is
        → Gives (state_of result.phase s) (item_of result.found unit s.csi) (0x1B ∷ is) unit }
    ensures quiet { (s : Sequence) → IsQuiet (state_of result.phase s) (item_of result.found unit s.csi) }
{
    if is_intermediate(unit) {
        Next {
            phase: Phase::Nested,
            found: Found::Nothing,
        }
    } else if ends_escape(unit) {
        if paren {
            Next {
                phase: Phase::Ground,
                found: Found::Charset,
            }
        } else {
            Next {
                phase: Phase::Ground,
                found: Found::Nothing,
            }
        }
    } else {
        begin(unit)
    }
}

fn from_open(sequence: &mut Sequence, unit: u16) -> Next
    ensures gives { Gives (state_of result.phase sequence.new) (item_of result.found unit sequence.new.csi) (0x1B ∷ 0x5B ∷ []) unit }
    ensures quiet { IsQuiet (state_of result.phase sequence.new) (item_of result.found unit sequence.new.csi) }
{
    sequence.begin(unit == 0x3F);
    if unit == 0x3F {
        Next {
            phase: Phase::First,
            found: Found::Nothing,
        }
    } else if is_parameter_unit(unit) {
        sequence.push(unit);
        Next {
            phase: Phase::First,
            found: Found::Nothing,
        }
    } else {
        after_first(sequence, unit)
    }
}

fn from_first(sequence: &mut Sequence, unit: u16) -> Next
    ensures gives { (first : List ℕ) → first ≢ [] → sequence.old.single ≡ true → sequence.old.csi.inter ≡ 0 → Reads (parameters_of sequence.old) first
        → Gives (state_of result.phase sequence.new) (item_of result.found unit sequence.new.csi) (0x1B ∷ 0x5B ∷ first) unit }
    ensures quiet { IsQuiet (state_of result.phase sequence.new) (item_of result.found unit sequence.new.csi) }
{
    if is_parameter_unit(unit) {
        sequence.push(unit);
        Next {
            phase: Phase::First,
            found: Found::Nothing,
        }
    } else {
        after_first(sequence, unit)
    }
}

// A unit that is none of the first part.
fn after_first(sequence: &mut Sequence, unit: u16) -> Next
    requires { text.is_parameter_unit unit ≡ false }
    ensures gives { (first : List ℕ) → sequence.old.single ≡ true → sequence.old.csi.inter ≡ 0 → Reads (parameters_of sequence.old) first
        → Gives (state_of result.phase sequence.new) (item_of result.found unit sequence.new.csi) (0x1B ∷ 0x5B ∷ first) unit }
    ensures quiet { IsQuiet (state_of result.phase sequence.new) (item_of result.found unit sequence.new.csi) }
{
    if is_intermediate(unit) {
        sequence.csi.inter = unit;
        Next {
            phase: Phase::Second,
            found: Found::Nothing,
        }
    } else if ends_control(unit) {
        Next {
            phase: Phase::Ground,
            found: sequence.end(unit),
        }
    } else {
        begin(unit)
    }
}

fn from_second(sequence: &mut Sequence, unit: u16) -> Next
    ensures gives { (first is : List ℕ) → Reads (parameters_of sequence.old) first → Follows sequence.old.single sequence.old.csi.inter is
        → Gives (state_of result.phase sequence.new) (item_of result.found unit sequence.new.csi) (0x1B ∷ 0x5B ∷ (first ++ is)) unit }
    ensures quiet { IsQuiet (state_of result.phase sequence.new) (item_of result.found unit sequence.new.csi) }
{
    if is_intermediate(unit) {
        sequence.single = false;
        Next {
            phase: Phase::Second,
            found: Found::Nothing,
        }
    } else if ends_control(unit) {
        Next {
            phase: Phase::Ground,
            found: sequence.end(unit),
        }
    } else {
        begin(unit)
    }
}

pub(crate) fn step(phase: Phase, unit: u16, sequence: &mut Sequence, title: &mut Vec<u16>) -> Next
    requires { 255 ≤ vec_capacity title.old }
    ensures gives { (tail : List ℕ) → Holds (state_of phase sequence.old) tail
        → Gives (state_of result.phase sequence.new) (item_of result.found unit sequence.new.csi) tail unit }
    ensures title { (tail : List ℕ) → Holds (state_of phase sequence.old) tail → KeepsTitle (state_of phase sequence.old) tail title.old.items
        → Titles (state_of result.phase sequence.new) (item_of result.found unit sequence.new.csi) tail unit title.new.items }
    ensures capacity { vec_capacity title.new ≡ vec_capacity title.old }
    ensures short { length title.old.items ≤ 255 → length title.new.items ≤ 255 }
{
    match phase {
        Phase::Ground => begin(unit),
        Phase::Escape => from_escape(unit),
        Phase::Paren => from_nested(true, unit),
        Phase::Nested => from_nested(false, unit),
        Phase::Open => from_open(sequence, unit),
        Phase::First => from_first(sequence, unit),
        Phase::Second => from_second(sequence, unit),
        Phase::Text(name) => from_text(name, unit, title),
        Phase::TextEscape(name) => from_text_escape(name, unit),
    }
}
