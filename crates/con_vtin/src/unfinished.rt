//! A sequence that begins with ESC and is not whole yet.
ghost use Rattle.std.specs.Prelude.{◌≡◌, ◌≢◌, ℕ, ◌+◌, ◌<◌, ◌≤◌, true, List, [], ◌∷◌, ◌++◌, length, IsTrue, ◌↔◌, vec_len, vec_capacity};
ghost use Rattle.std.specs.List.{list_all};
ghost use Rattle.con_vtin.specs.Keys as spec;
ghost use Rattle.con_vtin.specs.Holding.{Holds, Steps, Advances, IsSecond, ends_keyless, ends_none};

use crate::character::push_replacements;
use crate::table::{byte_key, control_sequence_key, escape, letter_key, with_alt};
use con_records::Key;
use std::marker::Model;

// How many bytes may be held behind ESC [.
const ROOM: usize = 30;

/// What stands in a sequence.
#[derive(Clone, Copy, PartialEq, Eq)]
pub(crate) enum Phase {
    /// No byte.
    Nothing,
    /// ESC.
    Escape,
    /// ESC O.
    Single,
    /// ESC [ and parameter bytes.
    First,
    /// ESC [, parameter bytes, and intermediate ones.
    Second,
}

/// What one more byte is to a sequence.
#[derive(Clone, Copy)]
pub(crate) enum Step {
    GoesOn(Phase),
    Ends(Option<Key>),
    Breaks,
}

/// What one more byte was to a sequence.
#[derive(Clone, Copy)]
pub(crate) enum Advance {
    /// It stands in the sequence now.
    GoesOn,
    /// It ended the sequence, whose key this is.
    Ends(Option<Key>),
    /// It can stand in no such sequence, which is as it was.
    Breaks,
}

fn is_parameter(byte: u8) -> bool
    ensures { result ≡ spec.is_parameter byte }
{
    0x30 <= byte && byte <= 0x3F
}

fn is_intermediate(byte: u8) -> bool
    ensures { result ≡ spec.is_intermediate byte }
{
    0x20 <= byte && byte <= 0x2F
}

fn is_last(byte: u8) -> bool
    ensures { result ≡ spec.is_last byte }
{
    0x40 <= byte && byte <= 0x7E
}

#[tactic(auto, unfolding(crate::specs::Keys::is_front, crate::specs::Keys::whole))]
fn from_escape(byte: u8) -> Step
    ensures { Steps result (0x1B ∷ []) byte }
{
    if byte == 0x5B {
        Step::GoesOn(Phase::First)
    } else if byte == 0x4F {
        Step::GoesOn(Phase::Single)
    } else if byte < 0x80 && byte != 0x1B {
        Step::Ends(Some(with_alt(byte_key(byte))))
    } else {
        Step::Breaks
    }
}

#[tactic(auto, unfolding(crate::specs::Keys::is_front, crate::specs::Keys::whole))]
fn from_single(byte: u8) -> Step
    ensures { Steps result (0x1B ∷ 0x4F ∷ []) byte }
{
    if is_last(byte) {
        Step::Ends(letter_key(0, byte))
    } else {
        Step::Breaks
    }
}

fn from_first(body: &[u8], byte: u8) -> Step
    requires { list_all spec.is_parameter body.now ≡ true }
    ensures { Steps result (0x1B ∷ 0x5B ∷ body.now) byte }
{
    if is_parameter(byte) {
        if body.len() < ROOM {
            Step::GoesOn(Phase::First)
        } else {
            Step::Breaks
        }
    } else if is_intermediate(byte) {
        if body.len() < ROOM {
            Step::GoesOn(Phase::Second)
        } else {
            Step::Breaks
        }
    } else if is_last(byte) {
        Step::Ends(control_sequence_key(body, byte))
    } else {
        Step::Breaks
    }
}

fn from_second(body: &[u8], byte: u8) -> Step
    requires { IsSecond body.now }
    ensures { Steps result (0x1B ∷ 0x5B ∷ body.now) byte }
{
    if is_intermediate(byte) {
        if body.len() < ROOM {
            Step::GoesOn(Phase::Second)
        } else {
            Step::Breaks
        }
    } else if is_last(byte) {
        Step::Ends(control_sequence_key(body, byte))
    } else {
        Step::Breaks
    }
}

fn step_of(phase: Phase, bytes: &[u8], byte: u8) -> Step
    requires holds { Holds phase bytes.now }
    requires some { bytes.now ≢ [] }
    ensures { Steps result bytes.now byte }
{
    match phase {
        Phase::Nothing => unreachable!(),
        Phase::Escape => from_escape(byte),
        Phase::Single => from_single(byte),
        Phase::First => from_first(&bytes[2..], byte),
        Phase::Second => from_second(&bytes[2..], byte),
    }
}

fn gives_no_key(step: Step) -> bool
    ensures { result ≡ ends_none step }
{
    match step {
        Step::GoesOn(_) => false,
        Step::Ends(key) => key.is_none(),
        Step::Breaks => false,
    }
}

// Whether the byte ends a control sequence that gives no key.
fn is_keyless_end(phase: Phase, bytes: &[u8], byte: u8) -> bool
    requires holds { Holds phase bytes.now }
    requires some { bytes.now ≢ [] }
    ensures { result ≡ ends_keyless bytes.now byte }
{
    match phase {
        Phase::Nothing => unreachable!(),
        Phase::Escape => false,
        Phase::Single => false,
        Phase::First => gives_no_key(step_of(phase, bytes, byte)),
        Phase::Second => gives_no_key(step_of(phase, bytes, byte)),
    }
}

/// A sequence that begins with ESC and is not whole yet, or nothing. Contracts see its bytes, of which there are 32 at most.
#[derive(Drop)]
pub(crate) struct Unfinished {
    phase: Phase,
    count: u8,
    bytes: [u8; 32],
}

impl Model for Unfinished {
    ghost use Rattle.std.specs.Prelude.{ℕ, List, take, ◌≤◌};
    ghost use Rattle.con_vtin.specs.Holding.{Holds};

    ghost Value = { List ℕ };

    ghost view = { λ s. take s.count s.bytes };

    ghost invariant = { λ s. (s.count ≤ 32) × Holds s.phase (take s.count s.bytes) };
}

impl Unfinished {
    /// No byte.
    pub(crate) fn new() -> Unfinished
        ensures { result ≡ [] }
    {
        Unfinished {
            phase: Phase::Nothing,
            count: 0,
            bytes: [0; 32],
        }
    }

    /// Whether no byte is held.
    pub(crate) fn is_empty(&self) -> bool
        ensures { IsTrue result ↔ (self.now ≡ []) }
    {
        self.count == 0
    }

    /// Holds ESC alone.
    pub(crate) fn begin(&mut self)
        ensures { self.new ≡ 0x1B ∷ [] }
    {
        self.bytes[0] = 0x1B;
        self.count = 1;
        self.phase = Phase::Escape;
    }

    /// Holds nothing.
    pub(crate) fn clear(&mut self)
        ensures { self.new ≡ [] }
    {
        self.count = 0;
        self.phase = Phase::Nothing;
    }

    /// Takes one more byte if it can stand in the sequence.
    pub(crate) fn advance(&mut self, byte: u8) -> Advance
        requires { self.old ≢ [] }
        ensures { Advances result self.old byte self.new }
    {
        let count = self.count as usize;
        match step_of(self.phase, &self.bytes[..count], byte) {
            Step::GoesOn(phase) => {
                self.bytes[count] = byte;
                self.count += 1;
                self.phase = phase;
                Advance::GoesOn
            }
            Step::Ends(key) => {
                self.count = 0;
                self.phase = Phase::Nothing;
                Advance::Ends(key)
            }
            Step::Breaks => Advance::Breaks,
        }
    }

    /// The bytes.
    pub(crate) fn as_slice(&self) -> &[u8]
        ensures is { result.now ≡ self.now }
        ensures few { length result.now ≤ 32 }
    {
        &self.bytes[..self.count as usize]
    }

    /// How many bytes there are.
    pub(crate) fn len(&self) -> u8
        ensures is { result ≡ length self.now }
        ensures few { result ≤ 32 }
    {
        self.count
    }

    /// Whether the byte ends a control sequence that gives no key.
    pub(crate) fn ends_keyless(&self, byte: u8) -> bool
        requires { self.now ≢ [] }
        ensures { result ≡ ends_keyless self.now byte }
    {
        is_keyless_end(self.phase, &self.bytes[..self.count as usize], byte)
    }

    /// Adds what the sequence gives where it is broken off.
    pub(crate) fn push_broken(&self, out: &mut Vec<Key>)
        requires some { self.now ≢ [] }
        requires room { vec_len out.old + 32 ≤ vec_capacity out.old }
        ensures keys { out.new.items ≡ out.old.items ++ spec.broken self.now }
        ensures quieted { out.new.items ≡ out.old.items ++ spec.quieted self.now }
        ensures few { vec_len out.new ≤ vec_len out.old + 32 }
        ensures room { vec_capacity out.new ≡ vec_capacity out.old }
    {
        if self.count == 1 {
            out.push_reserved(escape());
        } else {
            push_replacements(self.count, out);
        }
    }
}
