//! What a line of an order says.
use crate::part::{Head, Part, first_word};
use crate::setup::number;
use case_lines::fault::{Fault, Wrong};
use case_lines::line::Line;
use std::alloc::{AllocError, Global};

/// What a rule is about, and what its numbers are. What has to come, or comes, is a sum of powers of two.
#[derive(Clone, Copy)]
pub enum Kind {
    /// A client, a step of it, what has to come before the step begins, and what has come when it is done.
    Step,
    /// A place of the link, and what has to come before the bytes from there on are given.
    Link,
    /// A byte, and what has come once it is sent to the terminal.
    Letter,
    /// What has come once the first write to the terminal begins, and what each write waits for.
    Term,
    /// What each client waits for before a step, and that step. Each comes there as the power of its place.
    Meet,
    /// All that has to have come in the end.
    Came,
    /// The steps that have to be entered, and left again: a hexadecimal digit for each of the first four steps of the first four clients.
    Steps,
    /// How many steps have to be entered, and left.
    Entered,
    /// How many lines of the report have to be those of clients.
    Clients,
    /// What each of four watched handlers has to be asked.
    Asked,
}

/// A rule of an order.
#[derive(Clone, Copy)]
pub struct Rule {
    pub kind: Kind,
    pub numbers: [u64; 4],
}

// What a word says a rule is about, and how many numbers it has.
fn kind_of(word: &str) -> Option<(Kind, usize)> {
    match word {
        "step" => Some((Kind::Step, 4)),
        "from" => Some((Kind::Link, 2)),
        "letter" => Some((Kind::Letter, 2)),
        "term" => Some((Kind::Term, 2)),
        "meet" => Some((Kind::Meet, 2)),
        "came" => Some((Kind::Came, 1)),
        "steps" => Some((Kind::Steps, 1)),
        "entered" => Some((Kind::Entered, 1)),
        "clients" => Some((Kind::Clients, 1)),
        "asked" => Some((Kind::Asked, 4)),
        _ => None,
    }
}

// The number that a line is, in decimal digits, or in hexadecimal ones behind `0x`.
fn value(line: Line<'_>) -> Result<u64, Wrong> {
    match line.text.strip_prefix("0x") {
        None => number::<u64>(line),
        Some(digits) => match u64::from_str_radix(digits, 16) {
            Ok(number) => Ok(number),
            Err(_) => Err(line.wrong(Fault::Number)),
        },
    }
}

// The numbers of a line, of which there are so many, and 0 behind them.
fn numbers(line: Line<'_>, count: usize) -> Result<[u64; 4], Wrong> {
    let mut out = [0u64; 4];
    let mut found = 0usize;
    for word in line.text.split(' ') {
        let number = given!(value(line.part(word)));
        match out.get_mut(found) {
            Some(place) => *place = number,
            None => return Err(line.wrong(Fault::Line)),
        }
        found = found.saturating_add(1);
    }
    if found == count {
        Ok(out)
    } else {
        Err(line.wrong(Fault::Line))
    }
}

// The rule that a line says.
fn rule_of(line: Line<'_>) -> Result<Rule, Wrong> {
    let (word, rest) = first_word(line.text);
    match kind_of(word) {
        None => Err(line.wrong(Fault::Line)),
        Some((kind, count)) => {
            let numbers = given!(numbers(line.part(rest), count));
            Ok(Rule { kind, numbers })
        }
    }
}

// Puts the rules of lines last.
fn push_rules(lines: &[Line<'_>], out: &mut Vec<Rule>) -> Result<(), Wrong> {
    for line in lines {
        let rule = given!(rule_of(*line));
        given!(out.push(rule), Wrong::from(AllocError));
    }
    Ok(())
}

/// The rules of a case, in their order; none where no part has an order.
pub fn rules(alloc: Global, parts: &[Part<'_>]) -> Result<Vec<Rule>, Wrong> {
    let mut out = Vec::new(alloc);
    for part in parts {
        if part.head == Head::Order {
            given!(push_rules(part.lines, &mut out));
        }
    }
    Ok(out)
}
