//! A gate that brings steps, a terminal and a link into an order.
use crate::rule::{Kind, Rule};
use con_outside::Gate;
use std::alloc::{AllocError, Global};
use std::sync::atomic::AtomicU64;
use std::sync::atomic::Ordering::SeqCst;
use std::thread::yield_now;

/// How often somebody looks whether what it waits for has come.
const LOOKS: u32 = 3_000_000;

/// A gate that keeps steps of clients, the link and the terminal to the rules of an order. It counts those that waited in vain, all steps, and
/// each of those of short scripts.
#[derive(Drop)]
pub struct Order {
    rules: Vec<Rule>,
    came: AtomicU64,
    late: AtomicU64,
    begun: AtomicU64,
    done: AtomicU64,
    entered: AtomicU64,
    left: AtomicU64,
}

// The hexadecimal digit of one of the first four steps of one of the first four clients; none of another step.
fn mark_of(client: u8, n: u32) -> u64 {
    if n > 3 {
        return 0;
    }
    let place = u32::from(client)
        .saturating_sub(1)
        .saturating_mul(4)
        .saturating_add(n);
    1u64.checked_shl(place.saturating_mul(4)).unwrap_or(0)
}

// Whether a letter of this code is among some bytes.
fn has_letter(bytes: &[u8], code: u64) -> bool {
    match u8::try_from(code) {
        Ok(letter) => bytes.contains(&letter),
        Err(_) => false,
    }
}

// The power of a client's place.
fn power_of(client: u8) -> u64 {
    let place = u32::from(client).saturating_sub(1);
    1u64.checked_shl(place).unwrap_or(0)
}

impl Order {
    /// An order by these rules, in which nothing has come.
    pub fn of(rules: Vec<Rule>) -> Order {
        Order {
            rules,
            came: AtomicU64::new(0),
            late: AtomicU64::new(0),
            begun: AtomicU64::new(0),
            done: AtomicU64::new(0),
            entered: AtomicU64::new(0),
            left: AtomicU64::new(0),
        }
    }

    // Something has come.
    fn come(&self, what: u64) {
        self.came.fetch_or(what, SeqCst);
    }

    // Returns when all of this has come, or notes that it has looked too often.
    fn wait(&self, needs: u64) {
        for _ in 0..LOOKS {
            if self.came.load(SeqCst) & needs == needs {
                return;
            }
            yield_now();
        }
        self.late.fetch_add(1, SeqCst);
    }

    /// Returns when all that the link waits for at this place has come.
    pub fn wait_at(&self, at: usize) {
        for rule in self.rules.as_slice() {
            let [place, needs, _, _] = rule.numbers;
            match rule.kind {
                Kind::Link if place == at as u64 => self.wait(needs),
                _ => {}
            }
        }
    }

    /// The terminal is sent these bytes: tells which of the letters stand among them, and that its first write has begun, and returns when
    /// all that a write waits for has come, rule by rule.
    pub fn send(&self, bytes: &[u8]) {
        for rule in self.rules.as_slice() {
            let [first, second, _, _] = rule.numbers;
            match rule.kind {
                Kind::Letter if has_letter(bytes, first) => self.come(second),
                Kind::Term => {
                    self.come(first);
                    self.wait(second);
                }
                _ => {}
            }
        }
    }

    /// What each of four watched handlers has to be asked, where they are watched.
    pub fn asked(&self) -> Option<[u64; 4]> {
        for rule in self.rules.as_slice() {
            match rule.kind {
                Kind::Asked => return Some(rule.numbers),
                _ => {}
            }
        }
        None
    }

    // What came of a rule that wants a number in the end, twice where that is one number; so many lines of the report are those of clients.
    fn reached(&self, kind: Kind, clients: u64) -> Option<(u64, u64)> {
        match kind {
            Kind::Came => {
                let came = self.came.load(SeqCst);
                Some((came, came))
            }
            Kind::Steps => Some((self.entered.load(SeqCst), self.left.load(SeqCst))),
            Kind::Entered => Some((self.begun.load(SeqCst), self.done.load(SeqCst))),
            Kind::Clients => Some((clients, clients)),
            _ => None,
        }
    }

    // Whether what a rule wants in the end is there.
    fn is_kept(&self, rule: &Rule, clients: u64) -> bool {
        let [wanted, _, _, _] = rule.numbers;
        match self.reached(rule.kind, clients) {
            Some((first, second)) => first == wanted && second == wanted,
            None => true,
        }
    }

    /// What is wrong where so many lines of the report are those of clients: nobody may wait in vain, and each rule's end has to be there.
    pub fn difference(&self, alloc: Global, clients: u64) -> Result<Option<String>, AllocError> {
        if self.late.load(SeqCst) != 0 {
            return Ok(Some(given!(String::from_str(alloc, "somebody waited in vain"))));
        }
        for (at, rule) in self.rules.as_slice().iter().enumerate() {
            if !self.is_kept(rule, clients) {
                return Ok(Some(given!(format!(in alloc; "rule {at} of the order is not kept"))));
            }
        }
        Ok(None)
    }
}

impl Gate for Order {
    fn before(&self, client: u8, n: u32) {
        self.begun.fetch_add(1, SeqCst);
        self.entered.fetch_add(mark_of(client, n), SeqCst);
        for rule in self.rules.as_slice() {
            let [first, step, needs, _] = rule.numbers;
            match rule.kind {
                Kind::Step if first == u64::from(client) && step == u64::from(n) => self.wait(
                    needs,
                ),
                Kind::Meet if step == u64::from(n) => {
                    self.come(power_of(client));
                    self.wait(first);
                }
                _ => {}
            }
        }
    }

    fn after(&self, client: u8, n: u32) {
        let mark = mark_of(client, n);
        self.done.fetch_add(1, SeqCst);
        self.left
            .fetch_add(self.entered.load(SeqCst) & mark, SeqCst);
        for rule in self.rules.as_slice() {
            let [first, step, _, done] = rule.numbers;
            match rule.kind {
                Kind::Step if first == u64::from(client) && step == u64::from(n) => self.come(done),
                _ => {}
            }
        }
    }
}
