//! The queue of records.
ghost use Rattle.std.specs.Prelude.{◌≡◌, ℕ, ◌+◌, ◌-◌, ◌<◌, ◌≤◌, List, [], ◌∷◌, ◌++◌, length, take, drop, min, IfOk, OnOk, OnErr, option_to_list, vec_len, vec_capacity, IsSome, IfNone, ◌↔◌};
ghost use Rattle.con_records.specs.Queue.{Queue, appended, without_first, with_room};

use crate::record::Record;
use con_units::OutOfMemory;
use std::alloc::Global;
use std::collections::VecDeque;
use std::marker::Model;

/// Records in order of arrival. Contracts also see how many more are promised to fit.
pub struct Records {
    queue: VecDeque<Record>,
    spare: usize,
}

impl Model for Records {
    ghost use Rattle.std.specs.Prelude.{◌+◌, ◌≤◌};
    ghost use Rattle.std.specs.VecDeque.{deque_len, deque_capacity};
    ghost use Rattle.con_records.specs.Queue.{Queue};

    ghost Value = { Queue };

    ghost view = { λ a. record { items = a.queue.items; spare = a.spare } };

    ghost invariant = { λ a. deque_len a.queue + a.spare ≤ deque_capacity a.queue };
}

// By hand, so that what drops one has this call in its proof, and not all that lies in one.
impl Drop for Records {
    fn drop(self) {
        let Records { queue: _, spare: _ } = self;
    }
}

impl Records {
    /// An empty queue, which has no memory yet.
    pub fn new(alloc: Global) -> Records
        ensures { result ≡ record { items = []; spare = 0 } }
    {
        Records {
            queue: VecDeque::new(alloc),
            spare: 0,
        }
    }

    /// Makes room for at least so many more. Without memory nothing changes.
    pub fn reserve(&mut self, n: usize) -> Result<(), OutOfMemory>
        ensures ok { OnOk result (self.new ≡ with_room self.old n) }
        ensures err { OnErr result (self.new ≡ self.old) }
    {
        if self.spare < n {
            if self.queue.reserve(n).is_err() {
                return Err(OutOfMemory);
            }
            self.spare = n;
        }
        Ok(())
    }

    /// Puts one record last, into reserved room.
    pub fn append_reserved(&mut self, one: Record)
        requires { 0 < self.old.spare }
        ensures { self.new ≡ appended self.old (one ∷ []) }
    {
        self.queue.push_back_reserved(one);
        self.spare -= 1;
    }

    /// Puts records last, in their order, into reserved room.
    pub fn write(&mut self, records: &[Record])
        requires { length records.now ≤ self.old.spare }
        ensures { self.new ≡ appended self.old records.now }
    {
        for one in records {
            self.append_reserved(*one);
        }
    }

    /// How many records are there.
    pub fn count(&self) -> usize
        ensures { result ≡ length self.now.items }
    {
        self.queue.len()
    }

    /// Takes the first record out; none exactly where the queue is empty.
    pub fn pop(&mut self) -> Option<Record>
        ensures items { self.old.items ≡ option_to_list result ++ self.new.items }
        ensures some { IsSome result ↔ (0 < length self.old.items) }
        ensures rest { self.new ≡ without_first self.old 1 }
        ensures none { IfNone result ((self.old.items ≡ []) × (self.new.items ≡ [])) }
    {
        self.queue.pop_front()
    }

    /// Moves the first n records, or all where there are fewer, to the end of a vector that has room.
    pub fn take(&mut self, n: usize, out: &mut Vec<Record>)
        requires { vec_len out.old + min n (length self.old.items) ≤ vec_capacity out.old }
        ensures rest { self.new ≡ without_first self.old n }
        ensures out { out.new.items ≡ out.old.items ++ take n self.old.items }
        ensures room { vec_capacity out.new ≡ vec_capacity out.old }
    {
        self.peek(n, out);
        for i in 0..n.min(self.count()) {
            // the loop's invariant counts by it
            let _ = i;
            self.pop();
        }
    }

    /// Copies the first n records, or all where there are fewer, to the end of a vector that has room.
    pub fn peek(&self, n: usize, out: &mut Vec<Record>)
        requires { vec_len out.old + min n (length self.now.items) ≤ vec_capacity out.old }
        ensures out { out.new.items ≡ out.old.items ++ take n self.now.items }
        ensures room { vec_capacity out.new ≡ vec_capacity out.old }
    {
        for i in 0..n.min(self.queue.len()) {
            out.push_reserved(self.queue[i]);
        }
    }

    /// Removes all records and tells how many they were. The room promised stays.
    pub fn flush(&mut self) -> usize
        ensures count { result ≡ length self.old.items }
        ensures emptied { self.new ≡ record self.old { items = [] } }
    {
        let n = self.queue.len();
        self.queue.clear();
        n
    }
}
