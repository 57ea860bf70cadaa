//! What the outside promises, whatever it is.

ghost use Rattle.std.specs.Prelude.{ℕ, ◌≡◌, ◌<◌, ◌≤◌, List, [], ◌∷◌, ◌++◌, length, take, Option, Some, None, IfOk, OnOk, OnErr, IfSome};
ghost use Rattle.con_outside.specs.Outside.{Rose, then_left, then_written};

/// The outside failed: nothing was taken.
#[derive(Clone, Copy, PartialEq, Eq, Drop)]
pub struct Failed;

/// Why bytes were not written.
#[derive(Clone, Copy, PartialEq, Eq, Drop)]
pub enum Fault {
    /// The outside failed.
    Failed,
    /// There was no memory for them.
    OutOfMemory,
}

/// Where bytes come from.
pub trait Source {
    /// The bytes still to come, where they are told.
    ghost left: { Self → Option (List ℕ) };

    /// How often it has failed. The count never falls, and stays once it is the greatest `u64`.
    ghost faults: { Self → ℕ };

    /// Takes the next bytes into the front of `buf`, and answers how many. 0 says that no more come, unless `buf` is empty.
    /// `Failed` comes only where the count of failures rose.
    fn read(&mut self, buf: &mut [u8]) -> Result<usize, Failed>
        ensures bound { IfOk result (λ n. n ≤ length buf.new) }
        ensures taken { IfOk result (λ n. left self.old ≡ then_left (take n buf.new) (left self.new)) }
        ensures end { result ≡ Ok 0 → 0 < length buf.new → IfSome (left self.old) (λ bytes. bytes ≡ []) }
        ensures failed { OnErr result (Rose (faults self.old) (faults self.new)) }
        ensures nothing_taken { OnErr result (left self.new ≡ left self.old) }
        ensures never_falls { faults self.old ≤ faults self.new };
}

/// Where bytes go.
pub trait Sink {
    /// The bytes written, where they are told.
    ghost written: { Self → Option (List ℕ) };

    /// How often it has failed. The count never falls, and stays once it is the greatest `u64`.
    ghost faults: { Self → ℕ };

    /// Writes the first of the bytes, at least one where there is one, and answers how many.
    /// After a refusal nothing was written; `Fault::Failed` comes only where the count of failures rose.
    fn write(&mut self, bytes: &[u8]) -> Result<usize, Fault>
        ensures bound { IfOk result (λ n. n ≤ length bytes.now) }
        ensures some { IfOk result (λ n. 0 < length bytes.now → 0 < n) }
        ensures appended { IfOk result (λ n. written self.new ≡ then_written (written self.old) (take n bytes.now)) }
        ensures failed { result ≡ Err Fault.Failed → Rose (faults self.old) (faults self.new) }
        ensures nothing_written { OnErr result (written self.new ≡ written self.old) }
        ensures never_falls { faults self.old ≤ faults self.new };
}
