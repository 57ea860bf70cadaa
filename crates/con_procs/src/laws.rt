//! Who is attached.

ghost use Rattle.con_procs.specs.AttachedLaws.{AttachedLaws};

/// An event attaches and detaches nobody, nor does a change that leaves a process's status; an exit detaches that process alone.
pub fn is_attached_still()
    ensures { AttachedLaws }
{}
