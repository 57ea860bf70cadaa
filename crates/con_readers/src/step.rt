// What one step was.
ghost use Rattle.std.specs.Prelude.{◌≡◌};
ghost use Rattle.con_readers.specs.Steps.{is_idle};

use con_cooked::Echo;

/// What happened in one step, and to which process's read.
#[derive(Clone, Copy, PartialEq, Eq)]
pub enum ReadStep {
    /// Nothing.
    Idle,
    /// It became the first that is not done.
    Started(u8),
    /// Its line took a record, and this is to be shown.
    Echo(u8, Echo),
    /// It took records without a unit.
    Dropped(u8),
    /// It is done, with the length in units of an ended line before its expansion, and 0 for another read.
    Finished(u8, u16),
    /// A masked control ended its line, and nothing is to be shown.
    Woken(u8),
}

/// Whether nothing happened.
pub fn is_idle(step: ReadStep) -> bool
    ensures { result ≡ is_idle step }
{
    matches!(step, ReadStep::Idle)
}
