//! What holds of every table.

ghost use Rattle.con_handles.specs.CountLaws.{CountLaws};

/// How many handles pass a test, whatever it is, as handles are opened and closed, and how many there are at most.
pub fn is_counted()
    ensures { CountLaws }
{}
