//! The memory of a client's event.

use crate::rooms::call_room::CallRoom;
use crate::rooms::read_room::Beginning;
use con_readers::WantsRecords;
use con_units::Units;

/// What a client's event is given that takes memory, made ready in the state in which it is entered.
#[derive(Drop)]
pub enum ClientRoom {
    /// It takes none.
    Nothing,
    /// That of a call.
    Call(CallRoom),
    /// A read of units.
    Read(Beginning),
    /// A read of records. None where it is refused.
    Records(Option<WantsRecords>),
    /// What of a line's text is left for its handle when the read is collected.
    Back(Option<Units>),
}
