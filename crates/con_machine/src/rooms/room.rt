//! The memory of an event.
ghost use Rattle.std.specs.Prelude.{◌≡◌, IsSome, Some, None};

use crate::rooms::client_room::ClientRoom;
use crate::rooms::terminal_room::SideRoom;

/// What an event is given that takes memory, made ready in the state in which it is entered: that of an attached client, or that of the
/// terminal's side and of the painter. A client that is not attached needs none.
pub struct Room {
    client: Option<ClientRoom>,
    side: Option<SideRoom>,
}

// By hand, so that what drops a room has this call in its proof, and not all that lies in one.
impl Drop for Room {
    fn drop(self) {
        let Room { client, side } = self;
        drop(client);
        drop(side);
    }
}

impl Room {
    /// No memory.
    pub fn none() -> Room
        ensures { result ≡ record { client = None; side = None } }
    {
        Room {
            client: None,
            side: None,
        }
    }

    /// That of an attached client.
    pub fn for_client(room: ClientRoom) -> Room
        ensures { result ≡ record { client = Some room; side = None } }
    {
        Room {
            client: Some(room),
            side: None,
        }
    }

    /// That of the terminal's side.
    pub fn for_side(room: SideRoom) -> Room
        ensures { result ≡ record { client = None; side = Some room } }
    {
        Room {
            client: None,
            side: Some(room),
        }
    }

    /// What is an attached client's.
    pub fn of_client(self) -> ClientRoom
        requires { IsSome self.client }
        ensures { self.client ≡ Some result }
    {
        let Room { client, side } = self;
        drop(side);
        let Some(room) = client else { unreachable!() };
        room
    }

    /// What is the terminal side's.
    pub fn of_side(self) -> SideRoom
        requires { IsSome self.side }
        ensures { self.side ≡ Some result }
    {
        let Room { client, side } = self;
        drop(client);
        let Some(room) = side else { unreachable!() };
        room
    }
}
