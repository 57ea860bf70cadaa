//! A client's seat.
ghost use Rattle.std.specs.Prelude.{◌≡◌, false};

use crate::hands::Hands;
use crate::worker::Worker;

/// What a session keeps of one client.
#[derive(Drop)]
pub struct Seat {
    pub worker: Worker,
    pub hands: Hands,
}

impl Seat {
    /// A client that has entered nothing, with its handlers.
    pub fn new(hands: Hands) -> Seat
        ensures worker { result.worker ≡ record { at = 0; reading = false; leaving = false; gone = false } }
        ensures hands { result.hands ≡ hands }
    {
        Seat {
            worker: Worker {
                at: 0,
                reading: false,
                leaving: false,
                gone: false,
            },
            hands,
        }
    }
}
