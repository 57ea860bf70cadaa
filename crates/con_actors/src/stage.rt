//! A session at its beginning.
ghost use Rattle.std.specs.Prelude.{◌≡◌, ◌⊎◌, ℕ, ◌≤◌, Bool, true, false, List, [], map, length, All, Option, None, Some, IfOk};
ghost use Rattle.con_events.specs.declared.end.End.{End};
ghost use Rattle.con_machine.specs.Follows.{kinds_of};
ghost use Rattle.con_laws.specs.Rounds.{Begun};
ghost use Rattle.con_machine.specs.State.{opening};
ghost use Rattle.con_actors.specs.Held.{AreFresh, HandsStand};
ghost use Rattle.con_actors.specs.Opening.{fresh};
ghost use Rattle.con_actors.specs.Worker.{told_kind};

use crate::canvas::Canvas;
use crate::desk::Desk;
use crate::hands::Hands;
use crate::seat::Seat;
use crate::side::Side;
use con_console::Console;
use con_events::{End, Session};
use con_handlers::CtrlHandler;
use con_link::LinkReader;
use con_paint::Painter;
use con_units::OutOfMemory;
use std::alloc::Global;

/// The console with its history, the terminal's side with the reader of its link, and the painter.
#[derive(Drop)]
pub struct Stage {
    pub desk: Desk,
    pub reader: LinkReader,
    pub side: Side,
    pub canvas: Canvas,
}

// How many handlers each rack has.
fn sizes_of(
    alloc: Global,
    racks: &[Vec<Box<dyn CtrlHandler + Send>>],
) -> Result<Vec<u8>, OutOfMemory>
    requires { All (λ rack. length rack.items ≤ 255) racks.now }
    ensures { IfOk result (λ sizes. sizes.items ≡ map (λ rack. length rack.items) racks.now) }
{
    let Ok(mut sizes) = Vec::with_capacity(alloc, racks.len()) else {
        return Err(OutOfMemory);
    };
    for rack in racks {
        sizes.push_reserved(rack.len() as u8);
    }
    Ok(sizes)
}

// A client that has entered nothing, with this rack.
fn seat_for(alloc: Global, rack: Vec<Box<dyn CtrlHandler + Send>>) -> Result<Seat, OutOfMemory>
    ensures worker { IfOk result (λ s. s.worker ≡ fresh) }
    ensures hands { IfOk result (λ s. (b : Begun) (p : ℕ) → kinds_of b.racks p ≡ map (λ b. told_kind (memory b)) rack.items
        → HandsStand b p [] memory s.hands) }
{
    Ok(Seat::new(Hands::new(alloc, rack)?))
}

// A client for each rack.
fn seats_of(
    alloc: Global,
    racks: Vec<Vec<Box<dyn CtrlHandler + Send>>>,
) -> Result<Vec<Seat>, OutOfMemory>
    ensures fresh { IfOk result (λ seats. AreFresh memory (map (λ rack. map (λ b. told_kind (memory b)) rack.items) racks.items) 0 seats.items) }
    ensures count { IfOk result (λ seats. length seats.items ≡ length racks.items) }
{
    let mut seats = Vec::new(alloc);
    for rack in racks {
        if seats.reserve(1).is_err() {
            return Err(OutOfMemory);
        }
        let seat = seat_for(alloc, rack)?;
        seats.push_reserved(seat);
    }
    Ok(seats)
}

// So many clients: those behind the last rack have none.
fn fitted(alloc: Global, seats: Vec<Seat>, count: usize) -> Result<Vec<Seat>, OutOfMemory>
    ensures count { IfOk result (λ all. length all.items ≡ count) }
    ensures fresh { IfOk result (λ all. (racks : List (List ℕ)) → length racks ≡ length seats.items
        → AreFresh memory racks 0 seats.items → AreFresh memory racks 0 all.items) }
{
    let mut all = seats;
    while all.len() < count {
        if all.reserve(1).is_err() {
            return Err(OutOfMemory);
        }
        let seat = seat_for(alloc, Vec::new(alloc))?;
        all.push_reserved(seat);
    }
    all.truncate(count);
    Ok(all)
}

// All but the clients, at the beginning of a session.
fn stage_for(alloc: Global, session: &Session, sizes: &[u8]) -> Result<Stage, OutOfMemory>
    ensures state { IfOk result (λ stage. stage.desk.console.state ≡ opening session.now sizes.now) }
    ensures entries { IfOk result (λ stage. (stage.desk.entries.items ≡ []) × (stage.desk.replies.items ≡ [])) }
    ensures side { IfOk result (λ stage. (stage.side ≡ record { ended = false; end = End.Done }) × (stage.reader ≡ 0)) }
    ensures canvas { IfOk result (λ stage. (stage.canvas.ends.items ≡ []) × (stage.canvas.end ≡ 0) × (stage.canvas.failed ≡ false)) }
{
    let painter = Painter::new(alloc, session.size())?;
    let console = Console::new(alloc, session, sizes)?;
    Ok(Stage {
        desk: Desk {
            console,
            entries: Vec::new(alloc),
            replies: Vec::new(alloc),
        },
        reader: LinkReader::new(alloc),
        side: Side {
            ended: false,
            end: End::Done,
        },
        canvas: Canvas {
            painter,
            out: Vec::new(alloc),
            ends: Vec::new(alloc),
            end: 0,
            failed: false,
        },
    })
}

/// A session begins: its clients have started, each with the rack of its number.
pub fn begun(
    alloc: Global,
    session: &Session,
    racks: Vec<Vec<Box<dyn CtrlHandler + Send>>>,
) -> Result<(Stage, Vec<Seat>), OutOfMemory>
    requires { All (λ rack. length rack.items ≤ 255) racks.items }
    ensures state { IfOk result (λ r. r.0.desk.console.state ≡ opening session.now (map (λ rack. length rack.items) racks.items)) }
    ensures entries { IfOk result (λ r. (r.0.desk.entries.items ≡ []) × (r.0.desk.replies.items ≡ [])) }
    ensures side { IfOk result (λ r. (r.0.side ≡ record { ended = false; end = End.Done }) × (r.0.reader ≡ 0)) }
    ensures canvas { IfOk result (λ r. (r.0.canvas.ends.items ≡ []) × (r.0.canvas.end ≡ 0) × (r.0.canvas.failed ≡ false)) }
    ensures count { IfOk result (λ r. length r.1.items ≡ length session.now.scripts) }
    ensures fresh { IfOk result (λ r. AreFresh memory (map (λ rack. map (λ b. told_kind (memory b)) rack.items) racks.items) 0 r.1.items) }
{
    let sizes = sizes_of(alloc, racks.as_slice())?;
    let seats = seats_of(alloc, racks)?;
    let seats = fitted(alloc, seats, session.scripts().len())?;
    let stage = stage_for(alloc, session, sizes.as_slice())?;
    Ok((stage, seats))
}
