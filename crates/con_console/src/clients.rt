//! Events of an attached client, with the memory that was made ready for them.
ghost use Rattle.std.specs.Prelude.{◌≡◌, true};
ghost use Rattle.con_procs.specs.Procs.{is_attached};
ghost use Rattle.con_machine.specs.ClientRooms.{IsBeginRoom, IsClientRoom};
ghost use Rattle.con_machine.specs.Reads.{began};
ghost use Rattle.con_machine.specs.Step.{is_clients, is_due, effect};

use con_events::{Event, Reply, Wanted};
use con_machine::{ClientRoom, Parts};

#[tactic(auto, unfolding(con_machine::specs::Reads::began))]
fn begin(parts: &mut Parts, p: u8, wanted: &Wanted, room: &mut ClientRoom) -> Reply
    requires attached { is_attached parts.old.state.procs p ≡ true }
    requires room { IsBeginRoom parts.old p wanted.now room.old }
    ensures state { parts.new.state ≡ (began parts.old.state p wanted.now).after }
    ensures reply { result ≡ (began parts.old.state p wanted.now).reply }
{
    match wanted {
        Wanted::Read { handle, n } => parts.begin_read_in(p, *handle, *n, &[], 0, room),
        Wanted::ReadInput { handle, n } => parts.begin_records_in(p, *handle, *n, room),
        Wanted::ReadWith {
            handle,
            n,
            initial,
            mask,
        } => parts.begin_read_in(p, *handle, *n, initial.as_slice(), *mask, room),
    }
}

/// An event of an attached client.
#[tactic(auto, unfolding(con_machine::specs::ClientRooms::IsClientRoom, con_machine::specs::Step::is_due, con_machine::specs::Step::effect))]
pub(crate) fn client(parts: &mut Parts, p: u8, event: &Event, room: &mut ClientRoom) -> Reply
    requires attached { is_attached parts.old.state.procs p ≡ true }
    requires clients { is_clients event.now ≡ true }
    requires due { is_due parts.old.state p event.now ≡ true }
    requires room { IsClientRoom parts.old p event.now room.old }
    ensures state { parts.new.state ≡ (effect parts.old.state p event.now).after }
    ensures reply { result ≡ (effect parts.old.state p event.now).reply }
{
    match event {
        Event::Call(call) => parts.call_in(p, call, room),
        Event::Begin(wanted) => begin(parts, p, wanted, room),
        Event::Collect => parts.collect_in(p, room),
        Event::TakeCtrl => parts.take_ctrl(p),
        Event::Exit(status) => {
            parts.leave(p, *status);
            Reply::Done
        }
        _ => unreachable!(),
    }
}
