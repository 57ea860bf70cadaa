//! Events of an attached client, with the memory that was made ready for them.
ghost use Rattle.std.specs.Prelude.{◌≡◌, true, [], List, ℕ, IfOk};
ghost use Rattle.con_procs.specs.Procs.{is_attached};
ghost use Rattle.con_readers.specs.Reads.{has_done};
ghost use Rattle.con_machine.specs.Call.{called};
ghost use Rattle.con_machine.specs.ClientRooms.{IsRoomOfCall, HasPlaces, IsReadRoom, IsRecordsRoom, IsBeginRoom, IsBackRoom, IsClientRoom};
ghost use Rattle.con_machine.specs.Reads.{began_read, began, collected};
ghost use Rattle.con_machine.specs.Words.Reads.{began_read_input};
ghost use Rattle.con_machine.specs.Step.{is_clients, is_due, effect};

use crate::parts::Parts;
use crate::rooms::client_room::ClientRoom;
use con_events::{Call, Event, Reply, Wanted};
use con_units::OutOfMemory;
use std::mem;

impl Parts {
    // Room for one read more, and for what is noted and left of it.
    fn read_places(&mut self) -> Result<(), OutOfMemory>
        ensures state { self.new.state ≡ self.old.state }
        ensures places { IfOk result (λ _. HasPlaces self.new) }
    {
        self.readers.reserve()?;
        self.notes.reserve()?;
        self.rests.reserve()
    }

    fn units_room(
        &mut self,
        p: u8,
        h: u32,
        n: u32,
        initial: &[u16],
        mask: u32,
    ) -> Result<ClientRoom, OutOfMemory>
        requires attached { is_attached self.old.state.procs p ≡ true }
        ensures state { self.new.state ≡ self.old.state }
        ensures room { IfOk result (λ room. IsReadRoom self.new p h n initial.now mask room) }
    {
        self.read_places()?;
        Ok(ClientRoom::Read(self.read_room(p, h, n, initial, mask)?))
    }

    fn input_room(&mut self, p: u8, h: u32, n: u32) -> Result<ClientRoom, OutOfMemory>
        ensures state { self.new.state ≡ self.old.state }
        ensures room { IfOk result (λ room. IsRecordsRoom self.new p h n room) }
    {
        self.readers.reserve()?;
        Ok(ClientRoom::Records(self.read_input_room(p, h, n)?))
    }

    fn begin_room(&mut self, p: u8, wanted: &Wanted) -> Result<ClientRoom, OutOfMemory>
        requires attached { is_attached self.old.state.procs p ≡ true }
        ensures state { self.new.state ≡ self.old.state }
        ensures room { IfOk result (λ room. IsBeginRoom self.new p wanted.now room) }
    {
        match wanted {
            Wanted::Read { handle, n } => self.units_room(p, *handle, *n, &[], 0),
            Wanted::ReadInput { handle, n } => self.input_room(p, *handle, *n),
            Wanted::ReadWith {
                handle,
                n,
                initial,
                mask,
            } => self.units_room(p, *handle, *n, initial.as_slice(), *mask),
        }
    }

    /// Takes all memory that an event of an attached client needs. The state stays as it was, also where there was no
    /// memory.
    #[tactic(auto, unfolding(crate::specs::ClientRooms::IsClientRoom))]
    pub fn client_room(&mut self, p: u8, event: &Event) -> Result<ClientRoom, OutOfMemory>
        requires attached { is_attached self.old.state.procs p ≡ true }
        ensures state { self.new.state ≡ self.old.state }
        ensures room { IfOk result (λ room. IsClientRoom self.new p event.now room) }
    {
        match event {
            Event::Call(call) => Ok(ClientRoom::Call(self.call_room(p, call)?)),
            Event::Begin(wanted) => self.begin_room(p, wanted),
            Event::Collect => Ok(ClientRoom::Back(self.collect_room(p)?)),
            _ => Ok(ClientRoom::Nothing),
        }
    }

    /// A call, with its memory.
    pub fn call_in(&mut self, p: u8, call: &Call, room: &mut ClientRoom) -> Reply
        requires attached { is_attached self.old.state.procs p ≡ true }
        requires room { IsRoomOfCall self.old p call.now room.old }
        ensures state { self.new.state ≡ (called self.old.state p call.now).after }
        ensures reply { result ≡ (called self.old.state p call.now).reply }
    {
        match mem::replace(room, ClientRoom::Nothing) {
            ClientRoom::Call(mut memory) => {
                let reply = self.call(p, call, &mut memory);
                drop(memory);
                reply
            }
            _ => unreachable!(),
        }
    }

    /// `ReadConsole`, with its memory.
    pub fn begin_read_in(
        &mut self,
        p: u8,
        h: u32,
        n: u32,
        initial: &[u16],
        mask: u32,
        room: &mut ClientRoom,
    ) -> Reply
        requires attached { is_attached self.old.state.procs p ≡ true }
        requires room { IsReadRoom self.old p h n initial.now mask room.old }
        ensures state { self.new.state ≡ (began_read self.old.state p h n initial.now mask).after }
        ensures reply { result ≡ (began_read self.old.state p h n initial.now mask).reply }
    {
        match mem::replace(room, ClientRoom::Nothing) {
            ClientRoom::Read(read) => self.begin_read(p, h, n, initial, mask, read),
            _ => unreachable!(),
        }
    }

    /// `ReadConsoleInput`, with its memory.
    pub fn begin_records_in(&mut self, p: u8, h: u32, n: u32, room: &mut ClientRoom) -> Reply
        requires { IsRecordsRoom self.old p h n room.old }
        ensures state { self.new.state ≡ (began_read_input self.old.state p h n).after }
        ensures reply { result ≡ (began_read_input self.old.state p h n).reply }
    {
        match mem::replace(room, ClientRoom::Nothing) {
            ClientRoom::Records(wants) => self.begin_records(p, h, n, wants),
            _ => unreachable!(),
        }
    }

    /// The answer of the read of a client, which is done, with its memory.
    pub fn collect_in(&mut self, p: u8, room: &mut ClientRoom) -> Reply
        requires done { has_done self.old.state.reads p ≡ true }
        requires room { IsBackRoom self.old p room.old }
        ensures state { self.new.state ≡ (collected self.old.state p).after }
        ensures reply { result ≡ (collected self.old.state p).reply }
    {
        match mem::replace(room, ClientRoom::Nothing) {
            ClientRoom::Back(back) => self.collect(p, back),
            _ => unreachable!(),
        }
    }
}
