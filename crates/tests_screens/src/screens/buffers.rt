//! The numbers of buffers, by which one that has the id of another is told from it.
ghost use Rattle.std.specs.Prelude.{◌≡◌, ◌<◌, IfOk};
ghost use Rattle.con_screens.specs.Buffers.{handles_of};
ghost use Rattle.con_screens.specs.Words.Buffers.{AreBuffers, IsLive};

use con_screens::Screens;
use con_units::{BufferId, OutOfMemory, Size};
use std::alloc::Global;
use std::test::Fail;

// The id of a new buffer, 99 where there is none.
fn made(screens: &mut Screens) -> Result<u32, OutOfMemory>
    requires { AreBuffers screens.old }
    ensures kept { AreBuffers screens.new }
    ensures fresh { IfOk result (λ id. id < 8 → (IsLive screens.new id) × (handles_of screens.new id ≡ 1)) }
{
    let room = screens.create_room()?;
    match screens.create(room) {
        Ok(id) => Ok(id.0),
        Err(_) => Ok(99),
    }
}

// The numbers of a buffer and of the one that gets its id, 0 where they are not there.
fn numbers_in(screens: &mut Screens) -> Result<(u64, u64), OutOfMemory>
    requires { AreBuffers screens.old }
{
    let id = BufferId(made(screens)?);
    if !screens.live(id) {
        return Ok((0, 0));
    }
    let born = screens.birth(id);
    screens.release_handle(id);
    let again = made(screens)?;
    if again != id.0 || !screens.live(id) {
        return Ok((born, 0));
    }
    Ok((born, screens.birth(id)))
}

fn numbers(alloc: Global) -> Result<(u64, u64), OutOfMemory> {
    let mut screens = Screens::new(alloc, Size { w: 80, h: 25 })?;
    numbers_in(&mut screens)
}

#[test]
fn a_buffer_with_the_id_of_another_has_a_number_of_its_own(rt: HostRuntime) -> Result<(), Fail> {
    let numbers = numbers(rt.alloc())?;
    assert!(rt; numbers == (1, 2));
    Ok(())
}
