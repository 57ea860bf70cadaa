//! Handles that buffers count.
ghost use Rattle.std.specs.Prelude.{◌≡◌, ◌≢◌, ℕ, ◌<◌};
ghost use Rattle.con_screens.specs.Buffers.{handles_of};
ghost use Rattle.con_screens.specs.Words.Buffers.{AreBuffers};
ghost use Rattle.con_screens.specs.Words.Stamps.{all_remembered};
ghost use Rattle.con_machine.specs.Words.HandleCalls.{retained, released};
ghost use Rattle.con_machine.specs.Sound.{HasLive};

use con_handles::Object;
use con_screens::Screens;

/// Counts a handle more of what it stands for.
pub(crate) fn retain(screens: &mut Screens, object: Object)
    requires buffers { AreBuffers screens.old }
    requires live { HasLive screens.old object }
    requires few { (id : ℕ) → id ≢ 0 → handles_of screens.old id < 65535 }
    ensures is { screens.new ≡ retained object screens.old }
    ensures kept { AreBuffers screens.new }
    ensures remembered { all_remembered screens.new ≡ all_remembered screens.old }
{
    match object {
        Object::Input => {}
        Object::Output(id) => screens.retain_handle(id),
    }
}

/// Counts a handle less of what it stood for.
pub(crate) fn release(screens: &mut Screens, object: Object)
    requires buffers { AreBuffers screens.old }
    requires live { HasLive screens.old object }
    ensures is { screens.new ≡ released object screens.old }
    ensures kept { AreBuffers screens.new }
{
    match object {
        Object::Input => {}
        Object::Output(id) => screens.release_handle(id),
    }
}
