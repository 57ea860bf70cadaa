//! The second terminal: its mirror, what a frame of the link does to that, and the frame of a Paint's part.
ghost use Rattle.std.specs.Prelude.{◌≡◌, true, false, [], IfOk, None};
ghost use Rattle.con_units.specs.Words.View.{IsWhole};
ghost use Rattle.con_link.specs.Words.Mirrored.{is_mirror_frame};
ghost use Rattle.con_link.specs.LinkReading.{mirrored};
ghost use Rattle.con_mirror.specs.Mirror.{AreSince};
ghost use Rattle.con_actors.specs.Words.Second.{FrameOf, IsGiven, StaysGiven, kept_behind, kept_by};
ghost use Rattle.con_actors.specs.Words.Sender.{plain_of};

use con_link::{LinkFault, MirrorFrame};
use con_mirror::Mirror;
use con_paint::room_for;
use con_units::{Frame, Marks, OutOfMemory, View};
use std::alloc::Global;

/// The mirror, its frame's bytes, and where the stream of the second terminal ends at each Paint.
#[derive(Drop)]
pub struct Second {
    pub mirror: Mirror,
    pub out: Vec<u8>,
    pub ends: Vec<u64>,
    /// How many bytes the frames have.
    pub end: u64,
    /// The second terminal's sink has failed.
    pub failed: bool,
}

/// A second terminal at a session's beginning: none is attached.
pub fn none_attached(alloc: Global) -> Second
    ensures mirror { result.mirror.kept ≡ None }
    ensures given { result.mirror.given ≡ None }
    ensures ends { (result.ends.items ≡ []) × (result.end ≡ 0) }
    ensures failed { result.failed ≡ false }
{
    Second {
        mirror: Mirror::new(alloc),
        out: Vec::new(alloc),
        ends: Vec::new(alloc),
        end: 0,
        failed: false,
    }
}

/// What a frame of the link does to the mirror.
pub fn attend(mirror: &mut Mirror, frame: &MirrorFrame) -> Result<(), OutOfMemory>
    requires { is_mirror_frame frame.now ≡ true }
    ensures kept { IfOk result (λ _. mirror.new.kept ≡ kept_by mirror.old.kept frame.now) }
    ensures given { StaysGiven mirror.old.given mirror.new.given }
{
    match frame {
        MirrorFrame::Plain(_) => Ok(()),
        MirrorFrame::Attach(size) => mirror.attach(*size),
        MirrorFrame::Detach => {
            mirror.detach();
            Ok(())
        }
    }
}

/// What was read of the link does to the mirror: where no frame was read, nothing.
pub fn attended(
    mirror: &mut Mirror,
    read: &Result<MirrorFrame, LinkFault>,
) -> Result<(), OutOfMemory>
    requires { IfOk read.now (λ frame. is_mirror_frame frame ≡ true) }
    ensures kept { IfOk result (λ _. mirror.new.kept ≡ kept_behind mirror.old.kept read.now) }
    ensures given { StaysGiven mirror.old.given mirror.new.given }
{
    match read {
        Ok(frame) => attend(mirror, frame),
        Err(_) => Ok(()),
    }
}

/// What was read, as every link has it: A and D ask for a frame of output.
pub fn as_plain_read(read: Result<MirrorFrame, LinkFault>) -> Result<Frame, LinkFault>
    ensures { result ≡ plain_of mirrored read }
{
    match read {
        Ok(MirrorFrame::Plain(frame)) => Ok(frame),
        Ok(_) => Ok(Frame::Ask),
        Err(fault) => Err(fault),
    }
}

/// Writes the frame of the view's part to `out`, in the place of what was there; none where no terminal is attached. A row without a
/// mark is as it was in the view that was given last.
pub fn draw_part(
    mirror: &mut Mirror,
    out: &mut Vec<u8>,
    view: &View,
    marks: &Marks,
) -> Result<(), OutOfMemory>
    requires view { IsWhole view.now }
    requires marks { AreSince mirror.old.given view.now marks.now }
    ensures frame { IfOk result (λ _. FrameOf mirror.old.kept mirror.new.kept view.now out.new.items) }
    ensures given { IfOk result (λ _. IsGiven view.now mirror.new.given) }
{
    out.clear();
    let Some(size) = mirror.size() else {
        return Ok(());
    };
    if out.reserve(room_for(size)).is_err() {
        return Err(OutOfMemory);
    }
    mirror.paint(view, marks, out);
    Ok(())
}
