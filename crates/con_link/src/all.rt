//! All frames of a link.

ghost use Rattle.std.specs.Prelude.{◌≡◌, ℕ, ◌≤◌, true, List, [], ◌++◌, length, OnOk, OnErr, IfErr, flat_map, Err};
ghost use Rattle.std.specs.List.{list_all};
ghost use Rattle.con_outside.specs.Outside.{Rose, then_left};
ghost use Rattle.con_link.specs.Frames.{spelling, is_frame, goes_on, ends_link};
ghost use Rattle.con_link.specs.Plainly.{Answers, IsLink};

use crate::fault::LinkFault;
use crate::reader::LinkReader;
use con_outside::Source;
use con_units::Frame;
use std::alloc::Global;

fn ends(frame: &Frame) -> bool
    ensures { result ≡ ends_link frame.now }
{
    matches!(frame, Frame::End | Frame::Hangup)
}

/// Reads the frames of a link through its first hangup or to its end: each is the frame that the bytes spell after those
/// before it, and none stands past the one that ends the link. Where one is not read, those before it are there, and none of
/// them ends the link.
pub fn all_frames<I: Source>(
    alloc: Global,
    link: &mut I,
    frames: &mut Vec<Frame>,
) -> Result<(), LinkFault>
    requires { frames.old.items ≡ [] }
    ensures spelled { OnOk result (I.left link.old ≡ then_left (flat_map spelling frames.new.items) (I.left link.new)) }
    ensures frames { list_all is_frame frames.new.items ≡ true }
    ensures whole { OnOk result (IsLink frames.new.items (I.left link.new)) }
    ensures going { OnErr result (list_all goes_on frames.new.items ≡ true) }

    // What was taken after the frames, and why that is none.
    ensures stopped { IfErr result (λ fault. (text : List ℕ) × (I.left link.old ≡ then_left (flat_map spelling frames.new.items ++ text) (I.left link.new))
        × Answers (Err fault) (length (flat_map spelling frames.new.items)) text (I.left link.new)) }
    ensures failed { result ≡ Err LinkFault.Failed → Rose (I.faults link.old) (I.faults link.new) }
{
    let mut reader = LinkReader::new(alloc);
    'reading: loop {
        if frames.reserve(1).is_err() {
            return Err(LinkFault::OutOfMemory);
        }
        let frame = reader.next(link)?;
        let ends = ends(&frame);
        frames.push_reserved(frame);
        if ends {
            return Ok(());
        }
    }
}
