//! What the bytes of a link determine.

ghost use Rattle.con_link.specs.MirrorOnly.{OneMirrorAnswer, OneMirrorFrame};
ghost use Rattle.con_link.specs.Only.{NoFrame, OneAnswer, OneFrame};

/// The bytes of a link begin with one frame at most.
pub fn one_frame()
    ensures { OneFrame }
{}

/// Where a fault shows, no frame stands.
pub fn no_frame()
    ensures { NoFrame }
{}

/// But for a failed source and want of memory, the bytes of a link and the place determine the answer and what is taken.
pub fn one_answer()
    ensures { OneAnswer }
{}

/// The bytes of a link that may have a second terminal begin with one frame at most.
pub fn one_mirror_frame()
    ensures { OneMirrorFrame }
{}

/// But for a failed source and want of memory, the bytes of such a link and the place determine the answer and what is taken.
pub fn one_mirror_answer()
    ensures { OneMirrorAnswer }
{}
