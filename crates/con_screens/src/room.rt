//! The memory of a buffer.
ghost use Rattle.std.specs.Prelude.{◌≡◌, ◌<◌, ◌≤◌, IfOk};
ghost use Rattle.con_screens.specs.Buffer.{new_buffer};

use crate::buffer::Buffer;
use con_units::{OutOfMemory, Size};
use std::alloc::Global;
use std::marker::Model;

/// The memory of a buffer, for `create`.
pub struct NewBuffer {
    buffer: Buffer,
}

impl Model for NewBuffer {
    ghost use Rattle.con_screens.specs.declared.buffer.Buffer.{Buffer};

    ghost Value = { Buffer };

    ghost view = { λ r. r.buffer };
}

// By hand, so that what drops one has this call in its proof, and not all that lies in one.
impl Drop for NewBuffer {
    fn drop(self) {
        let NewBuffer { buffer: _ } = self;
    }
}

impl NewBuffer {
    pub(crate) fn new(alloc: Global, window: Size, birth: u64) -> Result<NewBuffer, OutOfMemory>
        requires some { (0 < window.w) × (0 < window.h) }
        requires few { (window.w ≤ 512) × (window.h ≤ 256) }
        ensures { IfOk result (λ r. r ≡ new_buffer window.w window.h 1 birth) }
    {
        Ok(NewBuffer {
            buffer: Buffer::new(alloc, window, 1, birth)?,
        })
    }

    pub(crate) fn into_buffer(self) -> Buffer
        ensures { result ≡ self }
    {
        let NewBuffer { buffer } = self;
        buffer
    }
}
