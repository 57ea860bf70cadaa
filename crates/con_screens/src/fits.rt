//! The memory of a resize of the window.
use con_page::Fit;
use con_units::Size;
use std::marker::Model;

/// What is made ready for both screens of a buffer.
#[derive(Drop)]
pub struct BufferFit {
    pub shown: Fit,
    pub hidden: Fit,
}

/// The memory of a resize of the window, for `resize_all`.
pub struct AllFits {
    pub(crate) window: Size,
    pub(crate) slots: Vec<Option<BufferFit>>,
}

impl Model for AllFits {
    ghost use Rattle.con_screens.specs.Words.Resize.{Fits};

    ghost Value = { Fits };

    ghost use Rattle.con_screens.specs.FitsView.{fits_of};

    ghost view = { fits_of };
}

// By hand, so that what drops one has this call in its proof, and not all that lies in one.
impl Drop for AllFits {
    fn drop(self) {
        let AllFits {
            window: _,
            slots: _,
        } = self;
    }
}
