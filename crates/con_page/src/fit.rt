//! What a resize takes.
use con_grid::Grid;
use con_units::Size;
use std::marker::Model;

/// The memory of a resize: cells and tab stops for a buffer, made in the state of the screen that it is for.
#[derive(Drop)]
pub struct Fit {
    pub(crate) buffer: Size,
    pub(crate) window: Size,
    pub(crate) grid: Grid,
    pub(crate) tabs: Vec<bool>,
}

impl Model for Fit {
    ghost use Rattle.con_page.specs.Words.Fit.{Fit};

    ghost Value = { Fit };

    ghost use Rattle.con_page.specs.FitView.{fit_of};

    ghost view = { fit_of };
}
