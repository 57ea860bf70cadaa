//! Output modes.
ghost use Rattle.std.specs.Prelude.{◌≡◌, ◌<◌};
ghost use Rattle.con_page.specs.Mode.{mode_of, number_of};

/// An output mode.
#[derive(Clone, Copy)]
pub struct Mode {
    /// 0x0001: controls act.
    pub processed: bool,
    /// 0x0002: a print in the last column wraps.
    pub wrap: bool,
    /// 0x0004: sequences act.
    pub sequences: bool,
    /// 0x0008: a line feed keeps its column, and a wrap waits for the next print.
    pub keeps_column: bool,
}

impl Mode {
    /// The mode of a number.
    pub fn of(number: u32) -> Mode
        requires { number < 16 }
        ensures { result ≡ mode_of number }
    {
        Mode {
            processed: number % 2 == 1,
            wrap: number / 2 % 2 == 1,
            sequences: number / 4 % 2 == 1,
            keeps_column: number / 8 % 2 == 1,
        }
    }

    /// Its number.
    pub fn number(self) -> u32
        ensures number { result ≡ number_of self }
        ensures small { result < 16 }
    {
        let processed = if self.processed { 1 } else { 0 };
        let wrap = if self.wrap { 2 } else { 0 };
        let sequences = if self.sequences { 4 } else { 0 };
        let keeps_column = if self.keeps_column { 8 } else { 0 };
        processed + wrap + sequences + keeps_column
    }
}
