//! A screen without its unfinished text: what items of a text, setters and lines that are typed do to it.
//!
//! A [`Page`] (`specs/Page.antt`) is a grid of cells, the cursor, its size and whether it is visible, the window, the output
//! mode, the pen, the saved position, the margins, the tab stops, the character set and whether a wrap is due before the
//! next print. Places count from 0 in the buffer, x (the column) then y (the row).
//!
//! - `specs/Effect.antt` says what each item of a text does (ECMA-48, the console's virtual terminal sequences), one
//!   equation for each. [`Page::apply`] applies an item; [`Page::print_run`] and [`Page::end_rows`] apply several at once.
//! - [`Page::echo`] and [`Page::end_line`] show a line that is edited, which begins at an [`Origin`] (`specs/Echo.antt`).
//! - [`Page::fit`] takes the memory of a resize, and [`Page::resize`] does it (`specs/Fit.antt`).
//! - Cells are written and erased in the pen's attribute: a word of sixteen colours, and for each of foreground and background
//!   an index of the table of 256 where the pen has one (con_vtgram's pen).
//!
//! Every call needs a page within its bounds (`IsPage`) and leaves one. Only `new` and `fit` take memory. Texts, and what
//! they tell besides, are con_screen's.
#![tactic(auto)]

pub mod ends;
pub mod fit;
mod front;
pub mod info;
pub mod margins;
pub mod mode;
pub mod origin;
pub mod page;
mod tabs;

pub use fit::Fit;
pub use info::Info;
pub use mode::Mode;
pub use origin::Origin;
pub use page::Page;
