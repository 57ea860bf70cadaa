//! Sessions: clients, the terminal's side and the painter, which con_actors has, take turns at one console.
//!
//! Each turn has one clause: it entered one event, which was ready and which is the actor's turn, or nothing.
//!
//! - [`act`] is a client's turn at any door: the first of `leave`, [`take_ctrl`], `collect` and `next_step` that there is to do.
//! - [`client_turn`] is its turn at a desk, and [`clients_turn`] lets all clients have their turns, in the order of their numbers.
//! - [`terminal_turn`] enters the event of one frame of the link, or a hangup where no frame is read.
//! - [`painter_turn`] enters a Paint and writes its frame. In every run of a terminal over these frames it shows, after each
//!   Paint, that Paint's view.
//!
//! [`run_solo`] runs a whole session by rounds of these turns, on one thread, and leaves an `Outcome`.
//!
//! [`run_mirrored`] runs one of a link by whose frames a second terminal attaches and detaches. [`mirrored_turn`] is its terminal side's turn:
//! the mirror attends to the frame; [`follow`] writes the part of a Paint's view to the second terminal. It leaves a `Mirrored`.
//!
//! A session that goes another way than by rounds has its clients' turns by [`act`], and finds a frame of the painter's in [`draw`].
//!
//! Where there is no memory a turn entered nothing, or one event that it may, and says so.
#![tactic(auto)]

mod clients;
mod mirrored;
mod painting;
mod second;
mod solo;
mod terminal;
mod turn;

pub use clients::{client_turn, clients_turn};
pub use mirrored::run_mirrored;
pub use painting::{draw, painted, painter_turn};
pub use second::{follow, followed, mirrored_turn};
pub use solo::run_solo;
pub use terminal::{heard, terminal_turn};
pub use turn::{act, take_ctrl};
