//! Who acts.

/// Who does what an event says.
#[derive(Clone, Copy)]
pub enum Actor {
    /// A client, by its number from 1 on.
    Client(u8),
    /// The side of the terminal: its bytes, its size, its going away.
    Terminal,
    /// Who shows the console on the terminal.
    Painter,
}
