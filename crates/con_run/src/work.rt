//! What each thread of a session does until it returns: turns of con_threads, one behind another.
pub(crate) mod client;
pub(crate) mod moved;
pub(crate) mod painter;
pub(crate) mod side;
pub(crate) mod writer;
