//! The painter: a caller, and the bytes of small frames, by hand.
mod callers;
mod frames;
