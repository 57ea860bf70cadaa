//! The specified terminal: callers, and rows of dumps and of units.
mod callers;
mod rows;
