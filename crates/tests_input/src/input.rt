//! The outside, keys, mouse reports and link frames: callers, and what no session shows.
mod callers;
mod outside;
mod rows;
