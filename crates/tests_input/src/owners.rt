//! Handles, processes and handlers: callers, and what no session shows.
mod callers;
mod chains;
mod rows;
