//! Cells and grids: callers, the numbers of rows, which no session shows, and cells that move past the place where a block ends.
mod callers;
mod grids;
mod rows;
