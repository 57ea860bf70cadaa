//! Buffers: callers that use the laws of lent screens, counted handles and views at every id, and the numbers of buffers, which no session shows.
mod buffers;
mod callers;
