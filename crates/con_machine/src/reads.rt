//! Reads: how one begins, what is noted of it, how it is served and shows, how it is collected, and what a line leaves for the next.
pub(crate) mod beginning;
pub(crate) mod collecting;
pub(crate) mod echoes;
pub(crate) mod fronts;
pub(crate) mod noted;
pub(crate) mod notes;
pub(crate) mod rest;
pub(crate) mod rests;
pub(crate) mod serving;
