//! One screen: callers, and rows of what no session shows, worked out by hand from the rules of ECMA-48 and of the console's virtual terminal
//! sequences: what the definitions of the public contracts come to there.
mod callers;
mod rows;
