//! That a console may be sent to another thread, and be shared by threads, and a closure over what may be.
//!
//! It has no code: `specs/Consoles` and `specs/Closures` are laws for whoever starts threads over a console.
#![tactic(auto)]
