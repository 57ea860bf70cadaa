//! What all clients will do.
ghost use Rattle.std.specs.Prelude.{◌≡◌, true, nat_le};
ghost use Rattle.con_events.specs.Session.{is_size};
ghost use Rattle.con_events.specs.Words.Session.{is_script, all_scripts, are_scripts, step_count, session_of};

use crate::script::{Script, Scripts};
use con_units::Size;
use std::marker::Model;

/// A window's size and the clients, the first of which has the number 1. The window is 1 to 512 wide and 1 to 256 high.
/// There are 1 to 64 clients; each has a program of 1 to 255 units, a group of at least 1 and at most 1,024 steps, and
/// all together have at most 16,384.
#[derive(Drop)]
pub struct Session {
    size: Size,
    scripts: Scripts,
}

impl Model for Session {
    ghost use Rattle.std.specs.Prelude.{◌≡◌, true};
    ghost use Rattle.con_events.specs.Session.{Clients};
    ghost use Rattle.con_events.specs.Words.Session.{is_session};

    ghost Value = { Clients };

    ghost view = { λ s. record { size = s.size; scripts = s.scripts } };

    ghost invariant = { λ s. is_session (record { size = s.size; scripts = s.scripts }) ≡ true };
}

impl Session {
    /// The session, where it is within the limits.
    pub fn new(size: Size, scripts: Scripts) -> Option<Session>
        ensures { result ≡ session_of size scripts }
    {
        let within = has_size(size) && are_within(scripts.0.as_slice());
        if within {
            Some(Session { size, scripts })
        } else {
            None
        }
    }

    /// The window's size.
    pub fn size(&self) -> Size
        ensures value { result ≡ self.now.size }
        ensures within { is_size result ≡ true }
    {
        self.size
    }

    /// The clients' scripts, in the order of their numbers.
    pub fn scripts(&self) -> &[Script]
        ensures value { result.now ≡ self.now.scripts }
        ensures within { are_scripts result.now ≡ true }
    {
        self.scripts.0.as_slice()
    }
}

/// Whether it is the size of a window.
fn has_size(size: Size) -> bool
    ensures { result ≡ is_size size }
{
    1 <= size.w && size.w <= 512 && 1 <= size.h && size.h <= 256
}

/// Whether a script is within its limits.
fn is_within(script: &Script) -> bool
    ensures { result ≡ is_script script.now }
{
    let units = script.program.len();
    1 <= units && units <= 255 && 1 <= script.group && script.steps.0.len() <= 1024
}

/// Whether each script is within its limits.
fn are_all_within(scripts: &[Script]) -> bool
    ensures { result ≡ all_scripts scripts.now }
{
    for script in scripts {
        if !is_within(script) {
            return false;
        }
    }
    true
}

/// Whether scripts that are each within their limits have at most so many steps together.
fn has_few_steps(scripts: &[Script], most: usize) -> bool
    ensures { result ≡ nat_le (step_count scripts.now) most }
{
    let mut left = most;
    for script in scripts {
        let steps = script.steps.0.len();
        if left < steps {
            return false;
        }
        left -= steps;
    }
    true
}

/// Whether scripts are within their limits, each and all together.
fn are_within(scripts: &[Script]) -> bool
    ensures { result ≡ are_scripts scripts.now }
{
    let count = scripts.len();
    1 <= count && count <= 64 && are_all_within(scripts) && has_few_steps(scripts, 16384)
}
