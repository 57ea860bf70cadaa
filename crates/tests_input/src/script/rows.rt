//! Limits of a session. There is nothing to run.
ghost use Rattle.std.specs.Prelude.{◌≡◌, true, false, is_some};
ghost use Rattle.con_events.specs.Words.Session.{session_of};
ghost use Rattle.tests_input.specs.Rows.{one_client};

/// A session is within its limits: a group of 0 and a window that is too wide are none.
pub fn a_session_is_within_its_limits()
    ensures within { is_some (session_of (record { w = 80; h = 25 }) (one_client 1)) ≡ true }
    ensures group { is_some (session_of (record { w = 80; h = 25 }) (one_client 0)) ≡ false }
    ensures wide { is_some (session_of (record { w = 513; h = 25 }) (one_client 1)) ≡ false }
{}
