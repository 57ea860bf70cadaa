//! What no terminal's bytes come to, worked out by hand: a key that nobody types, a report that makes no record, and texts that are cut before they are
//! looked at. There is nothing to run.
ghost use Rattle.std.specs.Prelude.{◌≡◌, ◌++◌, ◌∷◌, [], Some, None, true, false, replicate, codes};
ghost use Rattle.con_vtin.specs.Sequences.{key_units};
ghost use Rattle.con_vtin.specs.Words.Sequences.{padded};
ghost use Rattle.con_mouse.specs.Reports.{report_of};
ghost use Rattle.tests_input.specs.Rows.{alt_alone};

/// Alt alone sends nothing.
pub fn a_key_without_a_unit_sends_nothing()
    ensures { padded (key_units alt_alone false) ≡ record { count = 0; units = replicate 8 0 } }
{}

/// A report is read whole: zeros in front, a line feed within it, and a letter behind it.
pub fn reports_are_read_whole()
    ensures zeros { report_of (0x1B ∷ codes "[<127;32767;00001m") ≡ Some (record { b = 127; x = 32767; y = 1; press = false }) }
    ensures within { report_of (0x1B ∷ codes "[<0;1" ++ 0x0A ∷ codes ";1M") ≡ None }
    ensures behind { report_of (0x1B ∷ codes "[<0;1;1MM") ≡ None }
{}
