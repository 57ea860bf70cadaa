//! What is known stays true.

ghost use Rattle.con_audit.specs.Agrees.{StaysTrue};
ghost use Rattle.con_audit.specs.Words.Headline.{YesIsARun};
ghost use Rattle.con_audit.specs.OneMore.{EntryByEntry};

use con_laws::once::each_record_is_taken_once;

/// What is known of a partial terminal holds of every terminal of which it held before: of each one of its size at the beginning,
/// and behind any bytes of each one of which it held before them. What is known to be shown is shown.
pub fn a_partial_terminal_stays_true()
    ensures { StaysTrue }
{}

/// Where an audit says yes, the entries are one history that follows the session and the link, the replies are the console's, each record of
/// the input goes to one read at most, all is done, and in every terminal run each Paint shows its view.
pub fn yes_is_a_run()
    ensures { YesIsARun }
{
    each_record_is_taken_once();
}

/// An audit may go entry by entry: behind entries that keep a part, those with one entry more keep it exactly where this entry is as the
/// console, its client, the link and the partial terminal behind them say.
pub fn an_audit_goes_entry_by_entry()
    ensures { EntryByEntry }
{}
