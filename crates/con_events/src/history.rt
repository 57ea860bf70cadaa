//! A history and its answers, as lists.

use crate::entry::Entry;
use crate::reply::Reply;
use std::marker::Model;

/// Events in the order in which they happened. Contracts see the list.
#[derive(Drop)]
pub struct Entries(pub Vec<Entry>);

impl Model for Entries {
    ghost use Rattle.std.specs.Prelude.{List};
    ghost use Rattle.con_events.specs.declared.entry.Entry.{Entry};

    ghost Value = { List Entry };

    ghost view = { λ list. list.0.items };
}

/// Answers, one for each event. Contracts see the list.
#[derive(Drop)]
pub struct Replies(pub Vec<Reply>);

impl Model for Replies {
    ghost use Rattle.std.specs.Prelude.{List};
    ghost use Rattle.con_events.specs.declared.reply.Reply.{Reply};

    ghost Value = { List Reply };

    ghost view = { λ list. list.0.items };
}

/// How many bytes of the terminal's stream there were after each picture, in order. Contracts see the list.
#[derive(Drop)]
pub struct PieceEnds(pub Vec<u64>);

impl Model for PieceEnds {
    ghost use Rattle.std.specs.Prelude.{List, ℕ};

    ghost Value = { List ℕ };

    ghost view = { λ list. list.0.items };
}
