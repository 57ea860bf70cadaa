//! A scribe at its book, as a door to the console.
ghost use Rattle.std.specs.Prelude.{◌≡◌};
ghost use Rattle.con_threads.specs.Ledger.{brief_told};

use crate::ledger::{Ledger, Told};
use crate::scribe::Scribe;
use con_actors::{Brief, Door};
use con_book::Book;
use con_events::{Actor, Event};
use con_units::OutOfMemory;
use std::sync::Wait;

/// What a client looks at in what it was told.
pub(crate) fn brief_in(told: Told) -> Brief
    ensures { result ≡ brief_told told }
{
    match told {
        Told::Brief(brief) => brief,
        Told::Picture(_) => Brief::Fine,
    }
}

/// A scribe at its book, lent for one turn.
#[derive(Drop)]
pub struct Post<'a, R> {
    pub rt: &'a R,
    pub book: &'a Book<Ledger>,
    pub scribe: &'a mut Scribe,
}

impl<'a, R: Wait> Post<'a, R> {
    /// A scribe at its book.
    pub fn at(rt: &'a R, book: &'a Book<Ledger>, scribe: &'a mut Scribe) -> Post<'a, R>
        ensures scribe { (result.scribe.now ≡ scribe.old) × (result.scribe.ghost_name ≡ scribe.entry.ghost_name) }
        ensures book { result.book.now ≡ book.now }
    {
        Post { rt, book, scribe }
    }
}

/// Others may enter events in between.
impl<'a, R: Wait> Door for Post<'a, R> {
    ghost use Rattle.con_book.specs.Passes.{book_id, pass_id};
    ghost use Rattle.con_threads.specs.Post.{AreOthers, none, joins, others};
    ghost use Rattle.con_threads.specs.Scribe.{opened, history, IsScribe, IsSameScribe};

    type Kept = &'a mut Scribe;

    ghost history = { λ post. history post.scribe.now };

    ghost stands = { λ post lent. IsSameScribe lent.now post.scribe.now × (post.scribe.ghost_name ≡ lent.ghost_name) };

    ghost begins = { λ lent s. opened lent.now ≡ s };

    ghost serves = { λ post actor. (pass_id post.scribe.now.pass ≡ book_id post.book.now) × IsScribe post.scribe.now × (post.scribe.now.actor ≡ actor) };

    ghost may_between = { AreOthers };

    fn enter(&mut self, _actor: Actor, event: Event) -> Result<Brief, OutOfMemory> {
        let told = self.scribe.enter(self.rt, self.book, event)?;
        Ok(brief_in(told))
    }

    fn enter_if_ready(
        &mut self,
        _actor: Actor,
        event: Event,
    ) -> Result<Option<Brief>, OutOfMemory> {
        match self.scribe.enter_if_ready(self.rt, self.book, event)? {
            None => Ok(None),
            Some(told) => Ok(Some(brief_in(told))),
        }
    }

    fn check(&mut self, _actor: Actor, event: &Event) -> bool {
        self.scribe.check(self.rt, self.book, event)
    }

    ghost none = { none };

    ghost joins = { joins };

    ghost others = { others };
}
