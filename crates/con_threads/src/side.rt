//! The thread of the terminal's side.
ghost use Rattle.std.specs.Prelude.{◌≡◌, true, false, is_some, IfOk, IfErr};
ghost use Rattle.con_book.specs.Passes.{book_id, pass_id};
ghost use Rattle.con_events.specs.declared.actor.Actor.TheVariants as actors;
ghost use Rattle.con_machine.specs.History.{run};
ghost use Rattle.con_machine.specs.Step.{is_ready};
ghost use Rattle.con_threads.specs.Scribe.{IsScribe, IsSameScribe, SeesMore, history, opened};
ghost use Rattle.con_threads.specs.Sides.{IsSending};

use crate::ledger::{Ledger, Told};
use crate::scribe::Scribe;
use con_actors::Side;
use con_book::Book;
use con_events::Event;
use con_link::LinkReader;
use con_units::OutOfMemory;
use std::sync::Wait;

/// The terminal's side. `hung`: it hung up since the terminal had failed. `broken`: it had no memory, perhaps behind bytes that it took.
#[derive(Drop)]
pub struct SideThread {
    pub scribe: Scribe,
    pub reader: LinkReader,
    pub side: Side,
    pub hung: bool,
    pub broken: bool,
}

// Whether it was entered.
fn was_told(answer: Option<Told>) -> bool
    ensures { result ≡ is_some answer }
{
    answer.is_some()
}

/// Enters an event of the terminal's side where it is ready, and says whether it was.
pub fn pass_on<R: Wait>(
    scribe: &mut Scribe,
    rt: &R,
    book: &Book<Ledger>,
    event: Event,
) -> Result<bool, OutOfMemory>
    requires book { pass_id scribe.old.pass ≡ book_id book.now }
    requires scribe { IsScribe scribe.old }
    requires actor { scribe.old.actor ≡ actors.Terminal }
    ensures same { IsSameScribe scribe.old scribe.new }
    ensures scribe { IsScribe scribe.new }
    ensures sent { IfOk result (λ entered. entered ≡ true → IsSending (opened scribe.old) event (history scribe.old) (history scribe.new)) }
    ensures blocked { IfOk result (λ entered. entered ≡ false
        → SeesMore (opened scribe.old) actors.Terminal (history scribe.old) (history scribe.new)
        × (is_ready (run (opened scribe.new) (history scribe.new)) actors.Terminal event ≡ false)) }
    ensures refused { IfErr result (λ _. SeesMore (opened scribe.old) actors.Terminal (history scribe.old) (history scribe.new)) }
{
    let answer = scribe.enter_if_ready(rt, book, event)?;
    Ok(was_told(answer))
}
