// The chain.
ghost use Rattle.std.specs.Prelude.{◌≡◌, ◌==◌, [], ◌++◌, ◌∷◌, ◌≤◌, length, remove, OnOk, OnErr, IfErr};
ghost use Rattle.con_handlers.specs.Answers.{answer};
ghost use Rattle.con_handlers.specs.Words.Delivery.{Delivers, removal};
ghost use Rattle.con_handlers.specs.Words.Memory.{after_event};

use crate::handler::CtrlHandler;
use con_units::Code;
use std::alloc::Global;

/// Handlers, the oldest first.
#[derive(Drop)]
pub struct Chain {
    pub handlers: Vec<Box<dyn CtrlHandler + Send>>,
}

/// Which handler of the chain handled an event, counted from the oldest.
#[derive(Clone, Copy, PartialEq, Eq, Debug)]
pub enum Delivered {
    /// The one at this index, from 0.
    Handled(usize),
    /// None: all answered false.
    Unhandled,
}

/// A handler that was not added, since there was no memory.
#[derive(Drop)]
pub struct Unadded {
    pub handler: Box<dyn CtrlHandler + Send>,
}

fn ask(handler: &mut Box<dyn CtrlHandler + Send>, event: u32) -> bool
    ensures answers { result ≡ will handler.old event }
    ensures memory { memory handler.new ≡ after_event event (memory handler.old) }
    ensures by_kind { 1 ≤ (memory handler.old).kind
        → will handler.old event ≡ answer (memory handler.old).kind (memory handler.old).asked event }
{
    handler.handle(event)
}

fn deliver_to(handlers: &mut [Box<dyn CtrlHandler + Send>], event: u32) -> Delivered
    ensures { Delivers (λ b. will b event) memory event handlers.old handlers.new result }
{
    let mut at = handlers.len();
    while at > 0 {
        at -= 1;
        let one = &mut handlers[at];
        if ask(one, event) {
            return Delivered::Handled(at);
        }
    }
    Delivered::Unhandled
}

impl Chain {
    /// A chain with no handler.
    pub fn new(alloc: Global) -> Chain
        ensures { result.handlers.items ≡ [] }
    {
        Chain {
            handlers: Vec::new(alloc),
        }
    }

    /// How many handlers there are.
    pub fn len(&self) -> usize
        ensures { result ≡ length self.now.handlers.items }
    {
        self.handlers.len()
    }

    /// Whether there is none.
    pub fn is_empty(&self) -> bool
        ensures { result ≡ (length self.now.handlers.items == 0) }
    {
        self.handlers.is_empty()
    }

    /// Puts a handler last: it is the newest. Where there is no memory it comes back.
    pub fn add(&mut self, handler: Box<dyn CtrlHandler + Send>) -> Result<(), Unadded>
        ensures ok { OnOk result (self.new.handlers.items ≡ self.old.handlers.items ++ handler ∷ []) }
        ensures err { OnErr result (self.new.handlers.items ≡ self.old.handlers.items) }
        ensures back { IfErr result (λ e. e.handler ≡ handler) }
    {
        match self.handlers.push(handler) {
            Ok(()) => Ok(()),
            Err(failed) => Err(Unadded {
                handler: failed.value,
            }),
        }
    }

    /// Drops a handler, counted from the oldest. `BadArgument`: there is none at the index.
    pub fn remove(&mut self, index: usize) -> Result<(), Code>
        ensures answer { result ≡ removal (length self.old.handlers.items) index }
        ensures ok { OnOk result (self.new.handlers.items ≡ remove self.old.handlers.items index) }
        ensures err { OnErr result (self.new.handlers.items ≡ self.old.handlers.items) }
    {
        if index >= self.handlers.len() {
            return Err(Code::BadArgument);
        }
        self.handlers.remove(index);
        Ok(())
    }

    /// Asks from the newest down to the first that answers true.
    pub fn deliver(&mut self, event: u32) -> Delivered
        ensures { Delivers (λ b. will b event) memory event
            self.old.handlers.items self.new.handlers.items result }
    {
        deliver_to(self.handlers.as_mut_slice(), event)
    }
}
