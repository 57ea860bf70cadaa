//! What was made ready for an event that has no use for it.
ghost use Rattle.std.specs.Prelude.{◌≡◌};
ghost use Rattle.con_events.specs.declared.reply.Reply.TheVariants as replies;

use con_events::Reply;
use con_units::Code;

/// The event is refused, and what was made ready for it goes.
pub(crate) fn refused<T: Drop>(code: Code, room: T) -> Reply
    ensures { result ≡ replies.Fail code }
{
    drop(room);
    Reply::Fail(code)
}

/// The event is done without what was made ready for it.
pub(crate) fn done<T: Drop>(room: T) -> Reply
    ensures { result ≡ replies.Done }
{
    drop(room);
    Reply::Done
}
