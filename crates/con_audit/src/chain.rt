//! The control handlers of a client of a run that is audited, as numbers.
ghost use Rattle.std.specs.Prelude.{◌≡◌, Option};
ghost use Rattle.con_handlers.specs.Answers.{answer, raised};
ghost use Rattle.con_handlers.specs.Delivery.{newest};
ghost use Rattle.con_machine.specs.Chain.{answers_to, asked_once};
ghost use Rattle.con_machine.specs.Words.Chain.{delivered_to, is_handled, without_handler};
ghost use Rattle.con_audit.specs.Links.{handlers_of};

/// A handler: its place in the rack, its kind, and how often it was asked.
#[derive(Clone, Copy, PartialEq, Eq)]
pub struct Link {
    pub place: u32,
    pub kind: u8,
    pub asked: u64,
}

// What a handler answers.
fn answers(link: Link, event: u32) -> bool
    ensures { result ≡ answer link.kind link.asked event }
{
    match link.kind {
        1 => true,
        3 => link.asked == 0,
        4 => event != 0,
        _ => false,
    }
}

// The newest one that answers true.
fn newest(links: &[Link], event: u32) -> Option<usize>
    ensures { result ≡ newest (answers_to event (handlers_of links.now)) }
{
    let mut at = links.len();
    while 0 < at {
        at -= 1;
        if answers(links[at], event) {
            return Some(at);
        }
    }
    None
}

// The handlers from this one on are asked once more.
fn ask_from(links: &mut [Link], first: usize)
    ensures { handlers_of links.new ≡ asked_once first (handlers_of links.old) }
{
    for at in first..links.len() {
        ask(&mut links[at]);
    }
}

// A handler is asked once more.
fn ask(link: &mut Link)
    ensures { link.new ≡ record link.old { asked = raised link.old.asked } }
{
    if link.asked < u64::MAX {
        link.asked += 1;
    }
}

/// An event is delivered; whether a handler answers true.
pub fn deliver(links: &mut [Link], event: u32) -> bool
    ensures asked { handlers_of links.new ≡ delivered_to (handlers_of links.old) event }
    ensures handled { result ≡ is_handled (handlers_of links.old) event }
{
    match newest(links, event) {
        Some(first) => {
            ask_from(links, first);
            true
        }
        None => {
            ask_from(links, 0);
            false
        }
    }
}

/// The handler of this place goes.
pub fn without(links: &mut Vec<Link>, place: u32)
    ensures { handlers_of links.new.items ≡ without_handler (handlers_of links.old.items) place }
{
    links.retain(|link| link.place != place);
}
