//! Two parts of a session beside each other.
ghost use Rattle.std.specs.Prelude.{◌≡◌};

use con_threads::Signals;
use std::snapshot::Snapshot;
use std::sync::Wait;
use std::thread::{Promise, Threads, scope, scope_env};

// What a thread does once.
trait Duty {
    type Gain;

    ghost may_begin: { Self → Type 0 };

    ghost gains: { Self → Self.Gain → Type 0 };

    fn fulfil(self) -> Self::Gain
        requires { may_begin self }
        ensures { gains self result };
}

// A part that its owner lends and has back afterwards.
#[derive(Drop)]
struct OnLoan<'a, F> {
    part: &'a mut F,
}

impl<'a, F: FnMut()> Duty for OnLoan<'a, F> {
    type Gain = &'a mut F;

    ghost may_begin = { λ d. F.pre d.part.now };

    ghost gains = { λ d back. (back.ghost_name ≡ d.part.ghost_name) × F.step d.part.now tt back.now };

    fn fulfil(self) -> &'a mut F {
        let OnLoan { part } = self;
        part();
        part
    }
}

// That a duty gives what it gains.
#[derive(Drop)]
struct Pledge<D>(Snapshot<D>);

impl<G, D: Duty<Gain = G>> Promise<G> for Pledge<D> {
    ghost kept_by = { λ pledge gain. D.gains pledge.0.value gain };
}

// The first duty in a thread of its own, the second in this one. Where no thread can be made all are told to return, and the first is done
// here, before the second.
fn share<
    'e,
    R: Threads + Wait,
    D: Duty<Gain = G> + Send + Drop + 'e,
    E: Duty<Gain = H> + Drop,
    G: Send + Drop + 'e,
    H,
>(rt: &R, signals: &Signals, there: D, here: E) -> (G, H)
    requires { D.may_begin there × E.may_begin here }
    ensures { D.gains there result.0 × E.gains here result.1 }
{
    scope(
        scope_env(),
        rt,
        move |threads| -> (G, H)
            requires { D.may_begin there × E.may_begin here }
            ensures { D.gains there result.0 × E.gains here result.1 }
        {
            let pledge = Pledge(Snapshot::of(&there));
            let begun = threads.spawn_with(
                pledge,
                move || -> G
                    requires { D.may_begin there }
                    ensures { D.gains there result }
                { there.fulfil() },
            );
            match begun {
                Ok(handle) => {
                    signals.made();
                    let second = here.fulfil();
                    (handle.join(rt), second)
                }
                Err(refused) => {
                    signals.stop();
                    let first = (refused.value)();
                    (first, here.fulfil())
                }
            }
        },
    )
}

// The owner has back what it lent.
fn back<F>(part: &mut F)
    ensures { part.new ≡ part.old }
{}

/// The first part in a thread of its own, the second in this one, until both have returned. Where no thread can be made, all parts of the session
/// are told to return, and then the first is called here, and behind it the second: so the first must not wait for it once all are told.
pub fn beside<R: Threads + Wait, F: FnMut() + Send, G: FnMut()>(
    rt: &R,
    signals: &Signals,
    there: &mut F,
    here: &mut G,
)
    requires { F.pre there.old × G.pre here.old }
    ensures { F.step there.old tt there.new × G.step here.old tt here.new }
{
    let (one, two) = share(rt, signals, OnLoan { part: there }, OnLoan { part: here });
    back(one);
    back(two);
}
