//! Generated sessions.

ghost use Rattle.std.specs.Prelude.{◌≡◌, [], ◌∷◌, ◌++◌, IfOk, OnOk};
ghost use Rattle.con_script.specs.Draws.{step_drawn, steps_drawn, script_made, scripts_made};
ghost use Rattle.con_script.specs.Generated.{session_drawn};

use crate::draws::{Draws, step, units};
use con_events::{Call, Script, Scripts, Session, Step, Steps};
use con_units::{OutOfMemory, Size};
use std::alloc::Global;

/// Puts a call that is drawn last.
fn push_step(alloc: Global, draws: &mut Draws, steps: &mut Vec<Step>) -> Result<(), OutOfMemory>
    ensures made { OnOk result (steps.new.items ≡ steps.old.items ++ (step_drawn draws.old.state).made ∷ []) }
    ensures left { OnOk result (draws.new.state ≡ (step_drawn draws.old.state).left) }
{
    match step(alloc, draws) {
        Ok(step) => match steps.push(step) {
            Ok(()) => Ok(()),
            Err(_) => Err(OutOfMemory),
        },
        Err(fault) => Err(fault),
    }
}

/// Puts so many calls that are drawn last.
fn push_steps(
    alloc: Global,
    draws: &mut Draws,
    count: u64,
    steps: &mut Vec<Step>,
) -> Result<(), OutOfMemory>
    ensures made { OnOk result (steps.new.items ≡ steps.old.items ++ (steps_drawn count draws.old.state).made) }
    ensures left { OnOk result (draws.new.state ≡ (steps_drawn count draws.old.state).left) }
{
    let mut more = count;
    while more > 0 {
        let Ok(()) = push_step(alloc, draws, steps) else {
            return Err(OutOfMemory);
        };
        more -= 1;
    }
    Ok(())
}

#[tactic(auto, unfolding(crate::specs::Draws::script_made))]
fn script(
    alloc: Global,
    draws: &mut Draws,
    program: &[u16],
    group: u32,
) -> Result<Script, OutOfMemory>
    ensures made { IfOk result (λ s. s ≡ (script_made program.now group draws.old.state).made) }
    ensures left { OnOk result (draws.new.state ≡ (script_made program.now group draws.old.state).left) }
{
    let program = units(alloc, program)?;
    let mut steps = Vec::new(alloc);
    let Ok(()) = steps.push(Step::Call(Call::SetMode(2, 7))) else {
        return Err(OutOfMemory);
    };
    push_steps(alloc, draws, 499, &mut steps)?;
    Ok(Script {
        program,
        group,
        steps: Steps(steps),
    })
}

/// The four scripts of a number.
fn scripts(alloc: Global, seed: u32) -> Result<Scripts, OutOfMemory>
    ensures { IfOk result (λ ss. ss ≡ scripts_made seed) }
{
    let mut draws = Draws { state: seed as u64 };
    let first = script(alloc, &mut draws, &[103, 101, 110, 49], 1)?;
    let second = script(alloc, &mut draws, &[103, 101, 110, 50], 2)?;
    let third = script(alloc, &mut draws, &[103, 101, 110, 51], 3)?;
    let fourth = script(alloc, &mut draws, &[103, 101, 110, 52], 4)?;
    match Vec::from_array(alloc, [first, second, third, fourth]) {
        Ok(scripts) => Ok(Scripts(scripts)),
        Err(_) => Err(OutOfMemory),
    }
}

/// The session of a number: 80 by 25, with four clients of 500 calls each.
pub fn generated(alloc: Global, seed: u32) -> Result<Session, OutOfMemory>
    ensures { IfOk result (λ s. s ≡ session_drawn seed) }
{
    let scripts = scripts(alloc, seed)?;
    match Session::new(Size { w: 80, h: 25 }, scripts) {
        Some(session) => Ok(session),
        None => unreachable!(),
    }
}
