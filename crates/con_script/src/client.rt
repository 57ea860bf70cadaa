//! The script of a client.

ghost use Rattle.std.specs.Prelude.{◌≡◌, Some, None, IfOk, IfErr, codes};
ghost use Rattle.con_events.specs.Reading.{IsForm};
ghost use Rattle.serde_json.specs.View.{view, items_view};
ghost use Rattle.con_document.specs.Session.{key, or_fault, member_at, program_in, group_in, call_at, each_from, calls_in, script_in};
ghost use Rattle.con_document.specs.Steps.{step_in};
ghost use Rattle.con_script.specs.Places.{Gives};

use crate::keys::{array_at, check_keys, halt_at};
use crate::lists::text;
use crate::place::{Halt, Place};
use crate::steps::step;
use con_document::Version;
use con_events::{Misread, Script, Step, Steps};
use con_units::Units;
use con_values::number;
use serde_json::Value;
use std::alloc::Global;

/// The text of a program, of 1 to 255 units.
fn program_of(alloc: Global, value: &Value) -> Result<Units, Misread>
    ensures ok { IfOk result (λ us. program_in (view value.now) ≡ Some us) }
    ensures form { IfErr result (λ e. IsForm e → program_in (view value.now) ≡ None) }
{
    let units = text(alloc, value)?;
    let count = units.len();
    if 1 <= count && count <= 255 {
        Ok(units)
    } else {
        Err(Misread::Form)
    }
}

fn program(alloc: Global, value: &Value) -> Result<Units, Halt>
    ensures { Gives result (or_fault (key (codes "program")) (program_in (member_at (codes "program") (view value.now)))) }
{
    let Some(member) = value.get("program") else {
        return Err(halt_at(alloc, "program"));
    };
    match program_of(alloc, member) {
        Ok(units) => Ok(units),
        Err(Misread::Form) => Err(halt_at(alloc, "program")),
        Err(Misread::OutOfMemory) => Err(Halt::OutOfMemory),
    }
}

fn group_number(value: &Value) -> Option<u32>
    ensures { result ≡ group_in (view value.now) }
{
    match number(value) {
        Some(n) if 1 <= n => Some(n),
        _ => None,
    }
}

fn group_of(value: &Value) -> Option<u32>
    ensures { result ≡ group_in (member_at (codes "group") (view value.now)) }
{
    match value.get("group") {
        Some(member) => group_number(member),
        None => None,
    }
}

fn group(alloc: Global, value: &Value) -> Result<u32, Halt>
    ensures { Gives result (or_fault (key (codes "group")) (group_in (member_at (codes "group") (view value.now)))) }
{
    match group_of(value) {
        Some(group) => Ok(group),
        None => Err(halt_at(alloc, "group")),
    }
}

fn call(alloc: Global, version: Version, i: usize, value: &Value) -> Result<Step, Halt>
    ensures { Gives result (call_at (step_in version) i (view value.now)) }
{
    match step(alloc, version, value) {
        Ok(step) => Ok(step),
        Err(Misread::Form) => Err(Halt::At(Place::Call(i))),
        Err(Misread::OutOfMemory) => Err(Halt::OutOfMemory),
    }
}

fn steps_of(alloc: Global, version: Version, items: &[Value]) -> Result<Steps, Halt>
    ensures { Gives result (each_from (call_at (step_in version)) 0 (items_view items.now)) }
{
    let mut steps = Vec::new(alloc);
    for (i, item) in items.iter().enumerate() {
        match call(alloc, version, i, item) {
            Ok(step) => {
                let Ok(()) = steps.push(step) else {
                    return Err(Halt::OutOfMemory);
                };
            }
            Err(halt) => return Err(halt),
        }
    }
    Ok(Steps(steps))
}

#[tactic(auto, unfolding(con_document::specs::Session::calls_in))]
fn steps(alloc: Global, version: Version, value: &Value) -> Result<Steps, Halt>
    ensures { Gives result (calls_in (step_in version) (member_at (codes "calls") (view value.now))) }
{
    match array_at(value, "calls", 0, 1024) {
        Some(items) => steps_of(alloc, version, items),
        None => Err(halt_at(alloc, "calls")),
    }
}

/// A client as a document has it.
pub(crate) fn script(alloc: Global, version: Version, value: &Value) -> Result<Script, Halt>
    ensures { Gives result (script_in (step_in version) (view value.now)) }
{
    let keys = ["program", "group", "calls"];
    check_keys(alloc, value, &keys)?;
    let program = program(alloc, value)?;
    let group = group(alloc, value)?;
    let steps = steps(alloc, version, value)?;
    Ok(Script {
        program,
        group,
        steps,
    })
}
