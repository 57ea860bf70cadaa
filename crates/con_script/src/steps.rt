//! The steps of a script.

ghost use Rattle.std.specs.Prelude.{◌≡◌, Some, None, IfOk, IfErr, codes};
ghost use Rattle.con_events.specs.Reading.{IsForm, row_from, whole};
ghost use Rattle.con_events.specs.Words.Table.{row_of};
ghost use Rattle.serde_json.specs.View.{view, items_view};
ghost use Rattle.con_document.specs.Steps.{as_step, row_in_one, row_in_two, step_row, step_items, step_in};

use crate::cursor::Cursor;
use con_document::Version;
use con_events::{Arguments, Misread, Step, Wanted, read_call};
use con_values::ItemsLeft;
use serde_json::Value;
use std::alloc::Global;

#[tactic(auto, unfolding(con_document::specs::Steps::row_in_one))]
fn read_begun<A: Arguments>(args: &mut A) -> Result<Step, Misread>
    ensures ok { IfOk result (λ s. row_from (row_in_one (codes "read")) (A.left args.old) ≡ Some (s, A.left args.new)) }
    ensures form { IfErr result (λ e. IsForm e → row_from (row_in_one (codes "read")) (A.left args.old) ≡ None) }
{
    let handle = args.number()?;
    let n = args.number()?;
    Ok(Step::Begin(Wanted::Read { handle, n }))
}

#[tactic(auto, unfolding(con_document::specs::Steps::row_in_one))]
fn input_read_begun<A: Arguments>(args: &mut A) -> Result<Step, Misread>
    ensures ok { IfOk result (λ s. row_from (row_in_one (codes "read-input")) (A.left args.old) ≡ Some (s, A.left args.new)) }
    ensures form { IfErr result (λ e. IsForm e → row_from (row_in_one (codes "read-input")) (A.left args.old) ≡ None) }
{
    let handle = args.number()?;
    let n = args.number()?;
    Ok(Step::Begin(Wanted::ReadInput { handle, n }))
}

#[tactic(auto, unfolding(con_document::specs::Steps::row_in_one))]
fn exit<A: Arguments>(args: &mut A) -> Result<Step, Misread>
    ensures ok { IfOk result (λ s. row_from (row_in_one (codes "exit")) (A.left args.old) ≡ Some (s, A.left args.new)) }
    ensures form { IfErr result (λ e. IsForm e → row_from (row_in_one (codes "exit")) (A.left args.old) ≡ None) }
{
    match args.number() {
        Ok(status) => Ok(Step::Exit(status)),
        Err(fault) => Err(fault),
    }
}

/// The step of a call, with its arguments taken.
fn called<A: Arguments>(name: &str, args: &mut A) -> Result<Step, Misread>
    ensures ok { IfOk result (λ s. row_from (as_step (row_of name.now)) (A.left args.old) ≡ Some (s, A.left args.new)) }
    ensures form { IfErr result (λ e. IsForm e → row_from (as_step (row_of name.now)) (A.left args.old) ≡ None) }
{
    match read_call(name, args) {
        Ok(call) => Ok(Step::Call(call)),
        Err(fault) => Err(fault),
    }
}

/// The step of a name in version 1, with its arguments taken.
fn first_step<A: Arguments>(name: &str, args: &mut A) -> Result<Step, Misread>
    ensures ok { IfOk result (λ s. row_from (row_in_one name.now) (A.left args.old) ≡ Some (s, A.left args.new)) }
    ensures form { IfErr result (λ e. IsForm e → row_from (row_in_one name.now) (A.left args.old) ≡ None) }
{
    match name {
        "read" => read_begun(args),
        "read-input" => input_read_begun(args),
        "exit" => exit(args),
        _ => called(name, args),
    }
}

#[tactic(auto, unfolding(con_document::specs::Steps::row_in_two))]
fn line_begun<A: Arguments>(args: &mut A) -> Result<Step, Misread>
    ensures ok { IfOk result (λ s. row_from (row_in_two (codes "read-with")) (A.left args.old) ≡ Some (s, A.left args.new)) }
    ensures form { IfErr result (λ e. IsForm e → row_from (row_in_two (codes "read-with")) (A.left args.old) ≡ None) }
{
    let handle = args.number()?;
    let n = args.number()?;
    let initial = args.text()?;
    let mask = args.number()?;
    Ok(Step::Begin(Wanted::ReadWith {
        handle,
        n,
        initial,
        mask,
    }))
}

/// The step of a name in version 2, with its arguments taken.
fn later_step<A: Arguments>(name: &str, args: &mut A) -> Result<Step, Misread>
    ensures ok { IfOk result (λ s. row_from (row_in_two name.now) (A.left args.old) ≡ Some (s, A.left args.new)) }
    ensures form { IfErr result (λ e. IsForm e → row_from (row_in_two name.now) (A.left args.old) ≡ None) }
{
    match name {
        "read-with" => line_begun(args),
        _ => first_step(name, args),
    }
}

fn read_step<A: Arguments>(version: Version, name: &str, args: &mut A) -> Result<Step, Misread>
    ensures ok { IfOk result (λ s. row_from (step_row version name.now) (A.left args.old) ≡ Some (s, A.left args.new)) }
    ensures form { IfErr result (λ e. IsForm e → row_from (step_row version name.now) (A.left args.old) ≡ None) }
{
    match version {
        Version::One => first_step(name, args),
        Version::Two => later_step(name, args),
    }
}

/// The step of a name, with nothing after its arguments.
fn whole_step<A: Arguments>(version: Version, name: &str, args: &mut A) -> Result<Step, Misread>
    ensures ok { IfOk result (λ s. whole (row_from (step_row version name.now) (A.left args.old)) ≡ Some s) }
    ensures form { IfErr result (λ e. IsForm e → whole (row_from (step_row version name.now) (A.left args.old)) ≡ None) }
{
    let step = read_step(version, name, args)?;
    if args.is_done() {
        Ok(step)
    } else {
        Err(Misread::Form)
    }
}

fn step_of(alloc: Global, version: Version, items: &[Value]) -> Result<Step, Misread>
    ensures ok { IfOk result (λ s. step_items version (items_view items.now) ≡ Some s) }
    ensures form { IfErr result (λ e. IsForm e → step_items version (items_view items.now) ≡ None) }
{
    match items {
        [name, left @ ..] => match name.as_str() {
            Some(name) => {
                let mut cursor = Cursor {
                    alloc,
                    items: ItemsLeft { left },
                };
                whole_step(version, name, &mut cursor)
            }
            None => Err(Misread::Form),
        },
        [] => Err(Misread::Form),
    }
}

/// A step as a document has it: an array of its name and its arguments.
pub(crate) fn step(alloc: Global, version: Version, value: &Value) -> Result<Step, Misread>
    ensures ok { IfOk result (λ s. step_in version (view value.now) ≡ Some s) }
    ensures form { IfErr result (λ e. IsForm e → step_in version (view value.now) ≡ None) }
{
    match value.as_array() {
        Some(items) => step_of(alloc, version, items.as_slice()),
        None => Err(Misread::Form),
    }
}
