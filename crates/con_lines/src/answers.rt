//! Answers from a line.

ghost use Rattle.std.specs.Prelude.{◌≡◌, [], ◌∷◌, Some, None, IfOk, IfErr, option_map, option_and_then};
ghost use Rattle.con_events.specs.Reading.{IsForm};
ghost use Rattle.con_values.specs.Values.{number_in, records_in};
ghost use Rattle.serde_json.specs.View.{view, items_view};
ghost use Rattle.serde_json.specs.Find.{as_array};
ghost use Rattle.con_lines.specs.Told.{kept_whole as whole_kept, kept_length as length_kept, whole_in, all_in, units_in, only as only_item};
ghost use Rattle.con_lines.specs.Told.{array_only, if_many};
ghost use Rattle.con_lines.specs.Told.{code_of, is_bare as none_there, flag_of, flagged_in, number_and_flag_in, cells_in, wait_in, value_in, control_in};
ghost use Rattle.con_lines.specs.Told.{fail_in, answer_named, answer_items, reply_in, length_in, painted_in};

use crate::cursor::units;
use crate::unhex::{cells_of, units_from};
use con_events::{Form, Lines, Misread, Numbers, Reply};
use con_units::{Code, OutOfMemory};
use con_values::{number, records, rect};
use serde_json::Value;
use std::alloc::Global;

/// A number of 64 bits with its sign is one.
fn kept_whole(n: i64) -> Option<i64>
    ensures { result ≡ whole_kept n }
{
    Some(n)
}

/// A number of 64 bits is one.
fn kept_length(n: u64) -> Option<u64>
    ensures { result ≡ length_kept n }
{
    Some(n)
}

/// A number of 64 bits with its sign.
fn whole(value: &Value) -> Option<i64>
    ensures { result ≡ whole_in (view value.now) }
{
    kept_whole(found!(value.as_i64()))
}

/// A number of 64 bits.
pub fn length(value: &Value) -> Option<u64>
    ensures { result ≡ length_in (view value.now) }
{
    kept_length(found!(value.as_u64()))
}

/// The one item.
pub fn only(items: &[Value]) -> Option<&Value>
    ensures { option_map (λ v. view v.now) result ≡ only_item (items_view items.now) }
{
    match items {
        [] => None,
        [one] => Some(one),
        [_, _, ..] => None,
    }
}

/// Whether there is no item.
pub fn is_bare(items: &[Value]) -> bool
    ensures { result ≡ none_there (items_view items.now) }
{
    items.is_empty()
}

/// The items of the one item.
fn inner(items: &[Value]) -> Option<&[Value]>
    ensures { option_map (λ vs. items_view vs.now) result ≡ array_only (items_view items.now) }
{
    match only(items) {
        Some(value) => match value.as_array() {
            Some(inner) => Some(inner.as_slice()),
            None => None,
        },
        None => None,
    }
}

fn numbers_of(alloc: Global, items: &[Value]) -> Result<Numbers, Misread>
    ensures ok { IfOk result (λ zs. all_in whole_in (items_view items.now) ≡ Some zs) }
    ensures form { IfErr result (λ e. IsForm e → all_in whole_in (items_view items.now) ≡ None) }
{
    let mut numbers = Vec::new(alloc);
    for item in items {
        let Some(n) = whole(item) else {
            return Err(Misread::Form);
        };
        let Ok(()) = numbers.push(n) else {
            return Err(Misread::OutOfMemory);
        };
    }
    Ok(Numbers(numbers))
}

fn lines_of(alloc: Global, items: &[Value]) -> Result<Lines, Misread>
    ensures ok { IfOk result (λ ls. all_in units_in (items_view items.now) ≡ Some ls) }
    ensures form { IfErr result (λ e. IsForm e → all_in units_in (items_view items.now) ≡ None) }
{
    let mut lines = Vec::new(alloc);
    for item in items {
        let line = units(alloc, item)?;
        let Ok(()) = lines.push(line) else {
            return Err(Misread::OutOfMemory);
        };
    }
    Ok(Lines(lines))
}

/// So many numbers.
fn many(alloc: Global, count: u8, items: &[Value]) -> Result<Numbers, Misread>
    ensures ok { IfOk result (λ zs. option_and_then (if_many count) (all_in whole_in (items_view items.now)) ≡ Some zs) }
    ensures form { IfErr result (λ e. IsForm e → option_and_then (if_many count) (all_in whole_in (items_view items.now)) ≡ None) }
{
    let numbers = numbers_of(alloc, items)?;
    if numbers.0.len() == count as usize {
        Ok(numbers)
    } else {
        Err(Misread::Form)
    }
}

fn number_and_flag(alloc: Global, items: &[Value]) -> Result<Numbers, Misread>
    ensures ok { IfOk result (λ zs. number_and_flag_in (items_view items.now) ≡ Some zs) }
    ensures form { IfErr result (λ e. IsForm e → number_and_flag_in (items_view items.now) ≡ None) }
{
    match items {
        [first, last] => number_and_flag_of(alloc, first, last),
        _ => Err(Misread::Form),
    }
}

fn number_and_flag_of(alloc: Global, first: &Value, last: &Value) -> Result<Numbers, Misread>
    ensures ok { IfOk result (λ zs. flagged_in (view first.now) (view last.now) ≡ Some zs) }
    ensures form { IfErr result (λ e. IsForm e → flagged_in (view first.now) (view last.now) ≡ None) }
{
    let Some(n) = whole(first) else {
        return Err(Misread::Form);
    };
    let Some(set) = last.as_bool() else {
        return Err(Misread::Form);
    };
    match two_numbers(alloc, n, flag_number(set)) {
        Ok(numbers) => Ok(numbers),
        Err(_) => Err(Misread::OutOfMemory),
    }
}

fn two_numbers(alloc: Global, first: i64, last: i64) -> Result<Numbers, OutOfMemory>
    ensures { IfOk result (λ zs. zs ≡ first ∷ last ∷ []) }
{
    match Vec::from_slice(alloc, &[first, last]) {
        Ok(numbers) => Ok(Numbers(numbers)),
        Err(_) => Err(OutOfMemory),
    }
}

/// 1 for true, 0 for false.
fn flag_number(set: bool) -> i64
    ensures { result ≡ flag_of set }
{
    if set { 1 } else { 0 }
}

fn ids(alloc: Global, items: &[Value]) -> Result<Numbers, Misread>
    ensures ok { IfOk result (λ zs. option_and_then (all_in whole_in) (array_only (items_view items.now)) ≡ Some zs) }
    ensures form { IfErr result (λ e. IsForm e → option_and_then (all_in whole_in) (array_only (items_view items.now)) ≡ None) }
{
    match inner(items) {
        Some(inner) => numbers_of(alloc, inner),
        None => Err(Misread::Form),
    }
}

fn sides(alloc: Global, items: &[Value]) -> Result<Numbers, Misread>
    ensures ok { IfOk result (λ zs. option_and_then (if_many 4) (option_and_then (all_in whole_in) (array_only (items_view items.now))) ≡ Some zs) }
    ensures form { IfErr result (λ e. IsForm e → option_and_then (if_many 4) (option_and_then (all_in whole_in) (array_only (items_view items.now))) ≡ None) }
{
    match inner(items) {
        Some(inner) => many(alloc, 4, inner),
        None => Err(Misread::Form),
    }
}

fn lines(alloc: Global, items: &[Value]) -> Result<Lines, Misread>
    ensures ok { IfOk result (λ ls. option_and_then (all_in units_in) (array_only (items_view items.now)) ≡ Some ls) }
    ensures form { IfErr result (λ e. IsForm e → option_and_then (all_in units_in) (array_only (items_view items.now)) ≡ None) }
{
    match inner(items) {
        Some(inner) => lines_of(alloc, inner),
        None => Err(Misread::Form),
    }
}

/// A rectangle, and cells in hexadecimal.
fn cells(alloc: Global, items: &[Value]) -> Result<Reply, Misread>
    ensures ok { IfOk result (λ r. cells_in (items_view items.now) ≡ Some r) }
    ensures form { IfErr result (λ e. IsForm e → cells_in (items_view items.now) ≡ None) }
{
    match items {
        [sides, text] => {
            let Some(sides) = rect(sides) else {
                return Err(Misread::Form);
            };
            let words = units(alloc, text)?;
            Ok(Reply::Cells(sides, cells_of(alloc, words.as_slice())?))
        }
        _ => Err(Misread::Form),
    }
}

/// A text, or records.
fn waited(alloc: Global, value: &Value) -> Result<Reply, Misread>
    ensures ok { IfOk result (λ r. wait_in (view value.now) ≡ Some r) }
    ensures form { IfErr result (λ e. IsForm e → wait_in (view value.now) ≡ None) }
{
    match value.as_str() {
        Some(text) => Ok(Reply::Units(given!(units_from(alloc, text.as_bytes())))),
        None => Ok(Reply::Records(given!(records(alloc, value)))),
    }
}

/// What stands behind `ok`.
fn value(alloc: Global, form: Form, items: &[Value]) -> Result<Reply, Misread>
    ensures ok { IfOk result (λ r. value_in form (items_view items.now) ≡ Some r) }
    ensures form { IfErr result (λ e. IsForm e → value_in form (items_view items.now) ≡ None) }
{
    match form {
        Form::Nothing => {
            if is_bare(items) {
                Ok(Reply::Done)
            } else {
                Err(Misread::Form)
            }
        }
        Form::Number => match only(items) {
            Some(one) => match number(one) {
                Some(n) => Ok(Reply::Number(n)),
                None => Err(Misread::Form),
            },
            None => Err(Misread::Form),
        },
        Form::Fields(count) => Ok(Reply::Numbers(given!(many(alloc, count, items)))),
        Form::NumberAndFlag => Ok(Reply::Numbers(given!(number_and_flag(alloc, items)))),
        Form::Sides => Ok(Reply::Numbers(given!(sides(alloc, items)))),
        Form::Ids => Ok(Reply::Numbers(given!(ids(alloc, items)))),
        Form::Lines => Ok(Reply::Lines(given!(lines(alloc, items)))),
        Form::Cells => cells(alloc, items),
        Form::Control => Err(Misread::Form),
        Form::Units => match only(items) {
            Some(one) => Ok(Reply::Units(given!(units(alloc, one)))),
            None => Err(Misread::Form),
        },
        Form::Records => match only(items) {
            Some(one) => Ok(Reply::Records(given!(records(alloc, one)))),
            None => Err(Misread::Form),
        },
        Form::Wait => match only(items) {
            Some(one) => waited(alloc, one),
            None => Err(Misread::Form),
        },
    }
}

/// The refusal of a number.
fn code(n: u32) -> Option<Code>
    ensures { result ≡ code_of n }
{
    match n {
        5 => Some(Code::Denied),
        6 => Some(Code::BadHandle),
        31 => Some(Code::NoAlias),
        87 => Some(Code::BadArgument),
        109 => Some(Code::Closed),
        995 => Some(Code::Aborted),
        1816 => Some(Code::Limit),
        _ => None,
    }
}

/// What stands behind `fail`.
fn failed(items: &[Value]) -> Result<Reply, Misread>
    ensures ok { IfOk result (λ r. fail_in (items_view items.now) ≡ Some r) }
    ensures form { IfErr result (λ e. IsForm e → fail_in (items_view items.now) ≡ None) }
{
    let Some(one) = only(items) else {
        return Err(Misread::Form);
    };
    let Some(n) = number(one) else {
        return Err(Misread::Form);
    };
    match code(n) {
        Some(code) => Ok(Reply::Fail(code)),
        None => Err(Misread::Form),
    }
}

/// What stands behind `ctrl`.
fn control(form: Form, items: &[Value]) -> Result<Reply, Misread>
    ensures ok { IfOk result (λ r. control_in form (items_view items.now) ≡ Some r) }
    ensures form { IfErr result (λ e. IsForm e → control_in form (items_view items.now) ≡ None) }
{
    let Form::Control = form else {
        return Err(Misread::Form);
    };
    let Some(one) = only(items) else {
        return Err(Misread::Form);
    };
    match number(one) {
        Some(n) => Ok(Reply::Ctrl(n)),
        None => Err(Misread::Form),
    }
}

fn named(alloc: Global, form: Form, name: &str, items: &[Value]) -> Result<Reply, Misread>
    ensures ok { IfOk result (λ r. answer_named form name.now (items_view items.now) ≡ Some r) }
    ensures form { IfErr result (λ e. IsForm e → answer_named form name.now (items_view items.now) ≡ None) }
{
    match name {
        "ok" => value(alloc, form, items),
        "fail" => failed(items),
        "ctrl" => control(form, items),
        _ => Err(Misread::Form),
    }
}

fn reply_of(alloc: Global, form: Form, items: &[Value]) -> Result<Reply, Misread>
    ensures ok { IfOk result (λ r. answer_items form (items_view items.now) ≡ Some r) }
    ensures form { IfErr result (λ e. IsForm e → answer_items form (items_view items.now) ≡ None) }
{
    match items {
        [name, rest @ ..] => match name.as_str() {
            Some(name) => named(alloc, form, name, rest),
            None => Err(Misread::Form),
        },
        [] => Err(Misread::Form),
    }
}

/// A reply of a form.
pub fn reply(alloc: Global, form: Form, value: &Value) -> Result<Reply, Misread>
    ensures ok { IfOk result (λ r. reply_in form (view value.now) ≡ Some r) }
    ensures form { IfErr result (λ e. IsForm e → reply_in form (view value.now) ≡ None) }
{
    match value.as_array() {
        Some(items) => reply_of(alloc, form, items.as_slice()),
        None => Err(Misread::Form),
    }
}

fn painted_of(items: &[Value]) -> Option<u64>
    ensures { option_map (λ end. (Reply.Done, end)) result ≡ painted_in (items_view items.now) }
{
    match items {
        [_, end] => length(end),
        _ => None,
    }
}

/// The stream's length after a picture.
pub fn painted(value: &Value) -> Option<u64>
    ensures { option_map (λ end. (Reply.Done, end)) result ≡ option_and_then painted_in (as_array (view value.now)) }
{
    match value.as_array() {
        Some(items) => painted_of(items.as_slice()),
        None => None,
    }
}
