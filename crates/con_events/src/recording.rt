//! Reading an input record, and telling it.

ghost use Rattle.std.specs.Prelude.{◌≡◌, Some, None, IfOk, IfErr, codes};
ghost use Rattle.con_events.specs.Reading.{IsForm, row_from, whole};
ghost use Rattle.con_events.specs.Words.Arg.{put_all};
ghost use Rattle.con_records.specs.declared.record.Record.TheVariants as record_of;
ghost use Rattle.con_events.specs.RecordTable.{row_of_record, name_of_record, args_of_record};

use crate::arguments::{Arguments, Misread};
use crate::telling::Shows;
use con_records::{Key, Mouse, Record};
use con_units::{OutOfMemory, Size};

/// The record of a name, with its fields taken.
#[tactic(auto, unfolding(crate::specs::RecordTable::row_of_record))]
pub fn read_record<A: Arguments>(name: &str, args: &mut A) -> Result<Record, Misread>
    ensures ok { IfOk result (λ r. row_from (row_of_record name.now) (A.left args.old) ≡ Some (r, A.left args.new)) }
    ensures form { IfErr result (λ e. IsForm e → row_from (row_of_record name.now) (A.left args.old) ≡ None) }
{
    match name {
        "key" => read_key(args),
        "mouse" => read_mouse(args),
        "size" => read_size(args),
        "menu" => Ok(Record::Menu(given!(args.number()))),
        "focus" => Ok(Record::Focus(given!(args.flag()))),
        _ => Err(Misread::Form),
    }
}

#[tactic(auto, unfolding(crate::specs::RecordTable::row_of_record))]
fn read_key<A: Arguments>(args: &mut A) -> Result<Record, Misread>
    ensures ok { IfOk result (λ r. row_from (row_of_record (codes "key")) (A.left args.old) ≡ Some (r, A.left args.new)) }
    ensures form { IfErr result (λ e. IsForm e → row_from (row_of_record (codes "key")) (A.left args.old) ≡ None) }
{
    Ok(Record::Key(Key {
        down: given!(args.flag()),
        repeat: given!(args.unit()),
        vk: given!(args.unit()),
        scan: given!(args.unit()),
        unit: given!(args.unit()),
        state: given!(args.number()),
    }))
}

#[tactic(auto, unfolding(crate::specs::RecordTable::row_of_record))]
fn read_mouse<A: Arguments>(args: &mut A) -> Result<Record, Misread>
    ensures ok { IfOk result (λ r. row_from (row_of_record (codes "mouse")) (A.left args.old) ≡ Some (r, A.left args.new)) }
    ensures form { IfErr result (λ e. IsForm e → row_from (row_of_record (codes "mouse")) (A.left args.old) ≡ None) }
{
    Ok(Record::Mouse(Mouse {
        x: given!(args.signed()),
        y: given!(args.signed()),
        buttons: given!(args.number()),
        state: given!(args.number()),
        flags: given!(args.number()),
    }))
}

#[tactic(auto, unfolding(crate::specs::RecordTable::row_of_record))]
fn read_size<A: Arguments>(args: &mut A) -> Result<Record, Misread>
    ensures ok { IfOk result (λ r. row_from (row_of_record (codes "size")) (A.left args.old) ≡ Some (r, A.left args.new)) }
    ensures form { IfErr result (λ e. IsForm e → row_from (row_of_record (codes "size")) (A.left args.old) ≡ None) }
{
    Ok(Record::Size(Size {
        w: given!(args.unit()),
        h: given!(args.unit()),
    }))
}

/// The record of a name, with nothing after its fields.
pub fn whole_record<A: Arguments>(name: &str, args: &mut A) -> Result<Record, Misread>
    ensures ok { IfOk result (λ r. whole (row_from (row_of_record name.now) (A.left args.old)) ≡ Some r) }
    ensures form { IfErr result (λ e. IsForm e → whole (row_from (row_of_record name.now) (A.left args.old)) ≡ None) }
{
    let record = read_record(name, args);
    if args.is_done() {
        record
    } else {
        record.and(Err(Misread::Form))
    }
}

/// A record's name.
pub fn record_name(input: &Record) -> &'static str
    ensures { result.now ≡ name_of_record input.now }
{
    match input {
        Record::Key(_) => "key",
        Record::Mouse(_) => "mouse",
        Record::Size(_) => "size",
        Record::Menu(_) => "menu",
        Record::Focus(_) => "focus",
    }
}

/// Tells a record's fields in order. What stands behind one that could not be told is told all the same: nobody reads it.
pub fn tell_record<S: Shows>(input: &Record, out: &mut S) -> Result<(), OutOfMemory>
    ensures { IfOk result (λ _. out.new ≡ put_all S.put out.old (args_of_record input.now)) }
{
    match input {
        Record::Key(key) => tell_key(*key, out),
        Record::Mouse(mouse) => out
            .signed(mouse.x)
            .and(out.signed(mouse.y))
            .and(out.number(mouse.buttons))
            .and(out.number(mouse.state))
            .and(out.number(mouse.flags)),
        Record::Size(size) => out.unit(size.w).and(out.unit(size.h)),
        Record::Menu(number) => out.number(*number),
        Record::Focus(set) => out.flag(*set),
    }
}

fn tell_key<S: Shows>(key: Key, out: &mut S) -> Result<(), OutOfMemory>
    ensures { IfOk result (λ _. out.new ≡ put_all S.put out.old (args_of_record (record_of.Key key))) }
{
    out.flag(key.down)
        .and(out.unit(key.repeat))
        .and(out.unit(key.vk))
        .and(out.unit(key.scan))
        .and(out.unit(key.unit))
        .and(out.number(key.state))
}
