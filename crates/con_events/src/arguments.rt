//! The arguments of calls.

ghost use Rattle.std.specs.Prelude.{◌≡◌, List, Some, None, IfOk, IfErr};
ghost use Rattle.con_events.specs.Arg.{Number, Signed, OneUnit, Flag, Text, Area, Clip, WordsOf, WordList, Records};
ghost use Rattle.con_events.specs.Words.Arg.{Kind, number, signed, unit, flag, text, rect, clip, words, list, records};
ghost use Rattle.con_events.specs.Reading.{nothing_left, Item, first, others, IsForm, call_from};

use crate::call::{Call, Words};
use con_records::Taken;
use con_units::{Rect, Units};

/// Why no argument was read.
#[derive(Clone, Copy, Drop)]
pub enum Misread {
    /// It is not of the form.
    Form,
    /// There was no memory.
    OutOfMemory,
}

/// What arguments are read from, one after another.
pub trait Arguments {
    ghost left: { Self → List Item };

    fn is_done(&self) -> bool
        ensures { result ≡ nothing_left (left self.now) };

    fn number(&mut self) -> Result<u32, Misread>
        ensures ok { IfOk result (λ n. first (left self.old) number ≡ Some (Number n)) }
        ensures form { IfErr result (λ e. IsForm e → first (left self.old) number ≡ None) }
        ensures rest { left self.new ≡ others (left self.old) };

    fn signed(&mut self) -> Result<i16, Misread>
        ensures ok { IfOk result (λ n. first (left self.old) signed ≡ Some (Signed n)) }
        ensures form { IfErr result (λ e. IsForm e → first (left self.old) signed ≡ None) }
        ensures rest { left self.new ≡ others (left self.old) };

    fn unit(&mut self) -> Result<u16, Misread>
        ensures ok { IfOk result (λ n. first (left self.old) unit ≡ Some (OneUnit n)) }
        ensures form { IfErr result (λ e. IsForm e → first (left self.old) unit ≡ None) }
        ensures rest { left self.new ≡ others (left self.old) };

    fn flag(&mut self) -> Result<bool, Misread>
        ensures ok { IfOk result (λ n. first (left self.old) flag ≡ Some (Flag n)) }
        ensures form { IfErr result (λ e. IsForm e → first (left self.old) flag ≡ None) }
        ensures rest { left self.new ≡ others (left self.old) };

    fn text(&mut self) -> Result<Units, Misread>
        ensures ok { IfOk result (λ n. first (left self.old) text ≡ Some (Text n)) }
        ensures form { IfErr result (λ e. IsForm e → first (left self.old) text ≡ None) }
        ensures rest { left self.new ≡ others (left self.old) };

    fn rect(&mut self) -> Result<Rect, Misread>
        ensures ok { IfOk result (λ n. first (left self.old) rect ≡ Some (Area n)) }
        ensures form { IfErr result (λ e. IsForm e → first (left self.old) rect ≡ None) }
        ensures rest { left self.new ≡ others (left self.old) };

    fn clip(&mut self) -> Result<Option<Rect>, Misread>
        ensures ok { IfOk result (λ n. first (left self.old) clip ≡ Some (Clip n)) }
        ensures form { IfErr result (λ e. IsForm e → first (left self.old) clip ≡ None) }
        ensures rest { left self.new ≡ others (left self.old) };

    fn words(&mut self) -> Result<Words, Misread>
        ensures ok { IfOk result (λ n. first (left self.old) words ≡ Some (WordsOf n)) }
        ensures form { IfErr result (λ e. IsForm e → first (left self.old) words ≡ None) }
        ensures rest { left self.new ≡ others (left self.old) };

    fn list(&mut self) -> Result<Units, Misread>
        ensures ok { IfOk result (λ n. first (left self.old) list ≡ Some (WordList n)) }
        ensures form { IfErr result (λ e. IsForm e → first (left self.old) list ≡ None) }
        ensures rest { left self.new ≡ others (left self.old) };

    fn records(&mut self) -> Result<Taken, Misread>
        ensures ok { IfOk result (λ n. first (left self.old) records ≡ Some (Records n)) }
        ensures form { IfErr result (λ e. IsForm e → first (left self.old) records ≡ None) }
        ensures rest { left self.new ≡ others (left self.old) };
}
