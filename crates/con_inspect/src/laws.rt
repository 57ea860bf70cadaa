//! What files by name determine.

ghost use Rattle.con_inspect.specs.Words.Auditing.{OneJudgement};

use con_link::one_answer;
use con_trace::{none_is_wrong, report_tells};

/// Files that are told are found to be one thing.
pub fn one_judgement()
    ensures { OneJudgement }
{
    one_answer();
    report_tells();
    none_is_wrong();
}
