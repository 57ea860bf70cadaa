//! What a report determines.

ghost use Rattle.con_trace.specs.Words.Report.{ReportTells, NoneIsWrong};

/// A report determines the history, the replies, the streams' lengths and the last line.
pub fn report_tells()
    ensures { ReportTells }
{}

/// No line of a report is wrong.
pub fn none_is_wrong()
    ensures { NoneIsWrong }
{}
