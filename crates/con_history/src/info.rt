//! The settings of line histories.

/// The settings of line histories (`CONSOLE_HISTORY_INFO` of the Console API).
#[derive(Clone, Copy, PartialEq, Eq)]
pub struct HistoryInfo {
    /// How many lines a history keeps at most, from 1 to 999.
    pub lines: u32,
    /// How many histories there are at most, from 1 to 64.
    pub number: u32,
    /// 1 where a new line drops the lines that equal it (`HISTORY_NO_DUP_FLAG`), else 0.
    pub flag: u32,
}
