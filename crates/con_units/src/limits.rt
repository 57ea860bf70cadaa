//! The greatest sizes and numbers that the console takes.

/// The greatest width of a window or a buffer, in columns.
pub const MOST_COLUMNS: u16 = 512;

/// The greatest height of a window, in rows.
pub const MOST_WINDOW_ROWS: u16 = 256;

/// The greatest height of a buffer, in rows.
pub const MOST_BUFFER_ROWS: u16 = 2048;

/// How many cells, units or attribute words one call reads or writes at most.
pub const MOST_ITEMS: usize = 16_384;

/// How many input records one call reads or writes at most.
pub const MOST_RECORDS: usize = 1024;

/// How many units an edited line has at most.
pub const LINE_UNITS: usize = 1024;
