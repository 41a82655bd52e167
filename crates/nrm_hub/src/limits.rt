//! Limits of many desks.

/// The last number that a desk may give a line.
pub const LAST_SEQUENCE: u64 = 999_999_999_999_999;

/// How many desks there may be, those of the journal included.
pub const MOST_DESKS: usize = 100_000;

/// How many rows of a desk are held at least, if it has so many: a line that comes again gets the reply of its row, if that is held.
pub const MOST_HELD: usize = 100;

/// How many rows the journal may have.
pub const MOST_ROWS: u64 = 4_294_967_296;

/// A line of a client has fewer bytes than this, its line feed left out.
pub const MOST_LINE: usize = 1_000;

/// The most bytes of a client that wait to be used.
pub const MOST_WAITING: usize = 131_072;

/// The most clients that may have been opened: each has a serial number of its own.
pub const MOST_OPENED: u64 = 18_446_744_073_709_551_615;

/// How many lines of a client are taken at a time. Of those that may take long, it is one.
pub const MOST_LINES: u32 = 100;
