//! Limits of frames.

/// The last place of a client: so at most 10,000 are there at once.
pub const LAST_PLACE: u64 = 9_999;

/// The most bytes behind the line of a frame.
pub const MOST_PAYLOAD: u64 = 65_536;

/// The line of a frame has fewer bytes than this, its line feed left out.
pub const MOST_HEADER: usize = 128;
