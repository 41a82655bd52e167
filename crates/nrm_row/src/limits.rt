//! The limit of rows.

/// Columns of a row, the right side counted: the products, the slack of each leg and of each bound, and the right side.
pub const MOST_COLUMNS: u16 = 577;
