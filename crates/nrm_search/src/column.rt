//! The columns of the program, and where a product stands.

/// What a row can have as its basic column: the seats sold of a product, or the seats left on a leg, its slack.
#[derive(Clone, Copy, PartialEq, Eq)]
pub(crate) enum Column {
    Product(u16),
    Slack(u8),
}

impl Column {
    /// Whether this column comes first: products by number, and then slacks by number.
    pub(crate) fn precedes(self, other: Column) -> bool {
        match (self, other) {
            (Column::Product(own), Column::Product(product)) => own < product,
            (Column::Product(_), Column::Slack(_)) => true,
            (Column::Slack(_), Column::Product(_)) => false,
            (Column::Slack(own), Column::Slack(leg)) => own < leg,
        }
    }
}

/// Where a product stands: basic in a row, which has its seats, or outside the basis with no seat or with its whole bound.
#[derive(Clone, Copy, PartialEq, Eq)]
pub(crate) enum Standing {
    Basic,
    Nothing,
    Whole,
}
