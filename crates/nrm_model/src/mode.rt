//! The ways to control the seats.

/// How requests are controlled.
#[derive(Clone, Copy, Debug, PartialEq, Eq)]
pub enum Mode {
    /// First come, first served: a request is sold where the seats left cover it.
    FirstCome,
    /// Bid-price control (chapter 3 of Talluri and van Ryzin): the fare must also reach the sum of the legs' bid prices.
    Bid,
    /// Displacement-adjusted virtual nesting (chapter 3), with EMSR-b protection levels (chapter 2).
    Davn,
}
