//! What the checker says.

/// The first condition that a certificate fails, with the least product or leg that fails it, or that it is optimal.
#[derive(Clone, Copy, Debug, PartialEq, Eq)]
pub enum Verdict {
    /// No condition fails: allocation and bid prices are optimal.
    Optimal,
    /// The lists have other lengths than the program, a denominator is below 1, or a number is negative or reaches 2^48.
    WrongShape,
    /// The product has more than its bound; or it has less, and its fare exceeds the bid prices of its legs; or it is
    /// sold, and its fare is below them.
    WrongProduct(u16),
    /// The leg has more than its cap, or a bid price above 0 and seats left.
    WrongLeg(u8),
    /// The value isn't the cost of the bid prices.
    WrongValue,
}
