//! Lines, as the texts share them.
ghost use Rattle.std.specs.Prelude.{◌≡◌, ◌≤◌, ◌++◌, length};
ghost use Rattle.nrm_text.specs.Words.{spaced};

use nrm_text::{Name, Text};

/// The most bytes of a line, but for that of the protections of a leg. The longest is that of a product on a leg with its fare.
pub(crate) const ROOM: usize = 144;

/// A word, and the names of a leg and of a product on it.
pub(crate) fn names_on_leg(word: &[u8], leg: &Name, product: &Name) -> Text<ROOM>
    requires { length word.now ≤ 10 }
    ensures text { result ≡ word.now ++ spaced leg.now ++ spaced product.now }
    ensures length { length result ≤ 36 }
{
    let mut line = Text::of_bytes(word);
    line.push_bytes(b" ");
    line.push_name(leg);
    line.push_bytes(b" ");
    line.push_name(product);
    line
}
