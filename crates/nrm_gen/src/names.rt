//! The names of legs and products, which are the same in each made network.
ghost use Rattle.std.specs.Prelude.{◌≡◌, ◌<◌};
ghost use Rattle.nrm_gen.specs.MadeNetwork.{leg_name, product_name};

use nrm_text::{Name, name_of};

/// The name of a leg: I1 to I6, and then O1 to O6.
pub(crate) fn leg_name(leg: u8) -> Name
    requires { leg < 12 }
    ensures { result ≡ leg_name leg }
{
    name_of(&leg_text(leg)).unwrap()
}

/// The name of a product: I1-H, I1-L and so on to O6-L, and then T1-1, T1-2 and so on to T6-6.
pub(crate) fn product_name(product: u8) -> Name
    requires { product < 60 }
    ensures { result ≡ product_name product }
{
    name_of(&product_text(product)).unwrap()
}

fn leg_text(leg: u8) -> [u8; 2]
    requires { leg < 12 }
    ensures { result ≡ leg_name leg }
{
    if leg < 6 {
        [b'I', b'1' + leg]
    } else {
        [b'O', b'1' + leg - 6]
    }
}

fn product_text(product: u8) -> [u8; 4]
    requires { product < 60 }
    ensures { result ≡ product_name product }
{
    if product < 24 {
        let [side, number] = leg_text(product / 2);
        let kind = if product % 2 == 0 { b'H' } else { b'L' };
        return [side, number, b'-', kind];
    }
    let pair = product - 24;
    [b'T', b'1' + pair / 6, b'-', b'1' + pair % 6]
}
