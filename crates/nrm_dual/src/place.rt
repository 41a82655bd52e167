//! What a line of a file gives a fraction for: the value, a product or a leg.
ghost use Rattle.std.specs.Prelude.{◌≡◌, IfSome, MatchOption, None, Some};
ghost use Rattle.std.specs.Option.{option_map};
ghost use Rattle.nrm_model.specs.Limits.{IsNetwork};
ghost use Rattle.nrm_dual.specs.Reading.{entry_at, entry_of, named_place, written_in};
ghost use Rattle.nrm_dual.specs.Inner.Sheets.{IsPlaceOf, meant};

use nrm_model::Network;
use nrm_stream::{split_once, without_carriage_return};
use nrm_text::{is_word, name_of};

// The value, or a product or a leg by its number.
#[derive(Clone, Copy)]
pub(crate) enum Place {
    Value,
    Product(u16),
    Leg(u8),
}

// The product or the leg of this name.
fn place_named(net: &Network, kind: &[u8], name: &[u8]) -> Option<Place>
    requires { IsNetwork net.now }
    ensures place { option_map meant result ≡ named_place net.now kind.now name.now }
    ensures within { IfSome result (IsPlaceOf net.now) }
{
    let name = name_of(name)?;
    if is_word(kind, b"product") {
        Some(Place::Product(net.find_product(&name)?))
    } else if is_word(kind, b"leg") {
        Some(Place::Leg(net.find_leg(&name)?))
    } else {
        None
    }
}

// The place that a line gives a fraction for, and the word that is to write the fraction.
pub(crate) fn place_in<'a>(net: &Network, line: &'a [u8]) -> Option<(Place, &'a [u8])>
    requires { IsNetwork net.now }
    ensures { MatchOption result (entry_of net.now line.now ≡ None)
        (λ found. (entry_of net.now line.now ≡ entry_at (Some (meant found.0)) (written_in found.1.now)) × IsPlaceOf net.now found.0) }
{
    let (kind, rest) = split_once(without_carriage_return(line), b' ')?;
    let Some((name, fraction)) = split_once(rest, b' ') else {
        return if is_word(kind, b"value") {
            Some((Place::Value, rest))
        } else {
            None
        };
    };
    match split_once(fraction, b' ') {
        None => Some((place_named(net, kind, name)?, fraction)),
        Some(_) => None,
    }
}
