//! Lines made of pieces, worked by hand.
ghost use Rattle.std.specs.Prelude.{◌≤◌, ◌<◌, ◌^◌, ◌+◌, length, unsigned_abs};

use nrm_text::{Line, Text, name_of};

#[test]
#[tactic(auto, using(nrm_text::proofs::Decimals::short_decimal))]
fn a_line_is_its_pieces(rt: HostRuntime) {
    let mut line = Line::new();
    line.push_bytes(b"ok ");
    line.push_u64(1_000_000_000_000);
    line.push_bytes(b" ");
    line.push_u64(0);
    line.push_bytes(b"\n");
    assert_eq!(rt; line.bytes(), b"ok 1000000000000 0\n".as_slice());
}

#[test]
fn a_text_begins_with_its_bytes(rt: HostRuntime) {
    let mut line = Line::of_bytes(b"leg AB");
    line.push_count(b"seats", 999);
    line.push_count(b"sold", u64::MAX);
    line.push_spaced(0);
    assert_eq!(rt;
        line.bytes(),
        b"leg AB seats 999 sold 18446744073709551615 0".as_slice()
    );
}

// Appends a number with its sign, and a space.
#[tactic(auto, using(nrm_text::proofs::Fractions::short_signed))]
fn push_number(line: &mut Line, number: i128)
    requires { length line.old + 41 ≤ 512 }
    ensures { length line.new ≤ length line.old + 41 }
{
    line.push_signed(number);
    line.push_bytes(b" ");
}

#[test]
fn a_negative_number_has_a_sign(rt: HostRuntime) {
    let mut line = Line::new();
    push_number(&mut line, -281_474_976_710_656);
    push_number(&mut line, 0);
    push_number(&mut line, 17);
    push_number(&mut line, i128::MIN);
    push_number(&mut line, i128::MAX);
    let text =
        b"-281474976710656 0 17 -170141183460469231731687303715884105728 170141183460469231731687303715884105727 ";
    assert_eq!(rt; line.bytes(), text.as_slice());
}

// The text of a name, if these bytes are one.
fn text_of_name(bytes: &[u8]) -> Option<Text<12>> {
    let name = name_of(bytes)?;
    let mut text = Text::new();
    text.push_name(&name);
    Some(text)
}

#[test]
fn a_name_is_its_bytes(rt: HostRuntime) {
    for bytes in [b"A".as_slice(), b"TWELVE-BYTES".as_slice()] {
        let Some(text) = text_of_name(bytes) else {
            panic!(rt; "no name");
        };
        assert_eq!(rt; text.bytes(), bytes);
    }
}

// Appends a fraction and a space.
#[tactic(auto, using(nrm_text::proofs::Fractions::short_fraction))]
fn push_word(line: &mut Line, num: i128, den: u128)
    requires den { 1 ≤ den }
    requires num_size { unsigned_abs num < 2 ^ 126 }
    requires den_size { den < 2 ^ 126 }
    requires room { length line.old + 79 ≤ 512 }
    ensures { length line.new ≤ length line.old + 79 }
{
    line.push_fraction(num, den);
    line.push_bytes(b" ");
}

#[test]
fn fractions_stand_in_lowest_terms(rt: HostRuntime) {
    let mut line = Line::new();
    push_word(&mut line, 6, 4);
    push_word(&mut line, 0, 7);
    push_word(&mut line, -180, 1);
    push_word(&mut line, -6, 4);
    let wide = 85_070_591_730_234_615_865_843_651_857_942_052_860;
    push_word(&mut line, -wide - 2, wide as u128);
    let text =
        b"3/2 0/1 -180/1 -3/2 -42535295865117307932921825928971026431/42535295865117307932921825928971026430 ";
    assert_eq!(rt; line.bytes(), text.as_slice());
}
