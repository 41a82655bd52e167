//! Words are read, and a line is written of what they gave.

use nrm_text::{Line, is_word, name_of, read_whole};

// What is answered to `book` with a name and a party.
#[tactic(auto, using(nrm_text::proofs::Decimals::short_decimal, nrm_text::proofs::Fractions::short_fraction))]
fn answer_to(verb: &[u8], name: &[u8], party: &[u8]) -> Option<Line> {
    if !is_word(verb, b"book") {
        return None;
    }
    let name = name_of(name)?;
    let Ok(party) = read_whole(party, 999) else {
        return None;
    };
    let mut line = Line::of_bytes(b"sold ");
    line.push_name(&name);
    line.push_count(b"party", party);
    line.push_bytes(b" mean ");
    line.push_fraction(6, 4);
    line.push_bytes(b"\n");
    Some(line)
}

#[test]
fn a_line_is_answered(rt: HostRuntime) {
    let Some(line) = answer_to(b"book", b"CHI-LAX", b"12") else {
        panic!(rt; "nothing is answered");
    };
    assert_eq!(rt;
        line.bytes(),
        b"sold CHI-LAX party 12 mean 3/2\n".as_slice()
    );
    assert!(rt; answer_to(b"Book", b"CHI-LAX", b"12").is_none());
    assert!(rt; answer_to(b"book", b"chi-lax", b"12").is_none());
    assert!(rt; answer_to(b"book", b"CHI-LAX", b"1000").is_none());
}
