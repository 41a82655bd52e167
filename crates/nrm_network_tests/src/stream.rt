//! A stream that comes in pieces, and one that is there whole.
use nrm_stream::{Command, Splitter, command_of, next_line, split_once, without_carriage_return};

// The first line is cut in a word, the second has a carriage return, and the last isn't ended.
#[test]
fn a_stream_is_fed_in_pieces(rt: HostRuntime) {
    let mut splitter = Splitter::new();
    assert_eq!(rt; splitter.feed(b"pl"), (2, None));
    assert_eq!(rt;
        splitter.feed(b"an\nhindsight\r\n"),
        (3, Some(Command::Plan))
    );
    assert_eq!(rt;
        splitter.feed(b"hindsight\r\ncancel 7"),
        (11, Some(Command::Hindsight))
    );
    assert_eq!(rt; splitter.feed(b"cancel 7"), (8, None));
    assert_eq!(rt; splitter.finish(), Some(Command::Cancel { number: 7 }));
    assert_eq!(rt; splitter.finish(), None);
}

#[test]
fn lines_are_taken_off(rt: HostRuntime) {
    let Some((line, rest)) = next_line(b"cancel 7\r\nplan") else {
        panic!(rt; "no line");
    };
    assert_eq!(rt; command_of(line), Command::Cancel { number: 7 });
    let Some((word, number)) = split_once(without_carriage_return(line), b' ') else {
        panic!(rt; "no space");
    };
    assert_eq!(rt; word, b"cancel".as_slice());
    assert_eq!(rt; number, b"7".as_slice());
    assert_eq!(rt; command_of(rest), Command::Plan);
}
