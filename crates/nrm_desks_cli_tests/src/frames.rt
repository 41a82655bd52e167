//! Frames by hand: lines and their headers, bytes and their frames, and frames in memory.
use nrm_edge::{Failed, MemSink};
use nrm_frames::{
    Cut, Header, Rights, Why, cut_frame, header_of, put_close, put_differs, put_keep, put_no_row,
    put_ready, put_send, rights_of,
};
use nrm_text::name_of;
use std::test::Fail;

const NO_RIGHTS: Rights = Rights {
    look: false,
    book: false,
    cancel_own: false,
    cancel_any: false,
    plan: false,
    greet: false,
};

#[test]
fn each_kind_of_header_is_read(rt: HostRuntime) {
    let again = Header::Again { size: 65_536 };
    let came = Header::Came {
        place: 9_999,
        size: 12,
    };
    assert_eq!(rt; header_of(b"again 65536"), Some(again));
    assert_eq!(rt; header_of(b"came 9999 12"), Some(came));
    assert_eq!(rt; header_of(b"gone 0"), Some(Header::Gone { place: 0 }));
    assert_eq!(rt; header_of(b"kept"), Some(Header::Kept));
    assert_eq!(rt; header_of(b"end"), Some(Header::End));
}

#[test]
fn a_client_is_read_with_its_rights(rt: HostRuntime) {
    let rights = Rights {
        book: true,
        cancel_own: true,
        ..NO_RIGHTS
    };
    let Some(name) = name_of(b"DESK-1") else {
        panic!(rt; "no name");
    };
    let open = Header::Open {
        place: 12,
        name,
        rights,
    };
    assert_eq!(rt; header_of(b"open 12 DESK-1 book,cancel-own"), Some(open));
    assert_eq!(rt; rights_of(b"none"), Some(NO_RIGHTS));
}

#[test]
fn other_lines_head_no_frame(rt: HostRuntime) {
    let lines = [
        "gone  7",
        "gone 07",
        "gone 10000",
        "came 0 65537",
        "open 1 desk look",
        "open 1 DESK sell",
        "open 1 DESK look book",
    ];
    for line in lines {
        assert_eq!(rt; header_of(line.as_bytes()), None);
    }
}

// A line feed in the payload ends nothing.
#[test]
fn the_first_frame_is_cut_off(rt: HostRuntime) {
    let Cut::Whole {
        header,
        payload,
        rest,
    } = cut_frame(b"came 3 4\na\nbckept\n")
    else {
        panic!(rt; "no frame");
    };
    assert_eq!(rt; header, Header::Came { place: 3, size: 4 });
    assert_eq!(rt; header.size(), 4);
    assert_eq!(rt; payload, b"a\nbc".as_slice());
    assert_eq!(rt; rest, b"kept\n".as_slice());
}

#[test]
fn a_front_is_a_part_or_no_frame(rt: HostRuntime) {
    assert!(rt; matches!(cut_frame(b""), Cut::Part));
    assert!(rt; matches!(cut_frame(b"came 3 4\nabc"), Cut::Part));
    assert!(rt; matches!(cut_frame(b"hello\nkept\n"), Cut::NoFrame));
    assert!(rt; matches!(cut_frame(&[b'x'; 127]), Cut::Part));
    assert!(rt; matches!(cut_frame(&[b'x'; 128]), Cut::NoFrame));
}

#[test]
fn frames_are_put(rt: HostRuntime) -> Result<(), Fail> {
    let alloc = rt.alloc();
    let mut sink = MemSink::new(alloc, 256, Vec::new(alloc), Vec::new(alloc))?;
    put_ready(&mut sink, 17)?;
    put_keep(&mut sink, b"1,2\n")?;
    put_send(&mut sink, 3, 9, b"ok 1\n")?;
    put_close(&mut sink, 3, Why::Window)?;
    put_no_row(&mut sink, 5)?;
    put_differs(&mut sink, u64::MAX)?;
    let wanted =
        "ready 17\nkeep 4\n1,2\nsend 3 9 5\nok 1\nclose 3 window\nno row 5\ndiffers 18446744073709551615\n";
    assert_eq!(rt; sink.held(), wanted.as_bytes());
    Ok(())
}

// The line of the frame is put, and the bytes behind it are not.
#[test]
fn a_frame_is_cut_where_a_put_fails(rt: HostRuntime) -> Result<(), Fail> {
    let alloc = rt.alloc();
    let mut sink = MemSink::new(alloc, 64, vec![in alloc; 64]?, vec![in alloc; 2]?)?;
    assert_eq!(rt; put_keep(&mut sink, b"1,2\n"), Err(Failed));
    assert_eq!(rt; sink.held(), b"keep 4\n".as_slice());
    Ok(())
}

#[test]
fn each_reason_has_its_word(rt: HostRuntime) {
    let reasons = [
        Why::Gone,
        Why::Elsewhere,
        Why::Long,
        Why::Window,
        Why::Sequence,
        Why::Old,
        Why::Desks,
        Why::Rows,
        Why::Memory,
    ];
    let words = [
        "gone",
        "elsewhere",
        "long",
        "window",
        "sequence",
        "old",
        "desks",
        "rows",
        "memory",
    ];
    for (why, word) in reasons.into_iter().zip(words) {
        assert_eq!(rt; why.word(), word.as_bytes());
    }
}
