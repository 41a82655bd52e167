//! Opening over files in memory, the words for modes, and lines, worked by hand.
use nrm_common_cli::{NoNetwork, line_of_overflow, mode_in, open_network, send_line};
use nrm_edge::{Failed, MemFiles, MemSink};
use nrm_model::Mode;
use nrm_network::Why;
use std::alloc::{AllocError, Global};
use std::test::Fail;

fn files(alloc: Global) -> Result<MemFiles, AllocError> {
    let mut list = Vec::new(alloc);
    let good = b"periods,1,1\nleg,AB,3\nproduct,LOC,200,AB\n".to_vec(alloc)?;
    list.push((b"GOOD".to_vec(alloc)?, good))?;
    list.push((
        b"BAD".to_vec(alloc)?,
        b"periods,1,1\nfare,AB\n".to_vec(alloc)?,
    ))?;
    Ok(MemFiles::new(list, vec![in alloc; 4]?))
}

// Three files are looked for, and the fourth fetch fails.
#[test]
fn a_network_is_opened_or_why_not_is_told(rt: HostRuntime) -> Result<(), Fail> {
    let alloc = rt.alloc();
    let mut files = files(alloc)?;
    let opened = open_network(alloc, &mut files, "GOOD");
    assert!(rt; matches!(&opened, Ok(net) if net.leg_count() == 1 && net.product_count() == 1));
    let refused = NoNetwork::Refused {
        row: 2,
        why: Why::Kind,
    };
    let wanted = [refused, NoNetwork::Absent, NoNetwork::Fault];
    for (name, why) in ["BAD", "NONE", "GOOD"].into_iter().zip(wanted) {
        assert_eq!(rt; open_network(alloc, &mut files, name).err(), Some(why));
    }
    Ok(())
}

#[test]
fn a_word_stands_for_its_mode(rt: HostRuntime) -> Result<(), Fail> {
    let alloc = rt.alloc();
    let words = ["first", "bid", "davn", "fast", "Bid", ""];
    let modes = [
        Some(Mode::FirstCome),
        Some(Mode::Bid),
        Some(Mode::Davn),
        None,
        None,
        None,
    ];
    for (word, mode) in words.into_iter().zip(modes) {
        assert_eq!(rt; mode_in(&String::from_str(alloc, word)?), mode);
    }
    Ok(())
}

#[test]
fn a_line_tells_a_negative_number(rt: HostRuntime) -> Result<(), Fail> {
    let line = line_of_overflow(u32::MAX, -281_474_976_710_656);
    assert_eq!(rt;
        line.bytes(),
        b"overflow after 4294967295 pivots at -281474976710656\n".as_slice()
    );
    Ok(())
}

// The two puts of the first line are taken; of the second line one put takes two bytes, and the next one fails.
#[test]
fn a_line_is_sent_until_a_put_fails(rt: HostRuntime) -> Result<(), Fail> {
    let alloc = rt.alloc();
    let mut sink = MemSink::new(alloc, 16, vec![in alloc; 4, 4, 2]?, vec![in alloc; 4]?)?;
    assert_eq!(rt; send_line(&mut sink, b"first\n"), Ok(()));
    assert_eq!(rt; sink.held(), b"first\n".as_slice());
    assert_eq!(rt; send_line(&mut sink, b"bid\n"), Err(Failed));
    assert_eq!(rt; sink.held(), b"first\nbi".as_slice());
    Ok(())
}
