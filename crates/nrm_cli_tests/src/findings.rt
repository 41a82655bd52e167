//! What is written of a network of two legs and five products, worked by hand: on leg AB 16, 12 and 28 seats are asked for at 500,
//! 400 and 150, and none at 229. ABH and ABL use it and no other leg, and ten seats of it are worth 4175/2 in the mean.
use nrm_dual::{CertFault, Verdict};
use nrm_findings::{
    Counts, cuts_of, line_of_fault, line_of_no_classes, line_of_summary, line_of_verdict, values_on,
};
use nrm_legdp::ClassFault;
use nrm_model::Network;
use nrm_samples::two_legs_five_products;
use nrm_text::{Line, Name, name_of};
use std::alloc::{AllocError, Global};
use std::process::Abort;
use std::test::Fail;

// The thresholds of a leg in two groups, if a product uses it.
fn cuts_text(alloc: Global, name: &Name) -> Result<Option<Line>, AllocError> {
    let net = two_legs_five_products(alloc)?;
    cuts_of(alloc, &net, name, 2)
}

// They are this text; or no product uses the leg, and there is none.
fn assert_cuts(
    rt: &(impl Abort + AllocGlobal),
    leg: &[u8],
    wanted: Option<&[u8]>,
) -> Result<(), AllocError> {
    let name = name_of(leg).unwrap_or_else(|| panic!(rt; "no name"));
    let text = cuts_text(rt.alloc(), &name)?;
    assert_eq!(rt; text.as_ref().map(|line| line.bytes()), wanted);
    Ok(())
}

#[test]
fn thresholds_are_written(rt: HostRuntime) -> Result<(), Fail> {
    let wanted = b"cuts AB 400\ncentres AB 500 150\ncost AB 1200\n".as_slice();
    assert_cuts(&rt, b"AB", Some(wanted))?;
    assert_cuts(&rt, b"CD", None)?;
    Ok(())
}

#[test]
fn values_are_written(rt: HostRuntime) -> Result<(), Fail> {
    let net = two_legs_five_products(rt.alloc())?;
    let name = name_of(b"AB").expect(&rt, "a name");
    let Ok(text) = values_on(rt.alloc(), &net, &name) else {
        panic!(rt; "there are no classes");
    };
    assert_eq!(rt;
        text.bytes(),
        b"class ABH 400\nclass ABL 150\nvalue AB 4175/2\nprotect AB 3\n".as_slice()
    );
    Ok(())
}

#[test]
fn a_leg_that_isnt_there_has_no_class(rt: HostRuntime) -> Result<(), Fail> {
    let net = two_legs_five_products(rt.alloc())?;
    let name = name_of(b"CD").expect(&rt, "a name");
    let Err(ClassFault::Count(count)) = values_on(rt.alloc(), &net, &name) else {
        panic!(rt; "there are classes");
    };
    assert_eq!(rt;
        line_of_no_classes(count).bytes(),
        b"classes 0\n".as_slice()
    );
    Ok(())
}

fn assert_verdicts(rt: &impl Abort, net: &Network) {
    let optimal = line_of_verdict(net, Verdict::Optimal);
    let wrong = line_of_verdict(net, Verdict::WrongValue);
    assert_eq!(rt; optimal.bytes(), b"optimal\n".as_slice());
    assert_eq!(rt; wrong.bytes(), b"wrong value\n".as_slice());
}

#[test]
fn certificates_are_told_of(rt: HostRuntime) -> Result<(), Fail> {
    let net = two_legs_five_products(rt.alloc())?;
    assert_verdicts(&rt, &net);
    let line = line_of_fault(&net, CertFault::Large(7)).expect(&rt, "a line");
    assert_eq!(rt;
        line.bytes(),
        b"refused certificate line 7 large\n".as_slice()
    );
    assert!(rt; line_of_fault(&net, CertFault::NoMemory).is_none());
    Ok(())
}

#[test]
fn a_made_run_is_summed_up(rt: HostRuntime) {
    let mut counts = Counts::new();
    counts.sold = 9;
    counts.overflow = 1;
    let line = line_of_summary(&counts, 1200, Some((4175, 2)));
    assert_eq!(rt;
        line.bytes(),
        b"made lines 10000 ok 9 no 0 fare 0 cancelled 0 unknown 0 legs 0 optimised 0 overflow 1 revenue 1200 hindsight 4175/2\n".as_slice()
    );
    let without = line_of_summary(&Counts::new(), 0, None);
    assert_eq!(rt;
        without.bytes(),
        b"made lines 10000 ok 0 no 0 fare 0 cancelled 0 unknown 0 legs 0 optimised 0 overflow 0 revenue 0 hindsight overflow\n".as_slice()
    );
}
