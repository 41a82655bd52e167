//! The texts of a leg, AB with 10 seats, of a certificate, and of a plan under virtual nesting, worked by hand.
ghost use Rattle.std.specs.Prelude.{◌≡◌, IfOk};
ghost use Rattle.nrm_fraction.specs.Large.{size_limit};
ghost use Rattle.nrm_lp.specs.Shape.{HasShape};
ghost use Rattle.nrm_model.specs.Inventory.{inventory_of};
ghost use Rattle.nrm_samples.specs.Networks.{two_legs_five_products};

use nrm_book::Book;
use nrm_edge::MemSink;
use nrm_lp::{Certificate, Numbers};
use nrm_model::{Mode, Network};
use nrm_plan::Plan;
use nrm_report::{certificate_text, leg_text, plan_text};
use nrm_samples::two_legs_five_products;
use std::alloc::{AllocError, Global};
use std::process::Abort;
use std::test::Fail;

// The book of the network, where two seats of ACH are sold and one of ABL.
fn book_by_hand(rt: &(impl Abort + AllocGlobal), net: &Network) -> Result<Book, AllocError>
    requires { net.now ≡ two_legs_five_products }
    ensures { IfOk result (λ book. book.inventory ≡ inventory_of net.now) }
{
    let mut book = Book::new(rt.alloc(), net)?;
    assert_eq!(rt; book.add(2, 2), 1);
    assert_eq!(rt; book.add(1, 1), 2);
    Ok(book)
}

// Puts the text of the first leg, and tells whether it goes out whole.
fn put_leg(rt: &(impl Abort + AllocGlobal), sink: &mut MemSink) -> Result<bool, AllocError> {
    let net = two_legs_five_products(rt.alloc())?;
    let book = book_by_hand(rt, &net)?;
    Ok(leg_text(&net, &book, 0, sink).is_ok())
}

// Over four histories, 12/2, 20/2, 0/2, 1/2 and 2/2 seats at 3004/4, and bid prices of 0/4 and 6/4.
fn hand_certificate(alloc: Global) -> Result<Certificate, AllocError>
    ensures { IfOk result (λ certificate. HasShape size_limit 5 2 certificate) }
{
    Ok(Certificate {
        q: 2,
        x: Numbers::new(Vec::from_array(alloc, [12, 20, 0, 1, 2])?),
        den: 4,
        p: Numbers::new(Vec::from_array(alloc, [0, 6])?),
        value: 3004,
    })
}

// Puts the text of the certificate.
fn put_certificate(alloc: Global, sink: &mut MemSink) -> Result<bool, AllocError> {
    let certificate = hand_certificate(alloc)?;
    let net = two_legs_five_products(alloc)?;
    Ok(certificate_text(&net, &certificate, sink).is_ok())
}

// Puts the text of the opening plan under virtual nesting.
fn put_plan(rt: &(impl Abort + AllocGlobal), sink: &mut MemSink) -> Result<bool, AllocError> {
    let net = two_legs_five_products(rt.alloc())?;
    let Ok(plan) = Plan::opening(rt.alloc(), &net, Mode::Davn) else {
        panic!(rt; "there is no plan");
    };
    Ok(plan_text(&net, &plan, sink).is_ok())
}

// A text of the network.
#[derive(Clone, Copy)]
enum Told {
    Leg,
    Certificate,
    Plan,
}

// The text, where the puts of the numbers `failing` fail: whether it goes out whole, and what does.
fn goes_out(
    rt: &(impl Abort + AllocGlobal),
    told: Told,
    failing: &[u64],
    wanted: (bool, &[u8]),
) -> Result<(), AllocError> {
    let alloc = rt.alloc();
    let numbers = failing.to_vec(alloc)?;
    let mut sink = MemSink::new(alloc, 400, Vec::new(alloc), numbers)?;
    let whole = match told {
        Told::Leg => put_leg(rt, &mut sink),
        Told::Certificate => put_certificate(alloc, &mut sink),
        Told::Plan => put_plan(rt, &mut sink),
    };
    assert!(rt; whole == Ok(wanted.0), "puts {failing:?} fail");
    assert_eq!(rt; sink.held(), wanted.1, "puts {failing:?} fail");
    Ok(())
}

#[test]
fn tells_by_hand(rt: HostRuntime) -> Result<(), Fail> {
    let text = b"leg AB seats 10 authorised 10 sold 3 left 7\non AB ABL 1\non AB ACH 2\n";
    goes_out(&rt, Told::Leg, &[], (true, text))?;
    Ok(())
}

#[test]
fn each_line_of_a_leg_goes_out_in_one_put(rt: HostRuntime) -> Result<(), Fail> {
    let text = b"leg AB seats 10 authorised 10 sold 3 left 7\n";
    goes_out(&rt, Told::Leg, &[2], (false, text))?;
    let text = b"leg AB seats 10 authorised 10 sold 3 left 7\non AB ABL 1\n";
    goes_out(&rt, Told::Leg, &[3], (false, text))?;
    Ok(())
}

#[test]
fn writes_a_certificate_by_hand(rt: HostRuntime) -> Result<(), Fail> {
    let text =
        b"value 751/4\nproduct ABH 3/2\nproduct ABL 5/2\nproduct ACH 0/1\nproduct BCL 1/8\nproduct ACL 1/4\nleg AB 0/1\nleg BC 3/2\n";
    goes_out(&rt, Told::Certificate, &[], (true, text))?;
    Ok(())
}

#[test]
fn each_line_of_a_certificate_goes_out_in_one_put(rt: HostRuntime) -> Result<(), Fail> {
    let lines = [
        b"value 751/4\n".as_slice(),
        b"value 751/4\nproduct ABH 3/2\n".as_slice(),
        b"value 751/4\nproduct ABH 3/2\nproduct ABL 5/2\n".as_slice(),
        b"value 751/4\nproduct ABH 3/2\nproduct ABL 5/2\nproduct ACH 0/1\n".as_slice(),
    ];
    for (k, text) in lines.iter().enumerate() {
        let failing = [k as u64 + 2];
        goes_out(&rt, Told::Certificate, &failing, (false, text))?;
    }

    // The put of the last line fails, behind one of a leg.
    let text =
        b"value 751/4\nproduct ABH 3/2\nproduct ABL 5/2\nproduct ACH 0/1\nproduct BCL 1/8\nproduct ACL 1/4\nleg AB 0/1\n";
    goes_out(&rt, Told::Certificate, &[8], (false, text))?;
    Ok(())
}

#[test]
fn writes_a_plan_with_its_nests(rt: HostRuntime) -> Result<(), Fail> {
    let text =
        b"value 4130/1\nproduct ABH 3/1\nproduct ABL 3/1\nproduct ACH 4/1\nproduct BCL 6/1\nproduct ACL 0/1\n\
        leg AB 150/1\nleg BC 80/1\nnest AB ABH 400/1 1\nnest AB ABL 150/1 2\nnest AB ACH 420/1 1\n\
        nest AB ACL 149/1 2\nnest BC ACH 350/1 1\nnest BC BCL 80/1 3\nnest BC ACL 79/1 3\nprotect AB 7 10\n\
        protect BC 4 6\n";
    goes_out(&rt, Told::Plan, &[], (true, text))?;
    Ok(())
}

// The puts of the second product in a nest and of the last protections.
#[test]
fn each_line_of_a_nest_goes_out_in_one_put(rt: HostRuntime) -> Result<(), Fail> {
    let text =
        b"value 4130/1\nproduct ABH 3/1\nproduct ABL 3/1\nproduct ACH 4/1\nproduct BCL 6/1\nproduct ACL 0/1\n\
        leg AB 150/1\nleg BC 80/1\nnest AB ABH 400/1 1\n";
    goes_out(&rt, Told::Plan, &[10], (false, text))?;
    let text =
        b"value 4130/1\nproduct ABH 3/1\nproduct ABL 3/1\nproduct ACH 4/1\nproduct BCL 6/1\nproduct ACL 0/1\n\
        leg AB 150/1\nleg BC 80/1\nnest AB ABH 400/1 1\nnest AB ABL 150/1 2\nnest AB ACH 420/1 1\n\
        nest AB ACL 149/1 2\nnest BC ACH 350/1 1\nnest BC BCL 80/1 3\nnest BC ACL 79/1 3\nprotect AB 7 10\n";
    goes_out(&rt, Told::Plan, &[17], (false, text))?;
    Ok(())
}
