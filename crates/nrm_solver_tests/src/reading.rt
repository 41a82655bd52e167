//! Certificate files of a small network, worked by hand.
use crate::certificate::{ALLOTTED, PRICES};
use nrm_dual::{CertFault, Verdict, check, read_certificate};
use nrm_lp::Certificate;
use nrm_samples::{two_legs_five_products, two_legs_five_products_program};
use std::alloc::{AllocError, Global};
use std::test::Fail;

// What is read of a file.
type Read = Result<Certificate, CertFault>;

// Whether a certificate is read that has these numbers.
fn has_numbers(read: &Read, (q, x): (i64, &[i64]), (den, p): (i64, &[i64]), value: i64) -> bool {
    match read {
        Ok(read) => {
            let allocation = read.q == q && read.x.as_slice() == x;
            let prices = read.den == den && read.p.as_slice() == p && read.value == value;
            allocation && prices
        }
        Err(_) => false,
    }
}

// Whether a certificate with these numbers is read of a file of the sample network.
fn reads(
    alloc: Global,
    file: &[u8],
    (q, x): (i64, &[i64]),
    (den, p): (i64, &[i64]),
    value: i64,
) -> Result<bool, AllocError> {
    let net = two_legs_five_products(alloc)?;
    let read = read_certificate(alloc, &net, file);
    Ok(has_numbers(&read, (q, x), (den, p), value))
}

// What the checker says of a certificate of the sample program, if one is read.
fn checked(alloc: Global, read: &Read) -> Result<Option<Verdict>, AllocError> {
    let program = two_legs_five_products_program(alloc)?;
    match read {
        Ok(read) => Ok(Some(check(&program, read))),
        Err(_) => Ok(None),
    }
}

// The same of a file of the sample network.
fn verdict_of(alloc: Global, file: &[u8]) -> Result<Option<Verdict>, AllocError> {
    let net = two_legs_five_products(alloc)?;
    let read = read_certificate(alloc, &net, file);
    drop(net);
    checked(alloc, &read)
}

// The fault of a file of the sample network.
fn fault_of(alloc: Global, file: &[u8]) -> Result<Option<CertFault>, AllocError> {
    let net = two_legs_five_products(alloc)?;
    Ok(read_certificate(alloc, &net, file).err())
}

#[test]
fn files_are_read_and_checked(rt: HostRuntime) -> Result<(), Fail> {
    let files = [
        b"value 4130/1\nproduct ABH 3/1\nproduct ABL 3/1\nproduct ACH 4/1\nproduct BCL 6/1\nproduct ACL 0/1\n\
          leg AB 150/1\nleg BC 80/1\n"
            .as_slice(),
        b"leg BC 80/1\r\nleg AB 150/1\r\nproduct ACL 0/1\r\nproduct BCL 6/1\r\nproduct ACH 4/1\r\nproduct ABL 3/1\r\n\
          product ABH 3/1\r\nvalue 4130/1\r"
            .as_slice(),
        b"value 8260/2\nproduct ABH 6/2\nproduct ABL 3/1\nproduct ACH 4/1\nproduct BCL 6/1\n\
          product ACL 0/9223372036854775807\nleg AB 300/2\nleg BC 80/1\n"
            .as_slice(),
    ];
    for file in files {
        assert!(rt; reads(rt.alloc(), file, (1, ALLOTTED), (1, PRICES), 16_520)?);
        assert_eq!(rt; verdict_of(rt.alloc(), file)?, Some(Verdict::Optimal));
    }
    Ok(())
}

#[test]
fn fractions_are_brought_over_one_denominator(rt: HostRuntime) -> Result<(), Fail> {
    let halves =
        b"value 4130/1\nproduct ABH 1/8\nproduct ABL 3/1\nproduct ACH 4/1\nproduct BCL 6/1\nproduct ACL 0/1\n\
          leg AB 150/1\nleg BC 80/1\n";
    let x = &[1, 24, 32, 48, 0];
    assert!(rt; reads(rt.alloc(), halves, (2, x), (1, PRICES), 16_520)?);

    let prices =
        b"value 1/8\nproduct ABH 3/1\nproduct ABL 3/1\nproduct ACH 4/1\nproduct BCL 6/1\nproduct ACL 0/1\nleg AB 1/3\n\
          leg BC 1/281474976710655\n";
    assert_eq!(rt; fault_of(rt.alloc(), prices)?, Some(CertFault::TooFine));

    let finest =
        b"value 1/4\nproduct ABH 3/1\nproduct ABL 3/1\nproduct ACH 4/1\nproduct BCL 6/1\nproduct ACL 0/1\nleg AB 1/3\n\
          leg BC 1/281474976710655\n";
    let most = 281_474_976_710_655;
    let p = &[93_824_992_236_885, 1];
    assert!(rt; reads(rt.alloc(), finest, (1, ALLOTTED), (most, p), most)?);
    Ok(())
}

#[test]
fn lines_are_refused(rt: HostRuntime) -> Result<(), Fail> {
    let cases = [
        (b"value 4130\n".as_slice(), CertFault::Line(1)),
        (b"value  4130/1\n".as_slice(), CertFault::Line(1)),
        (b"value 4130/1 \n".as_slice(), CertFault::Line(1)),
        (b"value 4130/1/1\n".as_slice(), CertFault::Line(1)),
        (b"value 04130/1\n".as_slice(), CertFault::Line(1)),
        (b"value 4130/1\r\r\n".as_slice(), CertFault::Line(1)),
        (
            b"value 9223372036854775808/1\n".as_slice(),
            CertFault::Large(1),
        ),
        (
            b"value 1/9223372036854775808\nleg XX 1/1\n".as_slice(),
            CertFault::Large(1),
        ),
        (
            b"value 9223372036854775808/0\n".as_slice(),
            CertFault::Line(1),
        ),
        (
            b"value 1/1\nvalue 9223372036854775808/1\n".as_slice(),
            CertFault::Line(2),
        ),
        (b"leg AB -150/1\n".as_slice(), CertFault::Line(1)),
        (
            b"leg AB 150/1\nproduct XX 1/1\n".as_slice(),
            CertFault::Line(2),
        ),
        (b"leg ABH 1/1\n".as_slice(), CertFault::Line(1)),
        (b"product ABH 3/1 4/1\n".as_slice(), CertFault::Line(1)),
        (
            b"leg AB 150/1\n\nleg BC 80/1\n".as_slice(),
            CertFault::Line(2),
        ),
        (
            b"value 4130/1\nproduct ABH 3/1\nproduct ABL 3/1\nproduct ACH 4/1\nproduct BCL 6/1\nproduct ACL 0/1\n\
              leg AB 150/1\nleg BC 80/1\nleg AB 150/1\n"
                .as_slice(),
            CertFault::Line(9),
        ),
    ];
    for (file, fault) in cases {
        assert_eq!(rt; fault_of(rt.alloc(), file)?, Some(fault));
    }
    Ok(())
}

#[test]
fn files_are_refused(rt: HostRuntime) -> Result<(), Fail> {
    let cases = [
        (b"".as_slice(), CertFault::NoValue),
        (
            b"product ABH 3/1\nproduct ABL 3/1\nproduct ACH 4/1\nproduct BCL 6/1\nproduct ACL 0/1\nleg AB 150/1\nleg BC 80/1\n".as_slice(),
            CertFault::NoValue,
        ),
        (
            b"value 4130/1\nproduct ABH 3/1\nproduct ABL 3/1\nproduct ACH 4/1\nproduct BCL 6/1\nleg AB 150/1\n".as_slice(),
            CertFault::NoProduct(4),
        ),
        (
            b"value 4130/1\nproduct ABH 3/1\nproduct ABL 3/1\nproduct ACH 4/1\nproduct BCL 6/1\nproduct ACL 0/1\nleg AB 150/1\n".as_slice(),
            CertFault::NoLeg(1),
        ),
        (
            b"value 4130/1\nproduct ABH 3/1\nproduct ABL 3/1\nproduct ACH 4/1\nproduct BCL 6/1\nproduct ACL 0/1\n\
              leg AB 150/1\nleg BC 1/281474976710656\n"
                .as_slice(),
            CertFault::TooFine,
        ),
        (
            b"value 4130/1\nproduct ABH 70368744177664/1\nproduct ABL 3/1\nproduct ACH 4/1\nproduct BCL 6/1\n\
              product ACL 0/1\nleg AB 150/1\nleg BC 80/1\n"
                .as_slice(),
            CertFault::TooFine,
        ),
    ];
    for (file, fault) in cases {
        assert_eq!(rt; fault_of(rt.alloc(), file)?, Some(fault));
    }
    let longest = vec![in rt.alloc(); b'\n'; 65_536]?;
    assert_eq!(rt; fault_of(rt.alloc(), &longest)?, Some(CertFault::Line(1)));
    let long = vec![in rt.alloc(); b'\n'; 65_537]?;
    assert_eq!(rt; fault_of(rt.alloc(), &long)?, Some(CertFault::Long));
    Ok(())
}
