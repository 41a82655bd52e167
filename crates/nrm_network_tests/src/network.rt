//! Files that are read, printed and refused.
use nrm_network::{NetFault, Why, parse, print};
use std::alloc::{AllocError, Global};
use std::test::Fail;

// A file that is read, as it is printed.
fn printed(alloc: Global, file: &[u8]) -> Result<Vec<u8>, NetFault> {
    let net = parse(alloc, file)?;
    Ok(print(alloc, &net)?)
}

#[test]
fn what_is_read_is_printed(rt: HostRuntime) -> Result<(), Fail> {
    let file = printed(
        rt.alloc(),
        b"periods,2,2\r\nleg,\"AB\",9\r\nproduct,P,100,AB\r\ndemand,P,2,1,0\r\ndemand,P,1,0,0\r\n",
    )?;
    assert_eq!(rt;
        file.as_slice(),
        b"periods,2,2,2\nleg,AB,9,9\nproduct,P,100,AB\ndemand,P,2,1,0\n".as_slice()
    );
    Ok(())
}

// Whether the first leg of a file has these seats, physical and authorised, and thresholds.
fn first_leg_is(
    alloc: Global,
    file: &[u8],
    seats: (u16, u16),
    cuts: &[u32],
) -> Result<bool, NetFault> {
    let net = parse(alloc, file)?;
    let leg = net.leg_at(0);
    Ok((leg.seats, leg.authorised) == seats && leg.cuts.as_slice() == cuts)
}

#[test]
fn version_2_is_printed_as_it_was_read(rt: HostRuntime) -> Result<(), Fail> {
    let file =
        b"periods,1,1,2\nleg,AB,3,4,9\nleg,BC,2,0,5\nproduct,THRU,500,AB,BC\nproduct,LOC,199,AB\nrefund,LOC,33\ndemand,LOC,1,2\n";
    assert!(rt; first_leg_is(rt.alloc(), file, (3, 4), &[9])?);
    assert_eq!(rt; printed(rt.alloc(), file)?.as_slice(), file.as_slice());
    Ok(())
}

// The row at which a file is refused, and why.
fn refusal(alloc: Global, file: &[u8]) -> Option<(u32, Why)> {
    match parse(alloc, file) {
        Err(NetFault::Refused { row, why }) => Some((row, why)),
        Ok(_) | Err(NetFault::NoMemory) => None,
    }
}

#[test]
fn each_cause_is_told_at_its_row(rt: HostRuntime) {
    for (file, row, why) in [
        ("periods,1,1\nfare,AB\n", 2, Why::Kind),
        ("leg,AB,10\n", 1, Why::Order),
        ("periods,1,1\nleg,AB,9\nperiods,1,1\n", 3, Why::Order),
        ("periods,1\n", 1, Why::Fields),
        ("periods,1,1\nleg,ab,010\n", 2, Why::Name),
        ("periods,1,1\nleg,AB,010\n", 2, Why::Number),
        ("periods,1,1\nleg,AB,1000\n", 2, Why::Range),
        ("periods,1,1\nleg,AB,1000,x\n", 2, Why::Number),
        ("periods,1,1\nleg,AB,9\nleg,AB,9\n", 3, Why::Twice),
        ("periods,1,1\nleg,AB,9\nproduct,P,5,AB,AB\n", 3, Why::Twice),
        ("periods,1,1\nleg,AB,9\nproduct,P,5,BC\n", 3, Why::Missing),
        ("periods,1,1\nleg,AB,9,100,100\n", 2, Why::Thresholds),
        (
            "periods,1,2\nleg,AB,9\nproduct,P,5,AB\ndemand,P,1,500,500\n",
            4,
            Why::Sum,
        ),
        ("periods,1,1,3\n", 1, Why::Range),
        ("periods,1,1,02\n", 1, Why::Number),
        ("periods,1,1,2\nleg,AB,9\n", 2, Why::Fields),
        ("periods,1,1,2\nleg,AB,9,1000\n", 2, Why::Range),
        ("periods,1,1,2\nleg,AB,9,x,y\n", 2, Why::Number),
        (
            "periods,1,1\nleg,AB,9\nproduct,P,5,AB\nrefund,P,33\n",
            4,
            Why::Kind,
        ),
        (
            "periods,1,1,2\nleg,AB,9,9\nproduct,P,5,AB\nrefund,P,101\n",
            4,
            Why::Range,
        ),
        (
            "periods,1,1,2\nleg,AB,9,9\nproduct,P,5,AB\nrefund,P,3\nrefund,P,3\n",
            5,
            Why::Twice,
        ),
        ("periods,1,1,2\nleg,AB,9,9\nrefund,P,3\n", 3, Why::Missing),
        ("periods,1,1\n", 2, Why::Empty),
        ("", 1, Why::Empty),
    ] {
        assert_eq!(rt;
            refusal(rt.alloc(), file.as_bytes()),
            Some((row, why)),
            "at {file:?}"
        );
    }
}

// Where a file has a quote `csv` reads it, and where it has none most rows of demand are read off the text: they say the same.
#[test]
fn demand_is_read_alike_with_a_quote(rt: HostRuntime) -> Result<(), Fail> {
    let plain =
        b"periods,3,2\nleg,AB,9\nproduct,P,5,AB\ndemand,P,1,0,9\r\ndemand,P,2,10,100\ndemand,P,3,0,998";
    let quoted =
        b"periods,3,2\nleg,\"AB\",9\nproduct,P,5,AB\ndemand,P,1,0,9\r\ndemand,P,2,10,100\ndemand,P,3,0,998";
    let read = printed(rt.alloc(), plain)?;
    let by_csv = printed(rt.alloc(), quoted)?;
    assert_eq!(rt; read.as_slice(), by_csv.as_slice());
    Ok(())
}

#[test]
fn demand_out_of_order_is_refused(rt: HostRuntime) {
    for (row, why) in [
        ("demand,P,1,01\n", Why::Number),
        ("demand,P,1,1000\n", Why::Range),
        ("demand,P,1,1,1\n", Why::Fields),
        ("demand,P,2,1\n", Why::Twice),
        ("demand,P,3,1\n", Why::Range),
        ("demand,Q,1,1\n", Why::Missing),
    ] {
        let Ok(file) = after_a_demand(rt.alloc(), row) else {
            panic!(rt; "memory ran out");
        };
        assert_eq!(rt;
            refusal(rt.alloc(), file.as_bytes()),
            Some((5, why)),
            "at {row:?}"
        );
    }
}

// A file whose fourth row gives the demand of the product `P` in the second of two histories, with a row behind it.
fn after_a_demand(alloc: Global, row: &str) -> Result<String, AllocError> {
    let mut file = String::from_str(
        alloc,
        "periods,2,1\nleg,AB,9\nproduct,P,5,AB\ndemand,P,2,1\n",
    )?;
    write!(file, "{row}")?;
    Ok(file)
}

fn many_legs(alloc: Global) -> Result<String, AllocError> {
    let mut file = String::from_str(alloc, "periods,1,1\n")?;
    for i in 1..=65 {
        write!(file, "leg,L{i:02},1\n")?;
    }
    Ok(file)
}

#[test]
fn files_are_bounded(rt: HostRuntime) -> Result<(), Fail> {
    let file = many_legs(rt.alloc())?;
    assert_eq!(rt; refusal(rt.alloc(), file.as_bytes()), Some((66, Why::Many)));
    let file = vec![in rt.alloc(); b'\n'; 4_194_305]?;
    assert_eq!(rt; refusal(rt.alloc(), file.as_slice()), Some((0, Why::Size)));
    Ok(())
}

// The rows of a product's demand, one in each of 32 histories.
fn push_demand(file: &mut String, product: u16) -> Result<(), AllocError> {
    for history in 1..=32 {
        write!(file, "demand,P{product:03},{history},1\n")?;
    }
    Ok(())
}

// A canonical file with as many products, refunds, histories and demand rows as there may be.
fn full_file(alloc: Global) -> Result<String, AllocError> {
    let mut file = String::from_str(alloc, "periods,32,1,2\nleg,L,1,2\n")?;
    for product in 0..256 {
        write!(file, "product,P{product:03},1,L\n")?;
    }
    for product in 0..256 {
        write!(file, "refund,P{product:03},99\n")?;
    }
    for product in 0..256 {
        push_demand(&mut file, product)?;
    }
    Ok(file)
}

#[test]
fn a_full_file_is_read_whole(rt: HostRuntime) -> Result<(), Fail> {
    let file = full_file(rt.alloc())?;
    let printed = printed(rt.alloc(), file.as_bytes())?;
    assert_eq!(rt; printed.len(), file.len());
    assert_eq!(rt; printed.as_slice() == file.as_bytes(), true);
    Ok(())
}
