//! What is made of the numbers 0 and 1, by an account of the rules that was written apart from the program.
use nrm_gen::{Maker, made};
use nrm_stream::Command;
use std::test::Fail;

#[test]
fn network_of_0(rt: HostRuntime) -> Result<(), Fail> {
    let made = made(rt.alloc(), 0)?;
    let net = &made.0;
    assert_eq!(rt; (net.n(), net.t()), (8, 4));
    assert_eq!(rt; net.leg_at(0).name.bytes(), b"I1".as_slice());
    assert_eq!(rt; (net.leg_at(0).seats, net.leg_at(0).authorised), (40, 40));
    Ok(())
}

#[test]
fn network_of_1(rt: HostRuntime) -> Result<(), Fail> {
    let made = made(rt.alloc(), 1)?;
    let net = &made.0;
    assert_eq!(rt; (net.leg_count(), net.product_count()), (12, 60));
    assert_eq!(rt; (net.leg_at(0).seats, net.leg_at(0).authorised), (78, 78));
    assert_eq!(rt; net.product_at(0).name.bytes(), b"I1-H".as_slice());
    assert_eq!(rt;
        (net.product_at(0).fare, net.product_at(0).refund),
        (384, 100)
    );
    Ok(())
}

// How many commands of each kind: requests, cancellations, optimisations, legs, hindsight.
#[derive(Clone, Copy, Debug, PartialEq, Eq)]
struct Kinds {
    books: u64,
    cancels: u64,
    optimisations: u64,
    legs: u64,
    hindsights: u64,
}

fn counted(mut kinds: Kinds, command: Command) -> Kinds {
    match command {
        Command::Book { .. } => kinds.books = kinds.books.wrapping_add(1),
        Command::Cancel { .. } => kinds.cancels = kinds.cancels.wrapping_add(1),
        Command::Reoptimise { .. } => kinds.optimisations = kinds.optimisations.wrapping_add(1),
        Command::Leg { .. } => kinds.legs = kinds.legs.wrapping_add(1),
        Command::Hindsight => kinds.hindsights = kinds.hindsights.wrapping_add(1),
        _ => (),
    }
    kinds
}

fn all_counted(maker: &mut Maker) -> Kinds {
    let mut kinds = Kinds {
        books: 0,
        cancels: 0,
        optimisations: 0,
        legs: 0,
        hindsights: 0,
    };
    for _ in 0..10_000 {
        if let Some(command) = maker.next() {
            kinds = counted(kinds, command);
        }
    }
    kinds
}

#[test]
fn commands_of_1(rt: HostRuntime) -> Result<(), Fail> {
    let mut made = made(rt.alloc(), 1)?;
    let kinds = all_counted(&mut made.1);
    let wanted = Kinds {
        books: 7_512,
        cancels: 1_972,
        optimisations: 3,
        legs: 512,
        hindsights: 1,
    };
    assert_eq!(rt; kinds, wanted);
    assert_eq!(rt; made.1.next(), None);
    Ok(())
}
