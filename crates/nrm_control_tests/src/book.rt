//! The book of a network of two legs, AB with 3 seats and BC with 2, of one with 4 and 1 of those authorised, and of one with
//! five products, worked by hand.
ghost use Rattle.std.specs.Prelude.{◌≡◌, [], IfOk};
ghost use Rattle.nrm_model.specs.Inventory.{inventory_of};
ghost use Rattle.nrm_samples.specs.Networks.{two_legs, two_legs_authorised, two_legs_five_products};

use nrm_book::{Book, Booking, Bookings};
use nrm_samples::{two_legs, two_legs_authorised, two_legs_five_products};
use std::alloc::{AllocError, Global};
use std::process::Abort;
use std::test::Fail;

// The empty book of the network.
fn empty_book(alloc: Global) -> Result<Book, AllocError>
    ensures { IfOk result (λ book. book ≡ record { inventory = inventory_of two_legs; bookings = []; next = 1 }) }
{
    let net = two_legs(alloc)?;
    Book::new(alloc, &net)
}

#[test]
fn sells_by_hand(rt: HostRuntime) -> Result<(), Fail> {
    let mut book = empty_book(rt.alloc())?;
    assert_eq!(rt; book.add(0, 2), 1);
    assert_eq!(rt; book.left(0), 1);
    assert_eq!(rt; book.left(1), 0);
    assert_eq!(rt; (book.sold(0), book.sold(1)), (2, 0));
    assert_eq!(rt; book.revenue(), 1000);
    assert_eq!(rt;
        book.find(1),
        Some(Booking {
            number: 1,
            product: 0,
            party: 2
        })
    );
    assert_eq!(rt; book.find(2), None);
    Ok(())
}

// The empty book of the network whose authorised seats are not its physical ones.
fn empty_book_of_authorised(alloc: Global) -> Result<Book, AllocError>
    ensures { IfOk result (λ book. book ≡ record { inventory = inventory_of two_legs_authorised; bookings = []; next = 1 }) }
{
    let net = two_legs_authorised(alloc)?;
    Book::new(alloc, &net)
}

// The local product takes 4 seats of AB, which has 3, and leaves BC's 1, which has 2.
#[test]
fn sells_the_authorised_seats(rt: HostRuntime) -> Result<(), Fail> {
    let mut book = empty_book_of_authorised(rt.alloc())?;
    assert_eq!(rt; (book.left(0), book.left(1)), (4, 1));
    assert_eq!(rt; book.add(1, 4), 1);
    assert_eq!(rt; (book.left(0), book.left(1)), (0, 1));
    assert_eq!(rt; book.revenue(), 796);
    Ok(())
}

// A booking that was kept has its own number, and the next one goes on behind it.
#[test]
fn loads_under_its_own_number(rt: HostRuntime) -> Result<(), Fail> {
    let mut book = empty_book(rt.alloc())?;
    let kept = Booking {
        number: 5,
        product: 0,
        party: 2,
    };
    book.load(kept);
    assert_eq!(rt; (book.left(0), book.left(1)), (1, 0));
    assert_eq!(rt; book.find(5), Some(kept));
    assert_eq!(rt; book.revenue(), 1000);
    assert_eq!(rt; book.add(1, 1), 6);
    Ok(())
}

#[test]
fn cancels_by_hand(rt: HostRuntime) -> Result<(), Fail> {
    let mut book = empty_book(rt.alloc())?;
    assert_eq!(rt; book.add(0, 2), 1);
    assert_eq!(rt; book.add(1, 1), 2);
    assert_eq!(rt;
        book.remove(1),
        Some(Booking {
            number: 1,
            product: 0,
            party: 2
        })
    );
    assert_eq!(rt; book.find(1), None);
    assert_eq!(rt; book.remove(1), None);
    assert_eq!(rt; book.left(0), 2);
    assert_eq!(rt; book.next(), 3);
    assert_numbers(&rt, book.bookings(), &[2]);
    Ok(())
}

// The empty book of the network with five products.
fn empty_book_of_five(alloc: Global) -> Result<Book, AllocError>
    ensures { IfOk result (λ book. book ≡ record { inventory = inventory_of two_legs_five_products; bookings = []; next = 1 }) }
{
    let net = two_legs_five_products(alloc)?;
    Book::new(alloc, &net)
}

#[test]
fn counts_the_products_by_hand(rt: HostRuntime) -> Result<(), Fail> {
    let mut book = empty_book_of_five(rt.alloc())?;
    assert_eq!(rt; book.add(1, 3), 1);
    assert_eq!(rt; book.add(2, 2), 2);
    assert_eq!(rt; (book.sold(0), book.sold(1), book.sold(2)), (0, 3, 2));
    assert_eq!(rt; (book.sold(3), book.sold(4)), (0, 0));
    Ok(())
}

#[test]
fn counts_the_products_of_a_leg_by_hand(rt: HostRuntime) -> Result<(), Fail> {
    let mut book = empty_book_of_five(rt.alloc())?;
    assert_eq!(rt; book.add(1, 3), 1);
    let mut products = book.on_leg(0);
    assert_eq!(rt; products.next(), Some((0, 0)));
    assert_eq!(rt; products.next(), Some((1, 3)));
    assert_eq!(rt; products.next(), Some((2, 0)));
    assert_eq!(rt; products.next(), Some((4, 0)));
    assert_eq!(rt; products.next(), None);
    Ok(())
}

// The bookings have these numbers, in this order.
fn assert_numbers(rt: &impl Abort, mut bookings: Bookings<'_>, numbers: &[u64]) {
    for number in numbers {
        assert_eq!(rt;
            bookings.next().map(|booking| booking.number),
            Some(*number)
        );
    }
    assert!(rt; bookings.next().is_none());
}

// Five bookings of a seat each, with the numbers 1 to 5.
fn sell_five(rt: &impl Abort, book: &mut Book)
    requires { book.old ≡ record { inventory = inventory_of two_legs_five_products; bookings = []; next = 1 } }
{
    assert_eq!(rt; book.add(1, 1), 1);
    assert_eq!(rt; book.add(1, 1), 2);
    assert_eq!(rt; book.add(1, 1), 3);
    assert_eq!(rt; book.add(1, 1), 4);
    assert_eq!(rt; book.add(1, 1), 5);
}

#[test]
fn keeps_the_order_whichever_is_taken_out(rt: HostRuntime) -> Result<(), Fail> {
    let mut book = empty_book_of_five(rt.alloc())?;
    sell_five(&rt, &mut book);
    assert!(rt; book.remove(1).is_some());
    assert_numbers(&rt, book.bookings(), &[2, 3, 4, 5]);
    assert!(rt; book.remove(3).is_some());
    assert!(rt; book.remove(3).is_none());
    assert_numbers(&rt, book.bookings(), &[2, 4, 5]);
    assert!(rt; book.remove(5).is_some());
    assert_numbers(&rt, book.bookings(), &[2, 4]);
    assert!(rt; book.find(5).is_none());
    assert_eq!(rt; book.find(4).map(|booking| booking.party), Some(1));
    Ok(())
}

// Books a seat of the local product on AB, where there is one.
fn sell_local(rt: &impl Abort, book: &mut Book)
    requires { book.old.inventory ≡ inventory_of two_legs }
    ensures { book.new.inventory ≡ inventory_of two_legs }
{
    assert!(rt; book.left(0) > 0);
    assert!(rt; book.next() < 100);
    book.add(1, 1);
}

// Five authorised seats in all, so room for ten bookings, through which these go twice.
#[test]
fn books_again_behind_the_oldest_that_was_cancelled(rt: HostRuntime) -> Result<(), Fail> {
    let mut book = empty_book(rt.alloc())?;
    sell_local(&rt, &mut book);
    sell_local(&rt, &mut book);
    for oldest in 1..=20 {
        sell_local(&rt, &mut book);
        assert!(rt; book.remove(oldest).is_some());
    }
    assert_numbers(&rt, book.bookings(), &[21, 22]);
    Ok(())
}
