//! The search beside the path of the simplex method: on each program both find the same value. Where several certificates are
//! optimal, their prices may differ.
use crate::certificate::no_seats;
use crate::dlp::{program_at_authorised, program_at_opening, program_by_hindsight};
use crate::simplex::{dear_singles, dear_triangle, triangle};
use nrm_dlp::opening_program;
use nrm_lp::{Certificate, Program};
use nrm_network::{NetFault, parse};
use nrm_samples::two_legs_five_products_program;
use nrm_search::{SearchFault, search};
use nrm_simplex::solve;
use std::alloc::{AllocError, Global};
use std::fmt::Write;
use std::process::Abort;
use std::test::Fail;

// Whether the values of two certificates are equal, each over its own denominator.
fn are_equal_values(a: &Certificate, b: &Certificate) -> bool {
    let (a_value, a_den) = (i128::from(a.value), i128::from(a.den));
    let (b_value, b_den) = (i128::from(b.value), i128::from(b.den));
    a_value * b_den == b_value * a_den
}

// The search finds a certificate, and the path one of the same value.
fn assert_same_value(rt: &impl Abort, alloc: Global, program: &Program, name: &str) -> Certificate {
    let path = solve(alloc, program).ok().expect(rt, "the path");
    let found = search(alloc, program).ok().expect(rt, "the search");
    assert!(rt; are_equal_values(&found, &path), "{name}");
    found
}

#[test]
fn samples_have_the_value_of_the_path(rt: HostRuntime) -> Result<(), Fail> {
    let alloc = rt.alloc();
    assert_same_value(&rt, alloc, &triangle(alloc)?, "triangle");
    assert_same_value(&rt, alloc, &dear_singles(alloc)?, "singles");
    assert_same_value(&rt, alloc, &no_seats(alloc)?, "no seats");
    assert_same_value(&rt, alloc, &program_at_opening(alloc)?, "opening");
    assert_same_value(&rt, alloc, &program_at_authorised(alloc)?, "authorised");
    assert_same_value(&rt, alloc, &program_by_hindsight(alloc)?, "hindsight");
    let five_products = two_legs_five_products_program(alloc)?;
    assert_same_value(&rt, alloc, &five_products, "five products");
    Ok(())
}

// Each product is between no seat and its bound, and each leg full, so there is one optimal certificate.
#[test]
fn finds_the_only_certificate_by_halves(rt: HostRuntime) -> Result<(), Fail> {
    let program = triangle(rt.alloc())?;
    let found = search(rt.alloc(), &program)?;
    assert_eq!(rt; (found.q, found.den, found.value), (2, 2, 7));
    assert_eq!(rt; found.x.as_slice(), [1, 1, 1].as_slice());
    assert_eq!(rt; found.p.as_slice(), [3, 1, 3].as_slice());
    Ok(())
}

// The value over the denominator of the prices, 399,599,996,004,000 over 2, is beyond the limit of sizes.
#[test]
fn gives_up_beyond_the_limit(rt: HostRuntime) -> Result<(), Fail> {
    let program = dear_triangle(rt.alloc())?;
    let fault = search(rt.alloc(), &program).err();
    assert_eq!(rt; fault, Some(SearchFault::GaveUp));
    Ok(())
}

// Two legs of 2 seats, and four products at one fare: two on the first leg, one on the second and one on both.
fn one_fare(alloc: Global) -> Result<Program, AllocError> {
    let caps = vec![in alloc; 2, 2]?;
    let bounds = vec![in alloc; 2, 2, 2, 2]?;
    let fares = vec![in alloc; 100, 100, 100, 100]?;
    let legs = vec![in alloc;
        vec![in alloc; 0]?,
        vec![in alloc; 0]?,
        vec![in alloc; 1]?,
        vec![in alloc; 0, 1]?,
    ]?;
    Ok(Program::new(caps, bounds, fares, legs))
}

// The product on both legs is worth as much as one on each of them.
fn sum_of_fares(alloc: Global) -> Result<Program, AllocError> {
    let caps = vec![in alloc; 3, 3]?;
    let bounds = vec![in alloc; 3, 3, 3]?;
    let fares = vec![in alloc; 60, 40, 100]?;
    let legs = vec![in alloc;
        vec![in alloc; 0]?,
        vec![in alloc; 1]?,
        vec![in alloc; 1, 0]?,
    ]?;
    Ok(Program::new(caps, bounds, fares, legs))
}

#[test]
fn ties_have_the_value_of_the_path(rt: HostRuntime) -> Result<(), Fail> {
    let alloc = rt.alloc();
    let found = assert_same_value(&rt, alloc, &one_fare(alloc)?, "one fare");
    assert_eq!(rt; (found.den, found.value), (1, 400));
    let found = assert_same_value(&rt, alloc, &sum_of_fares(alloc)?, "sum of fares");
    assert_eq!(rt; (found.den, found.value), (1, 300));
    Ok(())
}

// Two legs with more seats than demand, a third one that no product uses, and a product that nobody asks for.
fn plenty(alloc: Global) -> Result<Program, AllocError> {
    let caps = vec![in alloc; 9, 8, 0]?;
    let bounds = vec![in alloc; 5, 0, 3]?;
    let fares = vec![in alloc; 70, 900, 120]?;
    let legs = vec![in alloc;
        vec![in alloc; 0]?,
        vec![in alloc; 1]?,
        vec![in alloc; 0, 1]?,
    ]?;
    Ok(Program::new(caps, bounds, fares, legs))
}

#[test]
fn accepts_all_where_no_seat_is_scarce(rt: HostRuntime) -> Result<(), Fail> {
    let alloc = rt.alloc();
    let found = assert_same_value(&rt, alloc, &plenty(alloc)?, "plenty");
    assert_eq!(rt; (found.q, found.den, found.value), (1, 1, 710));
    assert_eq!(rt; found.x.as_slice(), [5, 0, 3].as_slice());
    assert_eq!(rt; found.p.as_slice(), [0, 0, 0].as_slice());
    Ok(())
}

// A leg without seats, one with 2, and a third one that no product uses; nobody asks for the second product.
fn scarce(alloc: Global) -> Result<Program, AllocError> {
    let caps = vec![in alloc; 0, 2, 7]?;
    let bounds = vec![in alloc; 4, 0, 3, 5]?;
    let fares = vec![in alloc; 300, 900, 80, 100]?;
    let legs = vec![in alloc;
        vec![in alloc; 0, 1]?,
        vec![in alloc; 1]?,
        vec![in alloc; 1]?,
        vec![in alloc; 0]?,
    ]?;
    Ok(Program::new(caps, bounds, fares, legs))
}

#[test]
fn sells_nothing_over_a_leg_without_seats(rt: HostRuntime) -> Result<(), Fail> {
    let alloc = rt.alloc();
    let found = assert_same_value(&rt, alloc, &scarce(alloc)?, "scarce");
    assert_eq!(rt; (found.q, found.den, found.value), (1, 1, 160));
    assert_eq!(rt; found.x.as_slice(), [0, 0, 2, 0].as_slice());
    let found = assert_same_value(&rt, alloc, &no_seats(alloc)?, "no seats");
    assert_eq!(rt; (found.x.as_slice(), found.value), ([0].as_slice(), 0));
    Ok(())
}

// Draws numbers by a linear congruential generator.
#[derive(Drop)]
struct Draw {
    state: u64,
}

impl Draw {
    // A number below this one, and 0 below 0.
    fn below(&mut self, limit: u64) -> u64 {
        let multiplied = self.state.wrapping_mul(6_364_136_223_846_793_005);
        self.state = multiplied.wrapping_add(1_442_695_040_888_963_407);
        (self.state >> 33).checked_rem(limit).unwrap_or(0)
    }

    fn from_nought_to(&mut self, most: u64) -> u64 {
        self.below(most.saturating_add(1))
    }

    fn from_one_to(&mut self, most: u64) -> u64 {
        self.below(most).saturating_add(1)
    }

    fn one_of(&mut self, numbers: &[u64]) -> u64 {
        let place = self.below(numbers.len() as u64);
        numbers.get(place as usize).copied().unwrap_or(1)
    }
}

// How large a made network is: legs, products and legs of a product, the most seats and demand, and the least and the most that a fare
// is.
#[derive(Drop)]
struct Sizes {
    legs: u64,
    products: u64,
    longest: u64,
    seats: u64,
    demand: u64,
    least_fare: u64,
    fares: u64,
}

// Some of them make many ties.
fn drawn_sizes(draw: &mut Draw) -> Sizes {
    Sizes {
        legs: draw.from_one_to(10),
        products: draw.from_one_to(60),
        longest: draw.one_of(&[1, 2, 3, 4]),
        seats: draw.one_of(&[1, 4, 50, 999]),
        demand: draw.one_of(&[1, 4, 50, 999]),
        least_fare: draw.one_of(&[1, 100]),
        fares: draw.one_of(&[1, 3, 100, 99_999_900]),
    }
}

// The file of a network with seats, fares, legs and demand as they are drawn.
fn made_file(alloc: Global, draw: &mut Draw) -> Result<String, AllocError> {
    let sizes = drawn_sizes(draw);
    let mut file = String::from_str(alloc, "periods,1,1,2\n")?;
    for leg in 0..sizes.legs {
        let seats = draw.from_nought_to(sizes.seats);
        write!(&mut file, "leg,L{leg},{seats},{seats}\n")?;
    }
    for product in 0..sizes.products {
        let fare = sizes.least_fare.saturating_add(draw.below(sizes.fares));
        write!(&mut file, "product,P{product},{fare}")?;
        put_legs(alloc, draw, &sizes, &mut file)?;
        let demand = draw.from_nought_to(sizes.demand);
        write!(&mut file, "\ndemand,P{product},1,{demand}\n")?;
    }
    Ok(file)
}

// The names of a product's legs, none twice.
fn put_legs(
    alloc: Global,
    draw: &mut Draw,
    sizes: &Sizes,
    file: &mut String,
) -> Result<(), AllocError> {
    let mut named = Vec::new(alloc);
    for _ in 0..sizes.longest {
        let leg = draw.below(sizes.legs);
        if !named.contains(&leg) {
            named.push(leg)?;
            write!(file, ",L{leg}")?;
        }
    }
    Ok(())
}

// The opening program of a made network.
fn made_program(alloc: Global, draw: &mut Draw) -> Result<Program, NetFault> {
    let file = made_file(alloc, draw)?;
    let net = parse(alloc, file.as_bytes())?;
    Ok(opening_program(alloc, &net)?)
}

#[test]
fn made_programs_have_the_value_of_the_path(rt: HostRuntime) -> Result<(), Fail> {
    let mut draw = Draw { state: 2026 };
    let mut in_parts = 0u32;
    for round in 0..400 {
        let program = made_program(rt.alloc(), &mut draw).ok().expect(&rt, "made");
        let name = format!(in rt.alloc(); "round {round}")?;
        let found = assert_same_value(&rt, rt.alloc(), &program, name.as_str());
        if found.q > 1 || found.den > 1 {
            in_parts = in_parts.saturating_add(1);
        }
    }
    assert!(rt; in_parts > 20, "{in_parts} have fractions");
    Ok(())
}
