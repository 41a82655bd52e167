//! The maker of the 10,000 commands after a made network. It keeps the state of the draws, and how many commands it has
//! given.
ghost use Rattle.std.specs.Prelude.{◌≡◌, IfOk, IfSome};
ghost use Rattle.nrm_stream.specs.Commands.{IsCommand};
ghost use Rattle.nrm_gen.specs.Draws.{state_after, stirred, drawn};
ghost use Rattle.nrm_gen.specs.MadeNetwork.{made_network};
ghost use Rattle.nrm_gen.specs.MadeCommands.{after_next, by_lot, command_at, next_of};

use crate::draws::Draws;
use crate::names::{leg_name, product_name};
use crate::network::{HISTORIES, PERIODS, made_demand, made_legs, made_products};
use nrm_model::Network;
use nrm_stream::Command;
use std::alloc::{AllocError, Global};
use std::marker::Model;

// How many commands there are.
const COMMANDS: u16 = 10_000;

/// Gives the commands, one after another.
#[derive(Drop)]
pub struct Maker {
    draws: Draws,
    given: u16,
}

impl Model for Maker {
    ghost use Rattle.std.specs.Prelude.{◌≤◌};
    ghost use Rattle.nrm_gen.specs.MadeCommands.{Making};

    ghost Value = { Making };

    ghost view = { λ m. record { state = m.draws; given = m.given } };

    ghost invariant = { λ m. m.given ≤ 10000 };
}

/// The network that is made of a number, and the maker of its commands.
///
/// # Errors
/// Memory runs out.
pub fn made(alloc: Global, number: u32) -> Result<(Network, Maker), AllocError>
    ensures network { IfOk result (λ r. r.0 ≡ made_network number) }
    ensures maker { IfOk result (λ r. r.1 ≡ record { state = state_after number 1992; given = 0 }) }
{
    let mut draws = Draws::new(number);
    let legs = made_legs(alloc, &mut draws)?;
    let products = made_products(alloc, &mut draws)?;
    let demand = made_demand(alloc, &mut draws)?;
    let network = Network::new(alloc, HISTORIES, PERIODS, legs, products, demand)?;
    Ok((network, Maker { draws, given: 0 }))
}

impl Maker {
    /// The next command, and `None` once 10,000 were given. It takes no memory.
    pub fn next(&mut self) -> Option<Command>
        ensures command { result ≡ next_of self.old }
        ensures state { self.new ≡ after_next self.old }
        ensures within { IfSome result IsCommand }
    {
        if self.given == COMMANDS {
            return None;
        }
        self.given += 1;
        Some(command_at(&mut self.draws, self.given))
    }
}

// The command of a number, from 1.
fn command_at(draws: &mut Draws, number: u16) -> Command
    ensures command { (result, draws.new) ≡ command_at number draws.old }
    ensures within { IsCommand result }
{
    match number {
        2_500 => Command::Reoptimise { period: 2 },
        5_000 => Command::Reoptimise { period: 3 },
        7_500 => Command::Reoptimise { period: 4 },
        COMMANDS => Command::Hindsight,
        _ => by_lot(draws),
    }
}

// A request, a cancellation or a leg, by lot.
fn by_lot(draws: &mut Draws) -> Command
    ensures command { (result, draws.new) ≡ by_lot (drawn 20 (stirred draws.old)) (stirred draws.old) }
    ensures within { IsCommand result }
{
    match draws.draw(20) {
        0..=14 => {
            let product = product_name(draws.draw(60) as u8);
            let party = 1 + draws.draw(3) as u16;
            Command::Book { product, party }
        }
        15..=18 => Command::Cancel {
            number: u64::from(1 + draws.draw(400)),
        },
        _ => Command::Leg {
            name: leg_name(draws.draw(12) as u8),
        },
    }
}
