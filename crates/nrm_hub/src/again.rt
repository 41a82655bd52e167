//! Rows of the journal that are given again: each is carried out, and must leave just this row.
ghost use Rattle.std.specs.Prelude.{◌≡◌, ◌++◌, ◌∷◌, [], IfErr, IfSome, OnOk};
ghost use Rattle.nrm_text.specs.Names.{name_in};
ghost use Rattle.nrm_text.specs.Numbers.{whole_between};
ghost use Rattle.nrm_stream.specs.Commands.{command_of};
ghost use Rattle.nrm_hub.specs.Again.{FailsAgain, StopsAt, row_of, row_with};
ghost use Rattle.nrm_hub.specs.Inner.Rows.{CarriesRow, IsParsed, IsReadRow, IsRowFault, RowsAgain};
ghost use Rattle.nrm_hub.specs.declared.limits.TheConstants.{LAST_SEQUENCE, MOST_ROWS};

use crate::asked::is_change;
use crate::limits::{LAST_SEQUENCE, MOST_ROWS};
use crate::register::{JoinFault, Register};
use nrm_session::Reply;
use nrm_stream::{Command, command_of, split_once};
use nrm_text::{Name, name_of, read_whole};
use std::alloc::Global;

/// Why rows can't be given again. Rows are counted from 1.
#[derive(Clone, Copy, Debug, PartialEq, Eq)]
pub enum AgainFault {
    /// This row is none, or not the next one.
    NoRow(u64),
    /// This row isn't what the program answers.
    Differs(u64),
    /// Memory runs out.
    NoMemory,
}

// A row as it is read: its number, the desk's name, the desk's own number and the command.
#[derive(Clone, Copy)]
struct ReadRow {
    number: u64,
    name: Name,
    sequence: u64,
    command: Command,
}

// A number from 1 to the greatest.
fn number_in(bytes: &[u8], most: u64) -> Option<u64>
    ensures { result ≡ whole_between 1 most bytes.now }
{
    match read_whole(bytes, most) {
        Ok(number) if number >= 1 => Some(number),
        _ => None,
    }
}

// A row of these fields.
fn row_with(number: &[u8], name: &[u8], sequence: &[u8], command: &[u8]) -> Option<ReadRow>
    ensures parsed { IsParsed (row_with (whole_between 1 MOST_ROWS number.now) (name_in name.now)
        (whole_between 1 LAST_SEQUENCE sequence.now) (command_of command.now)) result }
    ensures within { IfSome result IsReadRow }
{
    let number = number_in(number, MOST_ROWS)?;
    let name = name_of(name)?;
    let sequence = number_in(sequence, LAST_SEQUENCE)?;
    let command = command_of(command);
    if is_change(&command) {
        Some(ReadRow {
            number,
            name,
            sequence,
            command,
        })
    } else {
        None
    }
}

// A row that is read, but for its reply.
fn read_row(line: &[u8]) -> Option<ReadRow>
    ensures parsed { IsParsed (row_of line.now) result }
    ensures within { IfSome result IsReadRow }
{
    let (number, rest) = split_once(line, b'\t')?;
    let (name, rest) = split_once(rest, b'\t')?;
    let (sequence, rest) = split_once(rest, b'\t')?;
    let (command, _) = split_once(rest, b'\t')?;
    row_with(number, name, sequence, command)
}

// Carries out a row that is read, under its number.
fn carry_row(alloc: Global, register: &mut Register, row: ReadRow) -> Result<(), AgainFault>
    requires { IsReadRow row }
    ensures carries { OnOk result (CarriesRow register.old register.new row) }
    ensures cause { IfErr result (IsRowFault register.old row) }
{
    let number = register.rows() + 1;
    if row.number != number || number > MOST_ROWS {
        return Err(AgainFault::NoRow(number));
    }
    let desk = match register.join(alloc, &row.name, None) {
        Ok(desk) => desk,
        Err(JoinFault::TooMany) => return Err(AgainFault::NoRow(number)),
        Err(JoinFault::NoMemory) => return Err(AgainFault::NoMemory),
    };
    if row.sequence < register.next_of(desk) {
        return Err(AgainFault::NoRow(number));
    }
    let Ok(reply) = register.carry(alloc, desk, row.sequence, &row.command) else {
        return Err(AgainFault::NoMemory);
    };
    match reply {
        Reply::Memory => Err(AgainFault::NoMemory),
        _ => Ok(()),
    }
}

// Gives one row again, with the end of its line.
fn row_again(
    alloc: Global,
    register: &mut Register,
    line: &[u8],
    whole: &[u8],
) -> Result<(), AgainFault>
    requires given { register.old.text ≡ [] }
    requires line { whole.now ≡ line.now ++ 10 ∷ [] }
    ensures again { OnOk result (RowsAgain register.old register.new whole.now) }
    ensures given { OnOk result (register.new.text ≡ []) }
    ensures fails { IfErr result (StopsAt register.old whole.now) }
{
    let Some(row) = read_row(line) else {
        return Err(AgainFault::NoRow(register.rows() + 1));
    };
    carry_row(alloc, register, row)?;
    if register.text() != whole {
        return Err(AgainFault::Differs(register.rows()));
    }
    register.clear_text();
    Ok(())
}

/// Gives rows again, one after another; each ends with its line feed.
pub(crate) fn give_again(
    alloc: Global,
    register: &mut Register,
    payload: &[u8],
) -> Result<(), AgainFault>
    requires given { register.old.text ≡ [] }
    ensures again { OnOk result (RowsAgain register.old register.new payload.now) }
    ensures given { OnOk result (register.new.text ≡ []) }
    ensures fails { IfErr result (FailsAgain register.old payload.now) }
{
    let mut rest = payload;
    while !rest.is_empty() {
        let Some((line, behind)) = split_once(rest, b'\n') else {
            return Err(AgainFault::NoRow(register.rows() + 1));
        };
        row_again(alloc, register, line, &rest[..line.len() + 1])?;
        rest = behind;
    }
    Ok(())
}
