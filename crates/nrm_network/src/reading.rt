//! A network file is read row by row: a draft takes each row as it comes, and no row is kept. A file without a quote is read line by
//! line, where it stands; `csv` reads any other, and says for both what a row is.
ghost use Rattle.std.specs.Prelude.{◌≡◌, ◌≤◌, false, length, true};
ghost use Rattle.csv.specs.Reading.{default_config, records, strip_bom};
ghost use Rattle.nrm_model.specs.declared.limits.TheConstants.{MOST_NETWORK_BYTES};
ghost use Rattle.nrm_network.specs.Answer.{AnswersFile};
ghost use Rattle.nrm_network.specs.Checks.{why_refused};
ghost use Rattle.nrm_network.specs.File.{file_of, network_or_refusal};
ghost use Rattle.nrm_network.specs.Rows.{rows_of};
ghost use Rattle.nrm_network.specs.Inner.Lines.{has_quote};
ghost use Rattle.nrm_network.specs.declared.fault.Why.TheVariants as why;

use crate::draft::Draft;
use crate::fault::{NetFault, Why};
use crate::line::ends_line;
use crate::row::RowFields;
use csv::{ByteRecord, ReaderBuilder};
use memchr::memchr;
use nrm_model::{MOST_NETWORK_BYTES, Network};
use std::alloc::Global;

// The network that the rows of a file give, each a record that `csv` reads. One record is read into again for each row. The reader
// has an empty row of headers set, for it would keep two copies of the first row as headers else: every row of the file is a record.
fn read_records(alloc: Global, bytes: &[u8]) -> Result<Network, NetFault>
    requires { length bytes.now ≤ MOST_NETWORK_BYTES }
    ensures { AnswersFile result (network_or_refusal why_refused why.Empty (rows_of bytes.now)) }
{
    let mut rdr = ReaderBuilder::new()
        .flexible(true)
        .from_reader(alloc, bytes);
    rdr.set_byte_headers(ByteRecord::new(alloc))?;
    let mut draft = Draft::new(alloc);
    let mut row = ByteRecord::new(alloc);
    let mut taken = 0;
    while rdr.read_byte_record(&mut row)? {
        taken += 1;
        if let Err(fault) = draft.take(alloc, &RowFields::Record(&row)) {
            return Err(fault.at(taken));
        }
    }
    draft.finish(alloc, taken)
}

// The network that the rows of a text without a quote give, each a line that has a byte.
fn read_lines(alloc: Global, text: &[u8]) -> Result<Network, NetFault>
    requires small { length text.now ≤ MOST_NETWORK_BYTES }
    requires plain { has_quote text.now ≡ false }
    ensures { AnswersFile result (network_or_refusal why_refused why.Empty (records default_config text.now)) }
{
    let mut draft = Draft::new(alloc);
    let mut taken = 0;
    let mut at = 0;
    while at < text.len() {
        if ends_line(text[at]) {
            at += 1;
        } else {
            taken += 1;
            match draft.take_line(alloc, &text[at..]) {
                Ok(length) => at += length,
                Err(fault) => return Err(fault.at(taken)),
            }
        }
    }
    draft.finish(alloc, taken)
}

// The bytes after a byte order mark, if they begin with one.
fn without_mark(bytes: &[u8]) -> &[u8]
    ensures { result.now ≡ strip_bom bytes.now }
{
    match bytes.strip_prefix(b"\xEF\xBB\xBF".as_slice()) {
        Some(rest) => rest,
        None => bytes,
    }
}

// Whether there is no quote among the bytes.
fn is_plain(bytes: &[u8]) -> bool
    ensures { result ≡ true → has_quote bytes.now ≡ false }
{
    memchr(b'"', bytes).is_none()
}

/// The network that a file gives. Rows count from 1.
///
/// # Errors
/// The row that the file is refused at, and why: row 0 where the file is longer than 4,194,304 bytes, the place after
/// the last row where there is no leg or no product. Or memory runs out.
pub fn parse(alloc: Global, bytes: &[u8]) -> Result<Network, NetFault>
    ensures { AnswersFile result (file_of bytes.now) }
{
    if bytes.len() > MOST_NETWORK_BYTES {
        return Err(NetFault::Refused {
            row: 0,
            why: Why::Size,
        });
    }
    if is_plain(bytes) {
        read_lines(alloc, without_mark(bytes))
    } else {
        read_records(alloc, bytes)
    }
}
