//! A text that grows line by line. Where memory runs out nothing is said of it.
ghost use Rattle.std.specs.Prelude.{◌≡◌, ◌++◌, OnOk};

use nrm_text::Text;
use std::alloc::AllocError;

/// Appends a line.
pub(crate) fn push_line<const ROOM: usize>(
    text: &mut Vec<u8>,
    line: &Text<ROOM>,
) -> Result<(), AllocError>
    ensures { OnOk result (text.new.items ≡ text.old.items ++ line.now) }
{
    text.extend_from_slice(line.bytes())
}
