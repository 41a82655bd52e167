//! A row of a desk.
use nrm_session::Reply;
use nrm_stream::Command;

/// A line of a desk that may have changed something: the desk's own number of it, the command and the reply.
#[derive(Clone, Copy, Debug, PartialEq, Eq)]
pub struct Row {
    pub sequence: u64,
    pub command: Command,
    pub reply: Reply,
}
