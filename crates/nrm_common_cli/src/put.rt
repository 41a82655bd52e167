//! One line, put with the status that goes with it, where a program has no answer.
ghost use Rattle.std.specs.Prelude.{◌≡◌, ◌≤◌, IfErr, IfOk, Ok};
ghost use Rattle.nrm_common_cli.specs.Puts.{PutsLine, PutsReason, PutsUnplanned, TellsNoNetwork, TellsUnplanned, status_for};
ghost use Rattle.nrm_common_cli.specs.Outside.{SentOn};

use crate::line::{line_of_overflow, send_line};
use crate::network_file::NoNetwork;
use nrm_edge::Sink;
use nrm_model::Network;
use nrm_simplex::SolveFault;

/// The statuses by which a program says what each program over a network may have to say.
#[derive(Clone, Copy, Debug)]
pub struct Statuses<S> {
    /// No file has the name, or it is refused.
    pub refused: S,
    /// The files failed.
    pub file_fault: S,
    /// The opening linear program leaves the range of the solver's numbers.
    pub overflow: S,
    /// Memory ran out.
    pub no_memory: S,
    /// The output failed.
    pub write_fault: S,
}

impl<S: Copy> Statuses<S> {
    /// Puts a line, and answers the status that goes with it; if the output fails, the status that says so.
    pub fn put_line<K: Sink>(self, sink: &mut K, line: &[u8], told: S) -> S
        ensures puts { PutsLine self line.now told (K.held sink.old) (K.held sink.new) (K.faults sink.old) (K.faults sink.new) result }
        ensures later { K.faults sink.old ≤ K.faults sink.new }
        ensures sent { SentOn self.write_fault result (K.unsent sink.old) (K.unsent sink.new) }
    {
        match send_line(sink, line) {
            Ok(()) => told,
            Err(_) => self.write_fault,
        }
    }

    // The status that goes with the line of a reason.
    fn status_for(self, reason: NoNetwork) -> S
        ensures { result ≡ status_for self reason }
    {
        match reason {
            NoNetwork::Absent | NoNetwork::Refused { .. } => self.refused,
            NoNetwork::Fault => self.file_fault,
            NoNetwork::NoMemory => self.no_memory,
        }
    }

    /// Puts the line that says why there is no network, and answers the status that goes with it. If memory ran out, nothing is put.
    pub fn put_reason<K: Sink>(self, sink: &mut K, reason: NoNetwork) -> S
        ensures puts { PutsReason self reason (K.held sink.old) (K.held sink.new) (K.faults sink.old) (K.faults sink.new) result }
        ensures later { K.faults sink.old ≤ K.faults sink.new }
        ensures sent { SentOn self.write_fault result (K.unsent sink.old) (K.unsent sink.new) }
    {
        match reason.line() {
            Some(line) => self.put_line(sink, line.bytes(), self.status_for(reason)),
            None => self.no_memory,
        }
    }

    /// Puts the line that says why nothing is planned, and answers the status that goes with it. If memory ran out, nothing is put.
    pub fn put_unplanned<K: Sink>(self, sink: &mut K, why: SolveFault) -> S
        ensures puts { PutsUnplanned self why (K.held sink.old) (K.held sink.new) (K.faults sink.old) (K.faults sink.new) result }
        ensures later { K.faults sink.old ≤ K.faults sink.new }
        ensures sent { SentOn self.write_fault result (K.unsent sink.old) (K.unsent sink.new) }
    {
        match why {
            SolveFault::Overflow { pivots, number } => self.put_line(
                sink,
                line_of_overflow(pivots, number).bytes(),
                self.overflow,
            ),
            SolveFault::NoMemory => self.no_memory,
        }
    }

    /// The network that was opened.
    ///
    /// # Errors
    /// There is none: the line that says why is put, and this is the status that goes with it.
    pub fn network_or_told<K: Sink>(
        self,
        opened: Result<Network, NoNetwork>,
        sink: &mut K,
    ) -> Result<Network, S>
        ensures network { IfOk result (λ net. (opened ≡ Ok net) × (sink.new ≡ sink.old)) }
        ensures told { IfErr result
            (TellsNoNetwork self opened (K.held sink.old) (K.held sink.new) (K.faults sink.old) (K.faults sink.new)) }
        ensures later { K.faults sink.old ≤ K.faults sink.new }
        ensures sent { IfErr result (λ status. SentOn self.write_fault status (K.unsent sink.old) (K.unsent sink.new)) }
    {
        match opened {
            Ok(net) => Ok(net),
            Err(reason) => Err(self.put_reason(sink, reason)),
        }
    }

    /// What was planned.
    ///
    /// # Errors
    /// Nothing was: the line that says why is put, and this is the status that goes with it.
    pub fn planned_or_told<T, K: Sink>(
        self,
        planned: Result<T, SolveFault>,
        sink: &mut K,
    ) -> Result<T, S>
        ensures planned { IfOk result (λ made. (planned ≡ Ok made) × (sink.new ≡ sink.old)) }
        ensures told { IfErr result
            (TellsUnplanned self planned (K.held sink.old) (K.held sink.new) (K.faults sink.old) (K.faults sink.new)) }
        ensures later { K.faults sink.old ≤ K.faults sink.new }
        ensures sent { IfErr result (λ status. SentOn self.write_fault status (K.unsent sink.old) (K.unsent sink.new)) }
    {
        match planned {
            Ok(made) => Ok(made),
            Err(why) => Err(self.put_unplanned(sink, why)),
        }
    }
}
