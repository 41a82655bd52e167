//! Who answers the lines of a session: a controller, and what stands beside it.
ghost use Rattle.std.specs.Prelude.{ℕ, List, ◌<◌, ◌∷◌, [], OnErr, OnOk};
ghost use Rattle.nrm_model.specs.declared.limits.TheConstants.{BOOKING_LIMIT};
ghost use Rattle.nrm_control.specs.Standing.{ControlValue};
ghost use Rattle.nrm_stream.specs.Commands.{IsCommand};
ghost use Rattle.nrm_stream.specs.declared.command.Command.{Command};
ghost use Rattle.nrm_session.specs.Clerks.{Answers, AnswersCut, is_control, refines, refines_cut};

use crate::reply::answer_line;
use nrm_control::Controller;
use nrm_edge::{Failed, Sink};
use nrm_stream::Command;
use std::alloc::Global;

/// A way to answer lines by a controller and something beside it.
pub trait Clerk<B> {
    /// Whether lines can be answered.
    ghost ready: { (ControlValue × B) → Type 0 };

    /// What it means that commands were answered, with this output.
    ghost whole: { (ControlValue × B) → (ControlValue × B) → List Command → List ℕ → Type 0 };

    /// What it means that one of them was cut.
    ghost cut: { (ControlValue × B) → (ControlValue × B) → List Command → List ℕ → Type 0 };

    /// Answers a line: its reply is put.
    ///
    /// # Errors
    /// A put failed; a front of the reply went out, and what stands now is as after the line.
    fn answer<K: Sink>(
        alloc: Global,
        controller: &mut Controller,
        beside: &mut B,
        command: &Command,
        sink: &mut K,
    ) -> Result<(), Failed>
        requires command { IsCommand command.now }
        requires next { controller.old.next < BOOKING_LIMIT }
        requires ready { ready (controller.old, beside.old) }
        ensures whole { OnOk result (Answers whole ready (controller.old, beside.old) (controller.new, beside.new) (command.now ∷ [])
            (K.held sink.old) (K.held sink.new) (K.faults sink.old) (K.faults sink.new)) }
        ensures cut { OnErr result (AnswersCut cut ready (controller.old, beside.old) (controller.new, beside.new) (command.now ∷ [])
            (K.held sink.old) (K.held sink.new) (K.faults sink.old) (K.faults sink.new)) };
}

/// A controller alone, with nothing beside it.
pub struct Alone;

impl Clerk<()> for Alone {
    ghost use Rattle.nrm_session.specs.Clerks.{is_control, refines, refines_cut};

    ghost ready = { is_control };

    ghost whole = { refines };

    ghost cut = { refines_cut };

    fn answer<K: Sink>(
        alloc: Global,
        controller: &mut Controller,
        beside: &mut (),
        command: &Command,
        sink: &mut K,
    ) -> Result<(), Failed> {
        answer_line(alloc, controller, command, sink)
    }
}
