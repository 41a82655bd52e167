//! The session: lines to replies.
//!
//! `serve` answers the lines of a stream by a controller. It is `serve_by` with the clerk `Alone`, which answers a line by
//! `answer_line`: `carry_out`, and then `put_reply`. Another clerk brings a `Clerk::answer` of its own.
//! `lines_are_answered_by_hand` of `nrm_session_tests` runs a session.
#![tactic(auto)]

mod clerk;
mod laws;
mod reply;
mod serving;

pub use clerk::{Alone, Clerk};
pub use laws::{
    each_list_has_a_run, hindsight_bounds, money_adds_up, other_lines_need_no_memory,
    physical_seats_decide_nothing, plans_stay_optimal, printed_prices_are_optimal,
    replies_are_determined, requests_are_answered, runs_have_first_parts, runs_oversell_no_leg,
    states_are_determined,
};
pub use reply::{Reply, answer_line, carry_out, put_reply};
pub use serving::{End, LATEST_START, serve, serve_by};
