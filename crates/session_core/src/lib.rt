//! The machine of a session between two peers: what it does at each event (HAProxy, doc/peers-v2.0.txt, "Handshake" and
//! "Control Messages"). It does no I/O itself: it returns the actions that its caller performs.
#![tactic(auto)]

mod acks;
mod action;
mod clock_laws;
mod controls;
mod counts;
mod course;
mod due;
mod error;
mod event;
mod halt;
mod handshake;
mod heard;
mod laws;
mod leaving;
mod machine;
mod open;
mod pace;
mod phase;
mod progress;
mod receiving;
mod session;
mod share;
mod state;
mod stay;
mod times;

pub use acks::ack_of;
pub use action::Action;
pub use clock_laws::{
    a_batch_stays_out, a_left_table_stays_left, a_resync_has_work_left,
    acknowledgements_were_received, heartbeats_keep_time, no_name_is_lost,
    only_free_tables_are_asked, resyncs_begin_apart, ticks_change_nothing_else, what_a_tick_gives,
};
pub use controls::Controls;
pub use counts::Counts;
pub use error::SessionError;
pub use event::Event;
pub use laws::{
    a_fault_ends_the_session, a_step_exists, a_step_is_unique, any_answers, any_events,
    any_greeting, confirmed_is_sent, resyncs_end_taught, the_hello_decides, unasked_is_no_step,
    what_is_counted_is_unique,
};
pub use progress::Progress;
pub use session::Session;
pub use state::State;
