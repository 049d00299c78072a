//! What a node that stays decides, as values and machines without threads, sockets or a clock: which peer it asks for all rows, when the
//! ticks of a session come, how long its writes may take, how long a peer is left alone, which door closes its connection,
//! whether connections can be accepted, and since when a row waits.
#![tactic(auto)]

mod accepting;
mod asking;
mod asking_laws;
mod brought;
mod build;
mod defining;
mod difference_laws;
mod differences;
mod doors;
mod events;
mod kept_pages;
mod last_errors;
mod levels;
mod needs;
mod number_laws;
mod number_times;
mod once;
mod processes;
mod reaching;
mod renewals;
mod rests;
mod session_ends;
mod standstills;
mod tick_laws;
mod ticks;
mod write_times;

pub use accepting::{Accepting, Want};
pub use asking::{ALONE, Asking, PATIENCE, WaitEnd};
pub use asking_laws::{
    a_mute_peer_holds_nobody_up, a_node_comes_to_be_up_to_date, each_is_asked_in_turn,
    every_wait_ends, one_at_a_time, whoever_brings_rows_goes_on, whoever_stays_is_asked,
};
pub use brought::Brought;
pub use build::{KIT, VERSION};
pub use defining::Defining;
pub use difference_laws::what_differs_is_not_learned;
pub use differences::{Difference, TableShape};
pub use doors::is_longest;
pub use events::{Event, HelloRefusal, Omission, PeerEvent, Port, ResyncEnd, Sender};
pub use kept_pages::is_kept;
pub use last_errors::LastError;
pub use levels::Level;
pub use needs::{Need, push_lacking, reason_of};
pub use number_laws::an_age_is_never_too_great;
pub use number_times::NumberTimes;
pub use once::{Once, SaidNames};
pub use processes::{LastPid, Process};
pub use reaching::{Failure, NoSession, Reaching};
pub use renewals::{Renewal, Renewing};
pub use rests::rests_until;
pub use session_ends::SessionEnd;
pub use standstills::LastLook;
pub use tick_laws::{heartbeats_come, ticks_come};
pub use ticks::{Busy, Ticks, Traffic};
pub use write_times::{WRITE_TIME, WriteTime};
