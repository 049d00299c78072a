//! What a node that stays decides of its sessions and connections, as values and machines without threads, sockets or a clock: when a
//! session ends, and for what; what is known of a peer, of its resyncs and of its tables; which of its connections stands, and when the
//! node connects to it; why a hello is refused; when the log says that a peer's heartbeat stayed away, or that it closes its sessions soon;
//! and which client's connection goes for that of another one.
#![tactic(auto)]

mod answers;
mod arrivals;
mod attempt_laws;
mod attempts;
mod end_news;
mod ending;
mod ending_laws;
mod findings;
mod heartbeats;
mod hello_refusals;
mod peer_record;
mod peer_record_laws;
mod resyncs;
mod seats;
mod short_sessions;

pub use answers::Answers;
pub use arrivals::{Arrivals, Kept, LOOK, Stay};
pub use attempt_laws::attempts_come;
pub use attempts::{Attempts, NextStep, Prospect};
pub use end_news::{EndNews, EndedConnection};
pub use ending::{Closing, ENDING, Ending, LastWait, Outside, closing_of};
pub use ending_laws::a_stop_waits_for_all;
pub use findings::{Found, LookTimes, TableFinding, found_of};
pub use heartbeats::missed_heartbeat;
pub use hello_refusals::{SaidPart, hello_refusal, late_refusal, names_sender, said_in};
pub use peer_record::PeerRecord;
pub use peer_record_laws::{a_peer_stays_down_since, the_last_error_tells_why};
pub use resyncs::{Learning, Resync, ResyncsHeard, Teaching, counts_as, lacks_tables, resync_end};
pub use seats::{Room, room_for_client, room_for_visit};
pub use short_sessions::ShortSessions;
