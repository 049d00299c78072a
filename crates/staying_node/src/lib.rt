//! A node that stays: it keeps a session with each of its peers for as long as it runs, connects again after one ended, and
//! answers requests at its admin port. The sessions themselves are `peers_engine`'s; what is here are the threads around
//! them, the sockets and the clock, of which no contract speaks.
#![tactic(auto)]

mod accepting;
mod acknowledged;
mod admin;
mod bell;
mod brought;
mod catching_up;
mod clock;
mod definitions;
mod devices;
mod doors;
mod ends;
mod fault_counts;
mod inbox;
mod input;
mod intake;
mod kept_page;
mod lags;
mod log;
mod marked;
mod measuring;
mod metrics_port;
mod node;
mod numbering;
mod outbox;
mod peers;
mod ports;
mod process;
mod reading;
mod requests;
mod running;
mod sessions;
mod slot;
mod sockets;
mod status;
mod streams;
mod summed;
mod tables;
mod viewing;
mod wrong_ports;

pub use input::check_input;
pub use running::run;
