//! Tables that many threads change, each under its own lock. Each change adds a receipt to the seat of the thread that
//! made it, and an audit shows that the receipts are the tables' histories.
#![tactic(auto)]

mod answers;
mod book;
mod comparing;
mod counts;
mod errors;
pub mod held;
mod laws;
mod locked;
mod next_round;
mod pages;
mod receipt;
mod receipts;
mod roll;
mod seat;
mod shards;
mod unlocked;

pub use answers::{Answer, Answered};
pub use comparing::compare;
pub use errors::{AuditError, RoundError, ShardError};
pub use laws::{
    a_receipt_is_of_the_new_event, an_answer_changes_the_seat, an_audit_finds_what_is_missed,
    as_many_receipts_as_events, dropped_events_are_missed, forgotten_receipts_are_missed,
    one_receipt_more, receipts_are_the_events, renewals_are_counted,
};
pub use locked::Locked;
pub use receipt::Receipt;
pub use receipts::Receipts;
pub use seat::Seat;
pub use shards::Shards;
pub use unlocked::{Audit, Unlocked, UnlockedTable};
