//! A stick table: its rows and their numbers, its open sessions, what each event does to it, and the history of its
//! events, including each batch that was copied.
#![tactic(auto)]

mod batch;
mod batches;
mod calls;
mod cell;
mod checkpoints;
mod copying;
mod entry;
mod errors;
mod events;
mod handing;
mod laws;
mod learned_run;
mod origin;
mod past;
mod pending;
mod progress;
mod refusals;
mod renumbering;
mod sessions;
mod standing;
mod table;
mod tracking;

pub use cell::TableCell;
pub use checkpoints::Dropped;
pub use entry::Entry;
pub use errors::{
    AckError, CheckpointError, CloseError, CopyError, LearnError, OpenError, PurgeError,
    RenumberError, StrangeBatch, TrackError,
};
pub use events::{CellEvent, CellReply, Reply};
pub use handing::{a_cell_keeps_up, acknowledged_rows_were_handed_out, other_events_hand_nothing};
pub use laws::{
    a_cell_stays_sound, a_history_goes_on, a_run_goes_on, a_sound_cell_was_always_sound,
    a_step_exists, a_step_is_unique, a_table_stays_sound, batches_are_kept,
    what_is_copied_is_a_batch, what_settles_is_the_latest,
};
pub use pending::Pending;
pub use progress::Progress;
pub use standing::{standing_resyncs_end, what_is_left_shrinks};
pub use table_stock::Blocks;
pub use table_types::{CopyKind, Settled};
