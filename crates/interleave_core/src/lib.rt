//! The world: tables, the sessions that teach from them, and what is on its way between a teacher and its learners. Steps
//! are made one after another, in any order, and bytes arrive cut anywhere.
#![tactic(auto)]

mod acks;
mod byte_laws;
mod cells;
mod connection;
mod connection_laws;
mod laws;
mod new_world_laws;
mod parts;
mod session_laws;
mod since_laws;
mod step;
mod tie_laws;
mod track_laws;
mod version_laws;
mod way;
mod world;
mod world_laws;

pub use byte_laws::{a_batch_is_of_bytes, a_lesson_is_bytes, a_roster_is_named_in_bytes};
pub use connection_laws::{
    a_connection_stays_sound, acknowledgements_are_read, due_tables_are_owed,
    rows_are_of_the_last_updates, the_learner_ends_as_known,
};
pub use laws::{a_connection_stays_on_track, sessions_stay_open};
pub use new_world_laws::a_new_world_is_sound;
pub use session_laws::{a_session_may_be_opened_later, what_a_session_does_are_steps};
pub use since_laws::what_is_put_was_copied_since;
pub use step::Step;
pub use tie_laws::{
    a_new_session_is_tied, a_session_stays_tied, a_session_stays_tied_to_a_table,
    numbers_stay_tied, tables_stay_sound, what_a_tie_tells, what_is_acknowledged_was_put,
};
pub use track_laws::{a_sound_world_is_on_track, a_world_stays_on_track};
pub use version_laws::sessions_keep_to_their_versions;
pub use way::Way;
pub use world::{World, run};
pub use world_laws::{a_sound_world_tells, a_world_stays_sound};
