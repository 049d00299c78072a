//! The text that the program reads and prints: scenes and scripts as they are read, and lessons, verdicts, rows, updates,
//! acknowledgements, events, replies and refusals as they are printed. Each form stands in one module, in both directions.
#![tactic(auto)]

mod acks;
mod bytes;
mod calls;
mod changes;
mod copies;
mod error;
mod events;
mod keys;
mod laws;
mod lessons;
mod limits;
mod lines;
mod names;
mod numbers;
mod refusals;
mod replies;
mod rows;
mod scene_lines;
mod scenes;
mod script_tables;
mod scripts;
mod tables;
mod updates;
mod values;
mod verdicts;
mod versions;
mod words;
mod world_lines;
mod worlds;

pub use acks::push_acks;
pub use bytes::push_hexadecimal;
pub use calls::{Call, any_key_of};
pub use changes::change_of;
pub use error::{LineError, SceneError};
pub use events::push_event;
pub use keys::push_key;
pub use laws::printed_is_read;
pub use lessons::printed_lesson;
pub use limits::{push_within, set_once};
pub use lines::{LineReader, read_lines};
pub use names::{name, push_stored_name};
pub use numbers::{number, number_from_one, push_number, push_word_and_number};
pub use refusals::{
    ack_refusal, checkpoint_refusal, close_refusal, copy_refusal, learn_refusal, open_refusal,
    purge_refusal, renumber_refusal, track_refusal,
};
pub use replies::{push_event_reply, push_reply, settled_name};
pub use rows::{push_row, push_stored_row};
pub use scenes::{Scene, read_scene};
pub use script_tables::ScriptTable;
pub use scripts::{Script, read_script};
pub use tables::{are_alike, table_of};
pub use updates::push_update;
pub use verdicts::printed_verdict;
pub use words::{cut, is_text, words_of};
pub use world_lines::{WorldLine, WorldQuestion, WorldStep};
pub use worlds::{WorldScript, read_world};
