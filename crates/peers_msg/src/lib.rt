//! The messages of HAProxy's peers protocol: their fields, their bytes, and the definitions that a stream carries.
#![tactic(auto)]

mod borrowed;
mod control;
mod decoder;
mod encoding;
mod fault;
mod fitting;
mod framing;
mod laws;
mod meaning;
mod message;
mod name_field;
mod name_field_ref;
mod own_tables;
mod reading;
mod received;
mod sizes;
mod unread;

pub use borrowed::{DefinitionRef, KeyRef, MessageRef, OtherRef, UpdateRef, ValuesRef};
pub use control::{Control, ErrorKind};
pub use decoder::Decoder;
pub use encoding::{append, append_update, encode};
pub use fault::{Breach, Fault};
pub use framing::split_message;
pub use laws::{
    any_calls, any_cutting, data_is_small, lists_are_read, no_prefix, one_list, one_message,
    one_outcome, read_is_spelled, reading_stays, spelled_is_read, tables_stay_distinct,
};
pub use meaning::Meaning;
pub use message::{Message, Other, UpdateMsg};
pub use name_field::NameField;
pub use name_field_ref::NameFieldRef;
pub use own_tables::is_own;
pub use reading::{
    Frame, bytes_at, frame_at, integer_at, name_at, named_at, optional_at, period_at,
};
pub use received::Received;
pub use sizes::{define_size, named_sizes, nameless_size, size, switch_size};
pub use unread::{Unread, front};
