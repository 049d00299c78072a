//! Reading messages from left to right, up to the first breach. A reader returns what it read and the bytes after it.
//! Readers copy nothing and don't allocate.

mod definitions;
mod fields;
mod messages;
mod updates;

pub use definitions::{named_at, period_at};
pub use fields::{bytes_at, integer_at};
pub(crate) use messages::message_at;
pub use messages::{Frame, frame_at};
pub(crate) use updates::{is_name_shape, value_at};
pub use updates::{name_at, optional_at};
