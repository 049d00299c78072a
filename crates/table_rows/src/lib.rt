//! The rows of a stick table by key, the collections that hold them, and the order in which rows end.
#![tactic(auto)]

mod list_rows;
mod map_rows;
mod row_end;
mod rows;

pub use list_rows::ListRows;
pub use map_rows::MapRows;
pub use row_end::RowEnd;
pub use rows::{Rows, is_live};
