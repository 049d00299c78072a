//! The progress of sessions with a table.

use table_types::Version;

/// The progress of a session with a table. It begins at 0 and 0; what is above the number acknowledged is still to be
/// taught. Its bound and its version stay as long as the session is open.
#[derive(Clone, Copy, Debug)]
pub struct Progress {
    /// The number up to which the session's learner has acknowledged.
    pub acknowledged: u32,
    /// The last number taught. A batch is out while this is above the number acknowledged.
    pub taught: u32,
    /// The last number that the table had assigned when the session was opened, up to which a standing resync copies.
    pub bound: u32,
    /// The version of the protocol that the session speaks: the updates of its copies have a life only in 2.1.
    pub version: Version,
}
