//! The meanings of the pairs of class and type.

use crate::control::{Control, ErrorKind};

/// The meaning of a pair of class and type (HAProxy, doc/peers-v2.0.txt, "Messages").
#[derive(Clone, Copy)]
pub enum Meaning {
    /// Class 0, types 0 to 4.
    Control(Control),
    /// Class 1, types 0 and 1.
    Error(ErrorKind),
    /// Class 10, type 130.
    Define,
    /// Class 10, type 131.
    Switch,
    /// Class 10, type 132.
    Ack,
    /// Class 10, types 128, 129, 133 and 134.
    Update {
        /// The update has a number: types 128 and 133.
        numbered: bool,
        /// The update has a life: types 133 and 134.
        timed: bool,
    },
    /// Any other pair.
    Other,
}
