//! The directions of a connection.

/// The direction in which the bytes of a pipe go.
#[derive(Clone, Copy, Debug, PartialEq, Eq)]
pub enum Way {
    /// Lessons, from the teacher to the learner.
    ToLearner,
    /// Acknowledgements, from the learner to the teacher.
    ToTeacher,
}
