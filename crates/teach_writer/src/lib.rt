//! Lessons: the stream that teaches a learner one batch.
#![tactic(auto)]

mod held_names;
mod laws;
mod lesson;
mod next_requests;
mod pieces;
mod planned;
mod planned_name;
mod retained;
mod sending;
mod teaching;

pub use laws::{
    a_lesson_of_the_same_bytes_is_shortest, a_plan_has_one_lesson, lessons_append, marks_are_reads,
    names_may_all_be_written, pieces_joined_are_the_lesson,
};
pub use lesson::{Lesson, TeachError};
pub use pieces::Pieces;
pub use teaching::{joined, teach};
