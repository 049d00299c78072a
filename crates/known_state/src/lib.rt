//! The state of one direction of a session, and the step that each message makes; what a teacher knows of its learner:
//! the roster, the tables defined, the one selected, the last numbers and the slots; and what a batch costs from such a
//! state.
#![tactic(auto)]

mod carried;
mod costs;
mod effect;
mod knowledge;
mod known;
mod last_numbers;
mod laws;
mod parts;
mod plan_laws;
mod plans;
mod request;
mod state;

pub use costs::{Costing, number_sent};
pub use effect::{Effect, Refusal, ResolvedUpdate, effects_are_steps};
pub use known::{Known, KnownError, StepError};
pub use last_numbers::LastNumbers;
pub use laws::{
    a_list_pays, a_step_pays, fewer_names_are_enough, full_adds_up, numbers_rise, one_lesson,
    one_name, one_step, reads_pay, refused_is_no_step, resuming_gives_back, steps_fit,
    what_is_built, what_is_known_is_enough,
};
pub use plan_laws::{
    accepted_is_shortest, accepted_plans_save_the_same, carried_is_of_the_roster,
    fitting_prices_are_tight, links_go_forward, names_to_keep, no_list_is_shorter,
    one_more_request, over_the_next_place, prices_add_up, reads_need_slots, reads_save_by_links,
    savings_are_bounded, slots_stay, tight_is_shortest,
};
pub use plans::Plan;
pub use request::Request;
pub use state::State;
