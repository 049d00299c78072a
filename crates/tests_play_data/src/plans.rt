//! Plans: which are accepted and at which prices, and which requests `plan` and `plan_by_cycles` keep.

use crate::parts::named;
use known_state::{Plan, Request};
use price_checker::check_plan;
use retention_flow::PlanError;
use std::alloc::Global;
use table_types::{Batch, Name};

/// How many slots there are, the names that they hold at the start, and requests with the costs of their writes. A read costs 20.
/// A name is one letter.
pub struct Case {
    pub slots: usize,
    pub held: &'static [u8],
    pub asked: &'static [(u8, u32)],
}

/// How many marks a plan has, the places of the requests that it keeps, from 1, its prices, and whether it is accepted.
pub type Judged = (usize, &'static [usize], &'static [u64], bool);

/// A case, plans of it, and the places of the requests that both planners keep.
pub struct Story {
    pub case: Case,
    pub plans: &'static [Judged],
    pub kept: &'static [usize],
}

/// The names and the requests of a case.
#[derive(Drop)]
pub(crate) struct Requested {
    pub(crate) held: Vec<Name>,
    pub(crate) requests: Vec<Request>,
}

fn names(alloc: Global, letters: &[u8]) -> Option<Vec<Name>> {
    let mut names = Vec::new(alloc);
    for letter in letters {
        names.push(named(alloc, &[*letter])?).ok()?;
    }
    Some(names)
}

fn requests(alloc: Global, asked: &[(u8, u32)]) -> Option<Vec<Request>> {
    let mut requests = Vec::new(alloc);
    for (letter, write_cost) in asked {
        let request = Request::new(named(alloc, &[*letter])?, 20, *write_cost)?;
        requests.push(request).ok()?;
    }
    Some(requests)
}

/// Makes a plan of `marks` marks that keeps the requests at the places `kept`, at these prices.
fn plan(alloc: Global, marks: usize, kept: &[usize], prices: &[u64]) -> Option<Plan> {
    let mut keep = Vec::new(alloc);
    for place in 0..marks {
        keep.push(kept.contains(&(place + 1))).ok()?;
    }
    Some(Plan::new(keep, Vec::from_slice(alloc, prices).ok()?))
}

/// Returns whether the plan keeps the requests at the places `kept` and no other.
fn keeps(plan: &Plan, kept: &[usize]) -> bool {
    for (index, keep) in plan.keep().iter().enumerate() {
        if *keep != kept.contains(&(index + 1)) {
            return false;
        }
    }
    true
}

pub(crate) fn asked(alloc: Global, case: &Case) -> Option<Requested> {
    let held = names(alloc, case.held)?;
    let requests = requests(alloc, case.asked)?;
    Some(Requested { held, requests })
}

/// Returns whether the checker accepts `plan`.
pub(crate) fn is_accepted(slots: usize, asked: &Requested, plan: &Plan) -> Option<bool> {
    let (held, requests) = (asked.held.as_slice(), asked.requests.as_slice());
    if slots < 1 || slots > 128 || held.len() > slots || requests.len() > Batch::MOST {
        return None;
    }
    Some(check_plan(slots, held, requests, plan))
}

/// Returns the plan that `plan` makes.
pub(crate) fn planned(alloc: Global, slots: usize, asked: &Requested) -> Result<Plan, PlanError> {
    let (held, requests) = (asked.held.as_slice(), asked.requests.as_slice());
    if slots < 1 || slots > 128 || held.len() > slots || requests.len() > Batch::MOST {
        return Err(PlanError::Memory);
    }
    retention_flow::plan(alloc, slots, held, requests)
}

/// Returns the plan that `plan_by_cycles` makes.
fn planned_by_cycles(alloc: Global, slots: usize, asked: &Requested) -> Result<Plan, PlanError> {
    let (held, requests) = (asked.held.as_slice(), asked.requests.as_slice());
    if slots < 1 || slots > 128 || held.len() > slots || requests.len() > Batch::MOST {
        return Err(PlanError::Memory);
    }
    retention_flow::plan_by_cycles(alloc, slots, held, requests)
}

/// Returns whether the checker accepts the plan or refuses it as `judged` says.
fn is_judged(alloc: Global, slots: usize, asked: &Requested, judged: &Judged) -> Option<bool> {
    let (marks, kept, prices, accepted) = judged;
    let plan = plan(alloc, *marks, *kept, *prices)?;
    Some(is_accepted(slots, asked, &plan)? == *accepted)
}

/// Returns whether the plan keeps the requests at the places `kept`, and the checker accepts it.
fn is_right(slots: usize, asked: &Requested, kept: &[usize], plan: &Plan) -> Option<bool> {
    Some(keeps(plan, kept) && is_accepted(slots, asked, plan)?)
}

/// Returns whether both planners keep the requests at the places `kept`, and the checker accepts their plans.
fn is_planned(alloc: Global, slots: usize, asked: &Requested, kept: &[usize]) -> Option<bool> {
    let made = planned(alloc, slots, asked).ok()?;
    let by_cycles = planned_by_cycles(alloc, slots, asked).ok()?;
    Some(is_right(slots, asked, kept, &made)? && is_right(slots, asked, kept, &by_cycles)?)
}

/// Returns the index of the first plan that is judged differently, or the number of plans if a planner keeps other requests, or
/// the checker refuses its plan.
fn failing_plan(alloc: Global, story: &Story, asked: &Requested) -> Option<usize> {
    let slots = story.case.slots;
    for (place, judged) in story.plans.iter().enumerate() {
        if is_judged(alloc, slots, asked, judged) != Some(true) {
            return Some(place);
        }
    }
    if is_planned(alloc, slots, asked, story.kept) == Some(true) {
        None
    } else {
        Some(story.plans.len())
    }
}

fn failing(alloc: Global, story: &Story) -> Option<usize> {
    match asked(alloc, &story.case) {
        Some(asked) => failing_plan(alloc, story, &asked),
        None => Some(0),
    }
}

/// Returns the index of the first story that fails, and the index of its plan that does: the number of its plans
/// stands for those of the planners.
pub fn first_failing(alloc: Global, stories: &[Story]) -> Option<(usize, usize)> {
    for (place, story) in stories.iter().enumerate() {
        if let Some(plan) = failing(alloc, story) {
            return Some((place, plan));
        }
    }
    None
}

/// Returns how many bytes the requests save that the plan keeps.
pub(crate) fn saved_by(plan: &Plan, asked: &Requested) -> u64 {
    let mut saved: u64 = 0;
    for (keep, request) in plan.keep().iter().zip(asked.requests.as_slice()) {
        if *keep {
            let saving = request.write_cost().saturating_sub(request.read_cost());
            saved = saved.saturating_add(u64::from(saving));
        }
    }
    saved
}
