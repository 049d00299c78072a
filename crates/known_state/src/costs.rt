//! What a batch requests from the dictionary, and at which costs.

ghost use Rattle.std.specs.Prelude.{◌≡◌, ◌≢◌, ◌≤◌, ◌+◌, ◌*◌, ◌++◌, [], true, length, IfErr, IfOk, OnOk};
ghost use Rattle.table_types.specs.Updates.{is_optional_word};
ghost use Rattle.table_types.specs.Batches.{IsBatchFor};
ghost use Rattle.known_state.specs.Cost.{full, knowledge_after, knowledge_of, number_sent, selection_cost, written_cost};
ghost use Rattle.known_state.specs.Knowing.{known_so_far};
ghost use Rattle.known_state.specs.Requests.{IsUpdateOf, asked, requests_of};

use crate::knowledge::KnowledgeSoFar;
use crate::known::Known;
use crate::request::Request;
use peers_msg::{define_size, named_sizes, nameless_size, switch_size};
use std::alloc::Global;
use table_types::{Batch, Memory, Roster, Update};

/// Returns the number that is sent with an update if its table's last number is `last`: `None` if it is one more,
/// modulo 2^32, which the learner derives by itself.
pub fn number_sent(last: Option<u32>, number: u32) -> Option<u32>
    ensures sent { result ≡ number_sent last number }
    ensures word { is_optional_word result ≡ true }
{
    match last {
        Some(last) if last.wrapping_add(1) == number => None,
        _ => Some(number),
    }
}

/// What a batch requests from the dictionary, and the size of its lesson with every name written.
#[derive(Debug, Drop)]
pub struct Costing {
    /// One request for each update that has a name, in order.
    pub requests: Vec<Request>,
    /// The size of the lesson with every name written, in bytes.
    pub full: usize,
}

/// Returns how many bytes it takes to select a table of the roster: none, those of a switch, or those of its
/// definition.
fn selection_cost(knowledge: &KnowledgeSoFar<'_>, roster: &Roster, id: u64) -> usize
    ensures exact { result ≡ selection_cost roster.now (known_so_far knowledge.now) id }
    ensures within { result ≤ 16396 }
{
    if knowledge.is_selected(id) {
        return 0;
    }
    if knowledge.is_defined(id) {
        return switch_size(id);
    }
    match roster.table(id) {
        Some(table) => define_size(table),
        None => 0,
    }
}

/// Adds the request of an update, if it has a name, and returns the size of its message with the name written.
fn add_update(
    alloc: Global,
    knowledge: &KnowledgeSoFar<'_>,
    roster: &Roster,
    update: &Update,
    requests: &mut Vec<Request>,
) -> Result<usize, Memory>
    requires { IsUpdateOf roster.now update.now }
    ensures size { IfOk result (λ size. size ≡ written_cost roster.now (known_so_far knowledge.now) update.now) }
    ensures requests { OnOk result (requests.new.items ≡ requests.old.items ++ asked roster.now (known_so_far knowledge.now) update.now update.now.name) }
    ensures within { IfOk result (λ size. size ≤ 32768) }
{
    let Some(table) = roster.table(update.table) else {
        unreachable!();
    };
    let _id = table.id();
    let number = number_sent(knowledge.last(update.table), update.number);
    let (life, key, values) = (update.life, &update.key, update.values.as_slice());
    let Some(name) = &update.name else {
        return Ok(nameless_size(number, life, key, values, table.stores_name()));
    };
    let (read, written) = named_sizes(number, life, key, values, name);
    match Request::new(name.copy(alloc)?, read as u32, written as u32) {
        Some(request) => requests.push(request)?,
        None => unreachable!(),
    }
    Ok(written)
}

/// Adds the request of one more update, if it has a name, and returns what the update costs with its name written.
fn add(
    alloc: Global,
    knowledge: &mut KnowledgeSoFar<'_>,
    roster: &Roster,
    update: &Update,
    requests: &mut Vec<Request>,
) -> Result<usize, Memory>
    requires { IsUpdateOf roster.now update.now }
    ensures cost { IfOk result (λ cost. cost ≡ selection_cost roster.now (known_so_far knowledge.old) update.now.table + written_cost roster.now (known_so_far knowledge.old) update.now) }
    ensures requests { OnOk result (requests.new.items ≡ requests.old.items ++ asked roster.now (known_so_far knowledge.old) update.now update.now.name) }
    ensures after { OnOk result (known_so_far knowledge.new ≡ knowledge_after (known_so_far knowledge.old) update.now) }
    ensures within { IfOk result (λ cost. cost ≤ 49164) }
{
    let selected = selection_cost(knowledge, roster, update.table);
    let written = add_update(alloc, knowledge, roster, update, requests)?;
    knowledge.follow(update)?;
    Ok(selected + written)
}

impl Known {
    /// Returns what the batch requests from the dictionary: one request for each update with a name, in order. Each
    /// message has the lesson's number form: no number if it is one more than its table's last, modulo 2^32, and its
    /// number otherwise.
    ///
    /// The batch was made for the roster of the known state.
    pub fn costs(&self, alloc: Global, batch: &Batch) -> Result<Vec<Request>, Memory>
        requires { IsBatchFor self.now.roster batch.now }
        ensures { IfOk result (λ requests. requests.items ≡ requests_of self.now.roster (knowledge_of self.now.state) batch.now) }
    {
        let costing = self.costing(alloc, batch)?;
        Ok(costing.requests)
    }

    /// Returns what the batch requests from the dictionary, as `costs` does, and the size of its lesson with every name
    /// written. Goes through the batch once. Allocates only if the batch has an update.
    ///
    /// The batch was made for the roster of the known state.
    pub fn costing(&self, alloc: Global, batch: &Batch) -> Result<Costing, Memory>
        requires { IsBatchFor self.now.roster batch.now }
        ensures requests { IfOk result (λ costing. costing.requests.items ≡ requests_of self.now.roster (knowledge_of self.now.state) batch.now) }
        ensures full { IfOk result (λ costing. costing.full ≡ full self.now.roster self.now.state batch.now) }
        ensures within { IfOk result (λ costing. costing.full ≤ 49164 * length batch.now) }
        ensures few { IfOk result (λ costing. length costing.requests.items ≤ length batch.now) }
        ensures memory { IfErr result (λ refused. batch.now ≢ []) }
    {
        let updates = batch.updates();
        let mut knowledge = KnowledgeSoFar::of(alloc, self);
        let mut requests = Vec::new(alloc);
        let mut full = 0;
        for update in updates {
            // There are at most 4,096 updates, and each costs fewer than 2^16 bytes.
            full += add(alloc, &mut knowledge, self.roster(), update, &mut requests)?;
        }
        Ok(Costing { requests, full })
    }
}
