//! The verdict on a stream and its prices.

ghost use Rattle.std.specs.Prelude.{◌≡◌, ◌≢◌, ◌≤◌, ◌^◌, ◌↔◌, ◌⊎◌, ℕ, List, [], length, IfErr, IfOk};
ghost use Rattle.std.specs.List.{AllByRecursion};
ghost use Rattle.table_types.specs.Batches.{IsBatchFor};
ghost use Rattle.table_types.specs.declared.update.Update.{Update};
ghost use Rattle.table_types.specs.SlotIds.{slot_count};
ghost use Rattle.peers_msg.specs.declared.message.Message.{Message};
ghost use Rattle.peers_msg.specs.Spelling.{stream_of};
ghost use Rattle.known_state.specs.Known.{KnownState};
ghost use Rattle.known_state.specs.Cost.{full};
ghost use Rattle.known_state.specs.Plans.{all_links, bound, names_in};
ghost use Rattle.known_state.specs.Shortest.{Shortest};
ghost use Rattle.price_checker.specs.declared.verdict.Verdict.{Verdict};
ghost use Rattle.price_checker.specs.declared.verdict.Verdict.TheVariants as verdicts;
ghost use Rattle.price_checker.specs.NamedUpdates.{named_count};
ghost use Rattle.price_checker.specs.Verdicts.{requests, BeginsUnrefused, Carries, Says, Show, IsNotLegal, IsNotCarried};

use crate::bound::bound;
use crate::comparison::Comparison;
use crate::links::MOST_REQUESTS;
use crate::names_held::Held;
use crate::plan_check::are_prices;
use crate::reading::{Reading, read};
use crate::search::find_links;
use crate::verdict::Verdict;
use dict_slots::Slots;
use known_state::{Costing, Known, Request};
use std::alloc::Global;
use table_types::{Batch, Memory, SLOT_COUNT, Update};

/// Returns how many bytes reads can save at most in 128 slots, as `prices` prove.
fn bound_shown(slots: &Slots, requests: &[Request], prices: &[u64]) -> u64
    requires requests { length requests.now ≤ 4096 }
    requires prices { (length prices.now ≡ length requests.now) × AllByRecursion (λ price. price ≤ 2 ^ 32) prices.now }
    ensures { result ≡ bound slot_count (all_links (names_in slots.now) requests.now) prices.now }
{
    let all = [true; MOST_REQUESTS];
    let (links, _) = find_links(Held::Slots(slots), requests, &all[..requests.len()]);
    bound(SLOT_COUNT, links.as_slice(), prices)
}

/// Returns how many of the updates have a name.
fn named_count(updates: &[Update]) -> usize
    ensures count { result ≡ named_count updates.now }
{
    let mut count = 0;
    for update in updates {
        if update.name.is_some() {
            count += 1;
        }
    }
    count
}

/// Returns what prices, one for each request, prove of a lesson of `size` bytes, for a batch with this costing from a
/// state with these slots.
fn shown_by_bound(slots: &Slots, costing: &Costing, size: usize, prices: &[u64]) -> Verdict
    requires few { length costing.now.requests.items ≤ 4096 }
    requires prices { (length prices.now ≡ length costing.now.requests.items) × AllByRecursion (λ price. price ≤ 2 ^ 32) prices.now }
    ensures { (k : KnownState) (us : List Update) → k.state.slots ≡ slots.now → costing.now.requests.items ≡ requests k us →
        costing.now.full ≡ full k.roster k.state us → Show k us prices.now size result }
{
    let bound = bound_shown(slots, costing.requests.as_slice(), prices);
    match costing.full.checked_sub(size) {
        Some(saved) if saved as u64 == bound => Verdict::Shortest(size),
        Some(saved) => Verdict::Gap {
            saved: saved as u64,
            bound,
        },
        None => Verdict::Gap { saved: 0, bound },
    }
}

/// Returns what the prices prove of a lesson of `size` bytes. Allocates only for the requests, and so only if the batch
/// has an update.
fn shown(
    alloc: Global,
    known: &Known,
    batch: &Batch,
    size: usize,
    prices: &[u64],
) -> Result<Verdict, Memory>
    requires { IsBatchFor known.now.roster batch.now }
    ensures shown { IfOk result (λ verdict. Show known.now batch.now prices.now size verdict) }
    ensures memory { IfErr result (λ refused. batch.now ≢ []) }
{
    if prices.len() != named_count(batch.updates()) {
        return Ok(Verdict::PriceCount);
    }
    if !are_prices(prices) {
        return Ok(Verdict::PriceRange);
    }
    let costing = known.costing(alloc, batch)?;
    Ok(shown_by_bound(known.slots(), &costing, size, prices))
}

/// Returns the verdict on the stream and the prices. Allocates only to read the stream, and for the requests of updates
/// that it carries.
fn said(
    alloc: Global,
    known: &Known,
    batch: &Batch,
    stream: &[u8],
    prices: &[u64],
) -> Result<Verdict, Memory>
    requires { IsBatchFor known.now.roster batch.now }
    ensures says { IfOk result (λ verdict. Says known.now batch.now stream.now prices.now verdict) }
    ensures memory { IfErr result (λ refused. BeginsUnrefused known.now stream.now
        ⊎ (Carries known.now stream.now batch.now × (batch.now ≢ []))) }
{
    let updates = batch.updates();
    match read(alloc, known, updates, stream)? {
        Reading::Illegal(illegal, place) => Ok(Verdict::NotLegal(illegal, place)),
        Reading::Legal(Comparison::Apart(index)) => Ok(Verdict::NotCarried(index)),
        Reading::Legal(Comparison::Same(count)) if count < updates.len() => {
            Ok(Verdict::NotCarried(count))
        }
        Reading::Legal(Comparison::Same(_)) => shown(alloc, known, batch, stream.len(), prices),
    }
}

/// Checks a stream that is to teach the batch to a learner in the known state, and the prices, one for each of the
/// batch's requests. Returns whether the stream is legal, whether it carries the batch, and whether the prices prove
/// that no legal stream that carries it is shorter. Trusts nothing about how they were made.
///
/// The batch was made for the roster of the known state. The messages are read one after another, and each is compared
/// with the batch. Allocates for a copy of the known state, the current message and the requests of a batch that the
/// stream carries, and so only if a whole message is at the front of the stream: a definition, or a message that the
/// known state doesn't refuse.
pub fn verify(
    alloc: Global,
    known: &Known,
    batch: &Batch,
    stream: &[u8],
    prices: &[u64],
) -> Result<Verdict, Memory>
    requires { IsBatchFor known.now.roster batch.now }
    ensures says { IfOk result (λ verdict. Says known.now batch.now stream.now prices.now verdict) }
    ensures exactly { IfOk result (λ verdict. (other : Verdict) → Says known.now batch.now stream.now prices.now other → verdict ≡ other) }
    ensures legal { IfOk result (λ verdict. IsNotLegal verdict ↔ ((carried : List Update) → Carries known.now stream.now carried → ⊥)) }
    ensures carried { IfOk result (λ verdict. IsNotCarried verdict ↔ ((carried : List Update) × Carries known.now stream.now carried × (carried ≢ batch.now))) }
    ensures shortest { IfOk result (λ verdict. (bytes : ℕ) → verdict ≡ verdicts.Shortest bytes →
        (ms : List Message) × (stream.now ≡ stream_of ms) × (bytes ≡ length stream.now) × Shortest known.now batch.now ms) }
    ensures memory { IfErr result (λ refused. BeginsUnrefused known.now stream.now) }
{
    // These calls serve their clauses alone: they say that the roster is sound and that there are 128 slots, which
    // `shortest` needs.
    let _tables = known.roster().tables();
    let _slots = known.slots().len();
    said(alloc, known, batch, stream, prices)
}
