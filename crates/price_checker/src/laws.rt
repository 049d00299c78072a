//! What holds of verdicts, whatever the program does.

ghost use Rattle.std.specs.Prelude.{◌≡◌, ◌≢◌, ◌≤◌, ◌↔◌, ◌+◌, ℕ, List, length, None};
ghost use Rattle.table_types.specs.declared.update.Update.{Update};
ghost use Rattle.table_types.specs.Rosters.{roster_fault};
ghost use Rattle.table_types.specs.SlotIds.{slot_count};
ghost use Rattle.peers_msg.specs.declared.message.Message.{Message};
ghost use Rattle.peers_msg.specs.Spelling.{size_of_all, stream_of};
ghost use Rattle.known_state.specs.State.{State, Legal};
ghost use Rattle.known_state.specs.Cost.{full};
ghost use Rattle.known_state.specs.Plans.{Plan, Accepts, kept_savings, links, names_in};
ghost use Rattle.known_state.specs.Known.{KnownState, AreOwn};
ghost use Rattle.known_state.specs.Shortest.{Shortest};
ghost use Rattle.price_checker.specs.declared.verdict.Verdict.{Verdict};
ghost use Rattle.price_checker.specs.declared.verdict.Verdict.TheVariants as verdicts;
ghost use Rattle.price_checker.specs.Verdicts.{requests, Carries, Says, IsNotLegal, IsNotCarried};

/// A stream can be read in only one way, and a stream and prices have only one verdict.
pub fn one_verdict()
    ensures carries { (k : KnownState) (stream : List ℕ) (us vs : List Update) → Carries k stream us → Carries k stream vs → us ≡ vs }
    ensures says { (k : KnownState) (us : List Update) (stream prices : List ℕ) (one other : Verdict) →
        AreOwn k.roster k.state.received.tables → Says k us stream prices one → Says k us stream prices other → one ≡ other }
{}

/// The verdict says that a stream isn't legal if and only if it spells no legal list, and that it carries other updates
/// if and only if it is legal and does.
pub fn said_of_streams()
    ensures legal { (k : KnownState) (us : List Update) (stream prices : List ℕ) (verdict : Verdict) →
        AreOwn k.roster k.state.received.tables → Says k us stream prices verdict →
        IsNotLegal verdict ↔ ((carried : List Update) → Carries k stream carried → ⊥) }
    ensures carried { (k : KnownState) (us : List Update) (stream prices : List ℕ) (verdict : Verdict) →
        AreOwn k.roster k.state.received.tables → Says k us stream prices verdict →
        IsNotCarried verdict ↔ ((carried : List Update) × Carries k stream carried × (carried ≢ us)) }
{}

/// If the verdict is `Shortest`, no legal list that carries the batch is shorter.
pub fn shortest_is_said()
    ensures { (k : KnownState) (us : List Update) (stream prices : List ℕ) (bytes : ℕ) →
        roster_fault k.roster ≡ None → AreOwn k.roster k.state.received.tables → length k.state.slots ≡ slot_count →
        Says k us stream prices (verdicts.Shortest bytes) →
        (ms : List Message) × (stream ≡ stream_of ms) × (bytes ≡ length stream) × Shortest k us ms }
{}

/// A legal list that carries the batch, and saves what the links kept by an accepted plan save, gets the verdict
/// `Shortest` at the plan's prices.
pub fn accepted_is_said()
    ensures { (k : KnownState) (e : State) (ms : List Message) (us : List Update) (plan : Plan) →
        roster_fault k.roster ≡ None → AreOwn k.roster k.state.received.tables → length k.state.slots ≡ slot_count →
        Accepts slot_count (names_in k.state.slots) (requests k us) plan → Legal k.roster k.state ms us e →
        size_of_all ms + kept_savings (links (names_in k.state.slots) (requests k us) plan.keep) ≤ full k.roster k.state us →
        Says k us (stream_of ms) plan.prices (verdicts.Shortest (length (stream_of ms))) }
{}
