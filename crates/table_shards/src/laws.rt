//! Laws of the definitions, whatever the program does.

ghost use Rattle.std.specs.Prelude.{◌≡◌, ◌≢◌, ◌≤◌, ◌<◌, ◌+◌, ◌-◌, ◌^◌, ◌∷◌, ◌++◌, [], ℕ, List, Ok, Option, Some, drop, length, sum_by};
ghost use Rattle.table_cell.specs.Histories.{CellState, Made, Slides, begun_anew, events_of};
ghost use Rattle.table_cell.specs.Renumbering.{Renumbers};
ghost use Rattle.table_cell.specs.declared.events.CellEvent.{CellEvent};
ghost use Rattle.table_cell.specs.declared.events.CellReply.{CellReply};
ghost use Rattle.table_shards.specs.declared.answers.Answered.{Answered};
ghost use Rattle.table_shards.specs.declared.errors.AuditError.{AuditError};
ghost use Rattle.table_shards.specs.declared.errors.AuditError.TheVariants as errors;
ghost use Rattle.table_shards.specs.Receipts.{ReceiptState, SeatState, all_receipts, forgotten, receipts_of, seen_of, with_answer, with_receipt};
ghost use Rattle.table_shards.specs.Roll.{AreSeats};
ghost use Rattle.table_shards.specs.Agreement.{Agree, IsEntry, OneOf, id_of};
ghost use Rattle.table_shards.specs.Audits.{Audits, UnlockedState};
ghost use Rattle.table_shards.specs.Holding.{MayCall, receipted};

/// Adding a receipt of a table to a seat appends it to the seat's receipts of the table, and the seat has then seen its
/// place. For other tables nothing changes.
pub fn one_receipt_more()
    ensures seen { (s : SeatState) (table : ℕ) (r : ReceiptState) → seen_of table (with_receipt s table r) ≡ r.place }
    ensures last { (s : SeatState) (table : ℕ) (r : ReceiptState) → receipts_of table (with_receipt s table r) ≡ receipts_of table s ++ r ∷ [] }
    ensures others { (s : SeatState) (table other : ℕ) (r : ReceiptState) → (table ≡ other → ⊥) →
        (seen_of other (with_receipt s table r) ≡ seen_of other s) × (receipts_of other (with_receipt s table r) ≡ receipts_of other s) }
{}

/// An answer changes the seat that keeps it, but not its number, its receipts or what it has seen.
pub fn an_answer_changes_the_seat()
    ensures changes { (s : SeatState) (answered : Answered) → with_answer s answered ≡ s → ⊥ }
    ensures number { (s : SeatState) (answered : Answered) → (with_answer s answered).number ≡ s.number }
    ensures receipts { (s : SeatState) (answered : Answered) (table : ℕ) → (receipts_of table (with_answer s answered) ≡ receipts_of table s)
        × (seen_of table (with_answer s answered) ≡ seen_of table s) }
{}

/// The receipt that a call of `held` adds is the new event of the table at its place, and that place is the number of events
/// that the table then has. It is above what the seat had seen of the table, and no call lowers what a seat has seen.
pub fn a_receipt_is_of_the_new_event()
    ensures entry { (c e : CellState) (event : CellEvent) (reply : CellReply) → c.slid ≤ length c.history → Made c event reply e →
        IsEntry e (record { place = events_of c + 1; event = event; reply = reply }) }
    ensures last { (c e : CellState) (event : CellEvent) (reply : CellReply) → Made c event reply e → events_of e ≡ events_of c + 1 }
    ensures above { (c : CellState) (s : SeatState) (table : ℕ) (event : CellEvent) (reply : CellReply) → MayCall table c s →
        seen_of table s < seen_of table (receipted table c s event reply) }
    ensures seen { (c : CellState) (s : SeatState) (table other : ℕ) (event : CellEvent) (reply : CellReply) → MayCall table c s →
        seen_of other s ≤ seen_of other (receipted table c s event reply) }
{}

/// If receipts agree with a table, there are as many of them as events after the first `began`, and none if there are
/// no more events than that.
pub fn as_many_receipts_as_events()
    ensures { (c : CellState) (began : ℕ) (seats : List SeatState) → Agree c began seats →
        length (all_receipts (id_of c) seats) ≡ events_of c - began }
{}

/// If receipts agree with the events of a round, what is added up over the receipts, event by event, is what is added up over the
/// history after the first `began` events. If the round began with the history, that is the whole of it.
pub fn receipts_are_the_events()
    ensures round { (c : CellState) (began : ℕ) (seats : List SeatState) (f : CellEvent → ℕ) → c.dropped ≤ began → Agree c began seats →
        sum_by (λ r. f r.event) (all_receipts (id_of c) seats) ≡ sum_by (λ h. f h.0) (drop (began - c.dropped) c.history) }
    ensures all { (c : CellState) (seats : List SeatState) (f : CellEvent → ℕ) → Agree c c.dropped seats →
        sum_by (λ r. f r.event) (all_receipts (id_of c) seats) ≡ sum_by (λ h. f h.0) c.history }
{}

/// If receipts agree with a table, it has dropped no event of the round. A slide, and beginning a history anew, drop all events so far,
/// and later events bring none of them back.
pub fn dropped_events_are_missed()
    ensures none { (c : CellState) (began : ℕ) (seats : List SeatState) → c.slid ≤ length c.history → Agree c began seats →
        c.dropped + c.slid ≤ began }
    ensures slide { (c e : CellState) (hs : List (CellEvent × CellReply)) → Slides c hs e → e.dropped + e.slid ≡ events_of c }
    ensures anew { (c : CellState) → (begun_anew c).dropped + (begun_anew c).slid ≡ events_of c }
    ensures later { (c e : CellState) (event : CellEvent) (reply : CellReply) → Made c event reply e →
        e.dropped + e.slid ≡ c.dropped + c.slid }
{}

/// A renewal of a table's numbers changes how many it counts, and no event, slide or history that begins anew does.
pub fn renewals_are_counted()
    ensures renewed { (c e : CellState) → c.renewals < 2 ^ 64 → Renumbers c (Ok tt) e → e.renewals ≢ c.renewals }
    ensures event { (c e : CellState) (event : CellEvent) (reply : CellReply) → Made c event reply e → e.renewals ≡ c.renewals }
    ensures slide { (c e : CellState) (hs : List (CellEvent × CellReply)) → Slides c hs e → e.renewals ≡ c.renewals }
    ensures anew { (c : CellState) → (begun_anew c).renewals ≡ c.renewals }
{}

/// Once a seat has forgotten receipts of a table with which all seats agreed, they no longer agree with it, also if each further
/// event adds a receipt.
pub fn forgotten_receipts_are_missed()
    ensures { (c e : CellState) (began more : ℕ) (before behind seats : List SeatState) (s : SeatState) →
        Agree c began (before ++ s ∷ behind) → receipts_of (id_of c) s ≢ [] → events_of e ≡ events_of c + more →
        length (all_receipts (id_of e) seats) ≡ length (all_receipts (id_of c) (before ++ forgotten (id_of c) s ∷ behind)) + more →
        Agree e began seats → ⊥ }
{}

/// An audit to which all seats come answers `Mismatch` if some table has dropped events of the round, if the rows of some table
/// got new numbers in the round, and if receipts don't agree with some table.
pub fn an_audit_finds_what_is_missed()
    ensures dropped { (u : UnlockedState) (seats : List SeatState) (r : Option AuditError) → Audits u seats r → AreSeats u.seats seats →
        OneOf (λ t. t.began < t.cell.dropped + t.cell.slid) u.tables → (table seat : ℕ) × (r ≡ Some (errors.Mismatch table seat)) }
    ensures renewed { (u : UnlockedState) (seats : List SeatState) (r : Option AuditError) → Audits u seats r → AreSeats u.seats seats →
        OneOf (λ t. t.cell.renewals ≢ t.renewals) u.tables → (table seat : ℕ) × (r ≡ Some (errors.Mismatch table seat)) }
    ensures apart { (u : UnlockedState) (seats : List SeatState) (r : Option AuditError) → Audits u seats r → AreSeats u.seats seats →
        OneOf (λ t. Agree t.cell t.began seats → ⊥) u.tables → (table seat : ℕ) × (r ≡ Some (errors.Mismatch table seat)) }
{}
