//! What holds of the definitions, whatever the program does.

ghost use Rattle.std.specs.Prelude.{◌≡◌, ◌≢◌, ◌⊎◌, ◌↔◌, ◌<◌, ◌-◌, ◌++◌, ℕ, List, [], Result, Ok, Err, Option, Some, None, false, length};
ghost use Rattle.table_types.specs.Tables.{Definition};
ghost use Rattle.table_types.specs.Rosters.{roster_fault};
ghost use Rattle.peers_msg.specs.Integers.{IsBytes};
ghost use Rattle.peers_msg.specs.declared.fault.Breach.TheVariants.{SizeLimit};
ghost use Rattle.peers_msg.specs.declared.name_field.NameField.TheVariants as names;
ghost use Rattle.dict_slots.specs.Slots.{slot_at};
ghost use Rattle.learner.specs.declared.fault.Fault.{Fault};
ghost use Rattle.learner.specs.declared.fault.Fault.TheVariants as faults;
ghost use Rattle.learner.specs.declared.taken.Taken.{Taken};
ghost use Rattle.learner.specs.LocalTables.{local_id, local_table};
ghost use Rattle.learner.specs.Intake.{Taking, IntakeNext, ack_of, fed, shut};
ghost use Rattle.tolerant_intake.specs.declared.loose_table.LooseTable.{LooseTable};
ghost use Rattle.tolerant_intake.specs.Loose.{LooseDefinition, LooseUpdate};
ghost use Rattle.tolerant_intake.specs.StandIns.{stand_in};
ghost use Rattle.tolerant_intake.specs.Tolerance.{Tolerance, loose_at};
ghost use Rattle.tolerant_intake.specs.Policy.{StandsIn, IsFurther, passage_of};
ghost use Rattle.tolerant_intake.specs.Reading.{AreRead, IsLast, Reads, begun, tolerating};
ghost use Rattle.tolerant_intake.specs.Agreement.{AreApart, AreReadToo, IsListed, IsLoose, IsPassable};

/// As long as no table is outside the profile, a tolerant reader does what the strict intake does: it waits where that waits,
/// and what that takes is taken, with the same answer and the same state, and nothing counts as passed over. At a fault of the
/// strict intake it stops with that same fault, or passes over just this message, by the rule that is listed for the fault;
/// then it is the same again, unless the message was a definition. It passes over each update that reads an empty slot; one
/// with a value out of its range exactly if the update can be read loosely to its end, has a number and writes no name; and a
/// definition exactly if its id, name and four integers can be read. Only at a definition of a further id, once 1,024 ids
/// stand for tables, does it stop with `SizeLimit` instead.
pub fn agrees()
    ensures waits { (l : Tolerance) (t e : Taking) → l.loose ≡ [] → IntakeNext t (Ok None) e → Reads (Some l) t (Ok None) e (Some l) }
    ensures takes { (l : Tolerance) (t e : Taking) (answer : Taken) → l.loose ≡ [] → IntakeNext t (Ok (Some answer)) e →
        Reads (Some l) t (Ok (Some answer)) e (Some l) ⊎ IsFurther t }
    ensures messages { (answers : List Taken) (l : Tolerance) (t e : Taking) → l.loose ≡ [] → AreRead None t answers e None → AreReadToo l t answers e }
    ensures stops { (l : Tolerance) (t e : Taking) (fault : Fault) → l.loose ≡ [] → fault ≢ faults.Memory → IntakeNext t (Err fault) e →
        Reads (Some l) t (Err fault) e (Some l) ⊎ IsListed t fault (passage_of l t) }
    ensures passes { (l : Tolerance) (t e : Taking) (fault : Fault) → l.loose ≡ [] → IntakeNext t (Err fault) e → IsListed t fault (passage_of l t) ↔ IsPassable fault t }
    ensures again { (l left : Tolerance) (t e : Taking) (answer : Taken) → l.loose ≡ [] → Reads (Some l) t (Ok (Some answer)) e (Some left) →
        (left.loose ≡ []) ⊎ ((d : LooseDefinition) × (passage_of l t ≡ StandsIn d)) }
    ensures further { (l : Tolerance) (t : Taking) → l.loose ≡ [] → t.closed ≡ false → IsFurther t → Reads (Some l) t (Err (faults.Breach SizeLimit)) (shut t) (Some l) }
{}

/// However a stream is cut into pieces, a reader reads the same: what it reads of some bytes it reads with more bytes after
/// them too, what it reads of two pieces one after the other it reads of the joined ones, and up to an end it reads only these
/// messages. So it is the same end, and the reader is then the same.
pub fn any_cutting()
    ensures more { (answers : List Taken) (l : Option Tolerance) (t e : Taking) (more : List ℕ) (after : Option Tolerance) →
        IsBytes t.unread → AreRead l t answers e after → AreRead l (fed t more) answers (fed e more) after }
    ensures two { (l : Option Tolerance) (t mid e : Taking) (between after : Option Tolerance) (a b : List ℕ) (answers others : List Taken) →
        IsBytes (t.unread ++ (a ++ b)) → AreRead l (fed t a) answers mid between → AreRead between (fed mid b) others e after → AreRead l (fed t (a ++ b)) (answers ++ others) e after }
    ensures same { (answers others : List Taken) (l : Option Tolerance) (t a b e f : Taking) (x y after then : Option Tolerance) (one other : Result (Option Taken) Fault) →
        AreRead l t answers a x → AreRead l t others b y → Reads x a one e after → Reads y b other f then → IsLast one → IsLast other →
        (answers ≡ others) × (one ≡ other) × (e ≡ f) × (after ≡ then) }
{}

/// A message that is read, or at which the reader stops, is so with more bytes after it.
pub fn more_bytes_change_nothing()
    ensures reads { (l : Option Tolerance) (t e : Taking) (answer : Taken) (more : List ℕ) (after : Option Tolerance) →
        IsBytes t.unread → Reads l t (Ok (Some answer)) e after → Reads l (fed t more) (Ok (Some answer)) (fed e more) after }
    ensures stops { (l : Option Tolerance) (t e : Taking) (fault : Fault) (more : List ℕ) (after : Option Tolerance) →
        IsBytes t.unread → fault ≢ faults.Memory → Reads l t (Err fault) e after → (x : Taking) × Reads l (fed t more) (Err fault) x after }
{}

/// A reader has only one answer, and is then left in only one way, unless memory runs out; then nothing changes.
pub fn one_answer()
    ensures memory { (l : Option Tolerance) (t e : Taking) (after : Option Tolerance) → Reads l t (Err faults.Memory) e after → (e ≡ t) × (after ≡ l) }
    ensures once { (l : Option Tolerance) (t a b : Taking) (one other : Result (Option Taken) Fault) (x y : Option Tolerance) →
        Reads l t one a x → Reads l t other b y → one ≢ Err faults.Memory → other ≢ Err faults.Memory → (one ≡ other) × (a ≡ b) × (x ≡ y) }
{}

/// Which ids are due makes no difference to what a reader answers.
pub fn due_ids_change_nothing()
    ensures { (l : Option Tolerance) (t e : Taking) (due : List ℕ) (answer : Result (Option Taken) Fault) (after : Option Tolerance) →
        Reads l t answer e after → (x : List ℕ) × Reads l (record t { due = due }) answer (record e { due = x }) after }
{}

/// A reader always has an answer for which memory suffices: it waits for more bytes, reads a message and has fewer bytes left,
/// or stops at a fault.
pub fn always_an_answer()
    ensures { (l : Option Tolerance) (t : Taking) → IsBytes t.unread →
        Reads l t (Ok None) t l
        ⊎ (((answer : Taken) × (e : Taking) × (after : Option Tolerance) × Reads l t (Ok (Some answer)) e after × (length e.unread < length t.unread) × IsBytes e.unread)
        ⊎ ((fault : Fault) × (e : Taking) × (after : Option Tolerance) × (fault ≢ faults.Memory) × Reads l t (Err fault) e after)) }
{}

/// A name that an update of a table outside the profile writes is then in its slot, from which any table's updates may read
/// it.
pub fn names_arrive()
    ensures { (l : Tolerance) (t e : Taking) (answer : Taken) (after : Option Tolerance) (u : LooseUpdate) (slot : ℕ) (name : List ℕ) →
        t.closed ≡ false → IsLoose l t u → u.name ≡ names.Written slot name → slot - 1 < length t.state.slots →
        Reads (Some l) t (Ok (Some answer)) e after → slot_at e.state.slots slot ≡ Some name }
{}

/// A definition that stands in for one outside the profile is no local table, so no row comes of its updates, and none of them
/// is acknowledged.
pub fn stand_ins_are_others()
    ensures shape { (roster : List Definition) (d : LooseDefinition) → roster_fault roster ≡ None → local_table roster (stand_in roster d) ≡ None }
    ensures defined { (l : Tolerance) (t e : Taking) (answer : Taken) (after : Option Tolerance) (d : LooseDefinition) →
        roster_fault t.roster ≡ None → passage_of l t ≡ StandsIn d → Reads (Some l) t (Ok (Some answer)) e after →
        (e.state.received.selected ≡ Some d.id) × (local_id e.roster e.state.received d.id ≡ None) × (ack_of e d.id ≡ None) }
{}

/// Each table outside the profile stays apart from the local tables: its id stands for one that is no local table, so it isn't
/// acknowledged. So it is of a tolerant reader that was fed nothing, and so it stays when bytes are fed and when a message is
/// read; the roster stays too.
pub fn stand_ins_stay()
    ensures begun { (roster : List Definition) → AreApart (tolerating (begun roster)).tolerance (begun roster).intake }
    ensures fed { (l : Option Tolerance) (t : Taking) (piece : List ℕ) → AreApart l t → AreApart l (fed t piece) }
    ensures reads { (l after : Option Tolerance) (t e : Taking) (answer : Taken) →
        roster_fault t.roster ≡ None → AreApart l t → Reads l t (Ok (Some answer)) e after → (e.roster ≡ t.roster) × AreApart after e }
    ensures acks { (l : Tolerance) (t : Taking) (id : ℕ) (table : LooseTable) → AreApart (Some l) t → loose_at l.loose id ≡ Some table →
        (local_id t.roster t.state.received id ≡ None) × (ack_of t id ≡ None) }
{}
