//! What holds of known states, whatever the program does.

ghost use Rattle.std.specs.Prelude.{◌≡◌, ◌≤◌, ◌+◌, ◌++◌, ℕ, true, false, List, length, map, fold, None, Option, if◌then◌else◌};
ghost use Rattle.std.specs.List.{AllByRecursion};
ghost use Rattle.table_types.specs.declared.update.Update.{Update};
ghost use Rattle.table_types.specs.Rosters.{roster_fault, table_at};
ghost use Rattle.table_types.specs.SlotIds.{slot_count};
ghost use Rattle.table_types.specs.Tables.{Definition};
ghost use Rattle.peers_msg.specs.declared.message.Message.{Message};
ghost use Rattle.peers_msg.specs.Spelling.{stream_of, size_of_all};
ghost use Rattle.peers_msg.specs.Stream.{AllFit};
ghost use Rattle.peers_msg.specs.Received.{AreDistinct, received_after, resumed};
ghost use Rattle.peers_msg.specs.declared.name_field.NameField.{NameField};
ghost use Rattle.known_state.specs.State.{State, Step, Teaches, Named, IsOwn, Legal, fresh, reads_empty, name_of, slots_after};
ghost use Rattle.known_state.specs.LastNumbers.{last_of, AreRising};
ghost use Rattle.known_state.specs.declared.known.StepError.{StepError};
ghost use Rattle.known_state.specs.Known.{KnownState, AreOwn, build_fault, built, is_in, Refuses, known_of, without_names};
ghost use Rattle.known_state.specs.FewerNames.{LacksNames};
ghost use Rattle.known_state.specs.Requests.{read_savings, reads_of, requests_of};
ghost use Rattle.known_state.specs.Cost.{IsOfRoster, Knowledge, Pays, Saves, cost, full, knowledge_of};
ghost use Rattle.known_state.specs.Shortest.{Shortest};

/// From one state, a message carries one list of updates and leads to one state.
pub fn one_step()
    ensures { (s a b : State) (m : Message) (us vs : List Update) → Step s m us a → Step s m vs b → (us ≡ vs) × (a ≡ b) }
{}

/// From one state, messages carry one list of updates and lead to one state.
pub fn one_lesson()
    ensures { (s a b : State) (ms : List Message) (us vs : List Update) → Teaches s ms us a → Teaches s ms vs b → (us ≡ vs) × (a ≡ b) }
{}

/// A name field names an update if and only if it doesn't read an empty slot; the name and the slots afterwards are
/// then unique.
pub fn one_name()
    ensures names { (slots : List (Option (List ℕ))) (field : NameField) → reads_empty slots field ≡ false →
        Named slots field (name_of slots field) (slots_after slots field) }
    ensures only { (slots : List (Option (List ℕ))) (field : NameField) (name : Option (List ℕ))
        (after : List (Option (List ℕ))) → Named slots field name after →
        (reads_empty slots field ≡ false) × (name ≡ name_of slots field) × (after ≡ slots_after slots field) }
{}

/// The contents of a built state, if no part is at fault. An id is defined if and only if it was given, and then it
/// stands for the roster's definition; the last number of an id, the selected table and the slots are those given.
pub fn what_is_built()
    ensures tables { (roster : List Definition) (selected : Option ℕ) (defined : List ℕ) (last_numbers : List (ℕ × ℕ)) (slots : List (Option (List ℕ))) (id : ℕ) →
        roster_fault roster ≡ None → build_fault roster selected defined last_numbers ≡ None →
        table_at (built roster selected defined last_numbers slots).state.received.tables id ≡ (if is_in id defined then table_at roster id else None) }
    ensures last_numbers { (roster : List Definition) (selected : Option ℕ) (defined : List ℕ) (last_numbers : List (ℕ × ℕ)) (slots : List (Option (List ℕ))) (id : ℕ) →
        build_fault roster selected defined last_numbers ≡ None →
        last_of (built roster selected defined last_numbers slots).state.last_numbers id ≡ last_of last_numbers id }
    ensures others { (roster : List Definition) (selected : Option ℕ) (defined : List ℕ) (last_numbers : List (ℕ × ℕ)) (slots : List (Option (List ℕ))) →
        ((built roster selected defined last_numbers slots).state.received.selected ≡ selected)
        × ((built roster selected defined last_numbers slots).state.slots ≡ slots)
        × ((built roster selected defined last_numbers slots).roster ≡ roster) }
{}

/// A refused message is no step: a message that a known state refuses for any cause but memory isn't legal there.
pub fn refused_is_no_step()
    ensures { (k : KnownState) (m : Message) (e : StepError) (us : List Update) (after : State) →
        AreOwn k.roster k.state.received.tables → Refuses k m e → IsOwn k.roster m → Step k.state m us after → ⊥ }
{}

/// The size of the lesson with every name written is the sum of what its updates cost one after another, given what is
/// known after the earlier ones: the selection of the table, and the update with its name written.
pub fn full_adds_up()
    ensures { (roster : List Definition) (s : State) (us : List Update) → full roster s us ≡ cost roster s us }
{}

/// A step pays for what it saves: with every name written, what is left to send before a message costs at most the
/// message's size, plus the saving of its read, plus what is left to send after it. This holds of every message: early
/// definitions, second definitions, switches, reads and writes of names, acknowledgements and messages that change
/// nothing.
pub fn a_step_pays()
    ensures { (roster : List Definition) (s mid : State) (m : Message) (one rest : List Update) →
        AreOwn roster s.received.tables → IsOwn roster m → AllByRecursion (IsOfRoster roster) rest →
        Step s m one mid → Pays roster s m one rest mid }
{}

/// A legal list of messages is at least as long as the lesson with every name written, less what its reads save.
pub fn a_list_pays()
    ensures { (roster : List Definition) (s e : State) (ms : List Message) (us : List Update) →
        AreOwn roster s.received.tables → AllByRecursion (IsOfRoster roster) us → Legal roster s ms us e →
        (saved : ℕ) × Saves roster s ms us saved × (full roster s us ≤ size_of_all ms + saved) }
{}

/// A legal list is at least as long as the lesson with every name written, less the savings of the requests that it
/// reads; it has one mark for each request.
pub fn reads_pay()
    ensures pay { (roster : List Definition) (s e : State) (ms : List Message) (us : List Update) →
        roster_fault roster ≡ None → AreOwn roster s.received.tables → AllByRecursion (IsOfRoster roster) us →
        Legal roster s ms us e →
        full roster s us ≤ size_of_all ms + read_savings (requests_of roster (knowledge_of s) us) (reads_of ms) }
    ensures marks { (roster : List Definition) (k : Knowledge) (s e : State) (ms : List Message) (us : List Update) →
        Teaches s ms us e → length (reads_of ms) ≡ length (requests_of roster k us) }
{}

/// What a teacher knows of a learner is enough. If all that the learner received is the roster's own, and its last
/// numbers are in ascending order of id, then messages that are legal from the known state are legal from the learner's
/// own state and carry the same updates; and what is known of the learner afterwards is the known state in which the
/// messages end. This holds although the learner's state may hold what no teacher knows of: last numbers of ids that
/// are no longer received, and a selected id that stands for no table.
pub fn what_is_known_is_enough()
    ensures { (roster : List Definition) (s after : State) (ms : List Message) (us : List Update) →
        AreOwn roster s.received.tables → AreRising s.last_numbers → Legal roster (known_of roster s).state ms us after →
        (e : State) × Legal roster s ms us e × AreOwn roster e.received.tables × AreRising e.last_numbers
        × (known_of roster e ≡ record { roster = roster; state = after }) }
{}

/// Knowing fewer names is enough. Messages that are legal from a state are legal from one that differs only in that its slots
/// hold more names; they carry the same updates, and lead to such a state again. So lessons stay legal if the names are
/// forgotten (`Known::forget_names`), although the learner still holds them.
pub fn fewer_names_are_enough()
    ensures legal { (roster : List Definition) (known s after : State) (ms : List Message) (us : List Update) →
        LacksNames known s → Legal roster known ms us after → (e : State) × Legal roster s ms us e × LacksNames after e }
    ensures forgotten { (k : KnownState) → length k.state.slots ≡ slot_count → LacksNames (without_names k).state k.state }
{}

/// Last numbers are in ascending order of id if nothing was received, and each step keeps them so.
pub fn numbers_rise()
    ensures fresh { AreRising fresh.last_numbers }
    ensures step { (s e : State) (m : Message) (us : List Update) → AreRising s.last_numbers → Step s m us e → AreRising e.last_numbers }
{}

/// Messages that make their steps one after another all fit, and what their final state has received is what they
/// define and select.
pub fn steps_fit()
    ensures { (s e : State) (ms : List Message) (us : List Update) → Teaches s ms us e →
        AllFit s.received ms × (e.received ≡ fold received_after s.received ms) }
{}

/// Resuming from the ids and the selected id of a known state gives what was received in that state.
pub fn resuming_gives_back()
    ensures { (k : KnownState) → AreOwn k.roster k.state.received.tables → AreDistinct k.state.received.tables →
        resumed k.roster (map (λ d. d.id) k.state.received.tables) k.state.received.selected ≡ k.state.received }
{}
