//! What holds of connections, whatever the program does.

ghost use Rattle.std.specs.Prelude.{◌≡◌, ◌≢◌, ◌<◌, ◌^◌, ◌⊎◌, ◌∷◌, ◌++◌, [], ℕ, true, List, Result, Ok, Err, Some, None, drop, filter_map, is_some, length, option_to_list, take, if◌then◌else◌};
ghost use Rattle.peers_msg.specs.Integers.{IsBytes};
ghost use Rattle.peers_msg.specs.declared.fault.Breach.{Breach};
ghost use Rattle.peers_msg.specs.declared.message.Message.{Message};
ghost use Rattle.peers_msg.specs.Decoding.{AreRead};
ghost use Rattle.peers_msg.specs.Reading.{message_at};
ghost use Rattle.peers_msg.specs.Received.{Received, nothing_received};
ghost use Rattle.table_types.specs.declared.key.Key.{Key};
ghost use Rattle.table_types.specs.declared.update.Update.{Update};
ghost use Rattle.table_types.specs.declared.version.Version.{Version};
ghost use Rattle.table_types.specs.Batches.{IsBatchFor};
ghost use Rattle.table_types.specs.Rosters.{roster_fault, table_at};
ghost use Rattle.table_types.specs.Rows.{StoredRow, row_of};
ghost use Rattle.table_types.specs.Tables.{Definition};
ghost use Rattle.known_state.specs.Known.{KnownState, is_in, known_of};
ghost use Rattle.known_state.specs.Lessons.{IsLessonFor};
ghost use Rattle.learner.specs.declared.fault.Fault.{Fault};
ghost use Rattle.learner.specs.declared.fault.Fault.TheVariants as faults;
ghost use Rattle.learner.specs.Intake.{due_acks};
ghost use Rattle.learner.specs.Learning.{Learning, LearnerFeeds};
ghost use Rattle.learner.specs.Rows.{AreOfOthers, put_all, row_at, rows_at};
ghost use Rattle.interleave_core.specs.Moves.{IsFed, ack_in, acknowledges};
ghost use Rattle.interleave_core.specs.Sound.{IsOfLast, IsSoundConnection, acked_numbers, last_number_of};
ghost use Rattle.interleave_core.specs.Worlds.{ConnectionState, new_connection};

/// A connection stays sound, with the acknowledgements that are on their way. A new connection is sound, and stays so when
/// a batch is copied, when a lesson of the oldest batch goes into the pipe, and when the learner is fed any number of bytes
/// of it at a moment below 2^63. What the learner acknowledges joins the acknowledgements on their way; what arrives at the
/// teacher takes the first of them off, in order.
pub fn a_connection_stays_sound()
    ensures begun { (version : Version) (roster : List Definition) → roster_fault roster ≡ None → IsSoundConnection roster (new_connection version roster) [] }
    ensures copied { (roster : List Definition) (s : ConnectionState) (acks : List (ℕ × ℕ)) (batch : List Update) →
        IsSoundConnection roster s acks → IsBatchFor roster batch → IsSoundConnection roster (record s { copied = s.copied ++ batch ∷ [] }) acks }
    ensures taught { (roster : List Definition) (s : ConnectionState) (acks : List (ℕ × ℕ)) (batch : List Update) (rest : List (List Update)) (bytes : List ℕ) (after : KnownState) →
        IsSoundConnection roster s acks → s.copied ≡ batch ∷ rest → IsLessonFor s.known batch bytes after → IsBytes bytes →
        IsSoundConnection roster (record s { known = after; copied = rest; taught = s.taught ++ batch; to_learner = s.to_learner ++ bytes }) acks }
    ensures delivered { (roster : List Definition) (s e : ConnectionState) (acks : List (ℕ × ℕ)) (now count : ℕ) →
        now < 2 ^ 63 → IsSoundConnection roster s acks → IsFed now (take count s.to_learner) (drop count s.to_learner) s e → IsSoundConnection roster e acks }
    ensures acknowledged { (roster : List Definition) (s : ConnectionState) (acks : List (ℕ × ℕ)) →
        IsSoundConnection roster s acks → IsSoundConnection roster (acknowledges s) (acks ++ filter_map (ack_in roster) (due_acks s.learner.intake)) }
    ensures arrived { (roster : List Definition) (s : ConnectionState) (acks : List (ℕ × ℕ)) (count : ℕ) (ms : List Message) (received : Received) (left : List ℕ) →
        IsSoundConnection roster s acks → AreRead nothing_received (s.unread ++ take count s.to_teacher) ms received left →
        (later : List (ℕ × ℕ)) × (acks ≡ filter_map (ack_in roster) ms ++ later)
        × IsSoundConnection roster (record s { to_teacher = drop count s.to_teacher; unread = left }) later }
{}

/// A teacher reads what arrives of a sound connection without a breach, however many bytes have arrived.
pub fn acknowledgements_are_read()
    ensures { (roster : List Definition) (s : ConnectionState) (acks : List (ℕ × ℕ)) (count : ℕ) (ms : List Message) (received : Received) (left : List ℕ) (breach : Breach) →
        IsSoundConnection roster s acks → AreRead nothing_received (s.unread ++ take count s.to_teacher) ms received left →
        message_at received left ≢ Err breach }
{}

/// A learner owes one acknowledgement of a table that is due, of the number of the last update of it that it has put, and
/// none of any other table. A table becomes due only by an update of it.
pub fn due_tables_are_owed()
    ensures owed { (roster : List Definition) (s : ConnectionState) (acks : List (ℕ × ℕ)) (table : ℕ) → IsSoundConnection roster s acks →
        acked_numbers table (filter_map (ack_in roster) (due_acks s.learner.intake)) ≡ (if is_in table s.learner.intake.due then option_to_list (last_number_of table s.applied) else []) }
    ensures due { (roster : List Definition) (s e : ConnectionState) (acks : List (ℕ × ℕ)) (now count table : ℕ) →
        IsSoundConnection roster s acks → IsFed now (take count s.to_learner) (drop count s.to_learner) s e → is_in table e.learner.intake.due ≡ true →
        (us : List Update) × (e.applied ≡ s.applied ++ us)
        × ((is_in table s.learner.intake.due ≡ true) ⊎ (is_some (last_number_of table us) ≡ true)) }
{}

/// A learner that is fed all that is on its way to it has no fault unless memory runs out. It then puts the updates that were
/// taught and not put yet among its rows, in order, leaves nothing unread, and is as the teacher knows it.
pub fn the_learner_ends_as_known()
    ensures { (roster : List Definition) (s : ConnectionState) (acks : List (ℕ × ℕ)) (now : ℕ) (answer : Result ℕ Fault) (l : Learning) →
        IsSoundConnection roster s acks → LearnerFeeds now s.learner s.to_learner answer l → answer ≢ Err faults.Memory →
        (us : List Update) × (answer ≡ Ok (length us)) × (s.taught ≡ s.applied ++ us) × (l.rows ≡ put_all now roster us s.learner.rows)
        × (l.intake.unread ≡ []) × (known_of roster l.intake.state ≡ s.known) }
{}

/// Each row at the learner is what the last update of its table and key taught, of those that the learner has put. An
/// update that none of its table and key was put after stands there, as it was put at some moment. Both moments are below
/// 2^63.
pub fn rows_are_of_the_last_updates()
    ensures each { (roster : List Definition) (s : ConnectionState) (acks : List (ℕ × ℕ)) (d : Definition) (key : Key) (row : StoredRow) →
        IsSoundConnection roster s acks → table_at roster d.id ≡ Some d → row_at key (rows_at roster d.id s.learner.rows) ≡ Some row →
        IsOfLast d key s.applied row }
    ensures stands { (roster : List Definition) (s : ConnectionState) (acks : List (ℕ × ℕ)) (before after : List Update) (u : Update) (d : Definition) →
        IsSoundConnection roster s acks → s.applied ≡ before ++ u ∷ after → table_at roster u.table ≡ Some d → AreOfOthers u.table u.key after →
        (now : ℕ) × (now < 2 ^ 63) × (row_at u.key (rows_at roster u.table s.learner.rows) ≡ Some (row_of now d.expire u)) }
{}
