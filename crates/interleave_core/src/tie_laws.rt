//! Laws of what ties a session to the tables, whatever the program does.

ghost use Rattle.std.specs.Prelude.{◌≡◌, ◌≢◌, ◌⊎◌, ◌≤◌, ◌<◌, ◌++◌, ◌∷◌, [], ℕ, List, Bool, true, false, Some, None, drop, is_some, length, option_to_list, if◌then◌else◌};
ghost use Rattle.std.specs.List.{AllByRecursion, list_any};
ghost use Rattle.table_types.specs.declared.copies.CopyKind.{CopyKind};
ghost use Rattle.table_types.specs.declared.update.Update.{Update};
ghost use Rattle.table_types.specs.declared.version.Version.{Version};
ghost use Rattle.table_types.specs.Rosters.{has_id};
ghost use Rattle.table_types.specs.Tables.{Definition};
ghost use Rattle.known_state.specs.Known.{is_in};
ghost use Rattle.table_cell.specs.declared.errors.AckError.TheVariants as unacknowledged;
ghost use Rattle.table_cell.specs.declared.events.CellEvent.{CellEvent};
ghost use Rattle.table_cell.specs.declared.events.CellEvent.TheVariants as events;
ghost use Rattle.table_cell.specs.declared.events.CellReply.{CellReply};
ghost use Rattle.table_cell.specs.declared.events.CellReply.TheVariants as replies;
ghost use Rattle.table_cell.specs.declared.progress.Progress.{Progress};
ghost use Rattle.table_cell.specs.Machine.{ack_refusal, has_out, last_number, no_progress, progress_of};
ghost use Rattle.table_cell.specs.Soundness.{IsTimely};
ghost use Rattle.table_cell.specs.Histories.{CellState, IsSoundCell, Made, is_history_full};
ghost use Rattle.table_cell.specs.Handing.{Ascend, KeepsUp, handed_since, is_about, numbers};
ghost use Rattle.interleave_core.specs.Moves.{acked_all, acknowledges, reopened_all};
ghost use Rattle.interleave_core.specs.Sound.{acked_numbers, last_number_of};
ghost use Rattle.interleave_core.specs.Ties.{AreSoundTables, AreTied, IsAmong, IsJustOpened, IsTied, IsTiedTo, Share, WasCopied, end_of, of_table, opened_share};
ghost use Rattle.interleave_core.specs.Worlds.{ConnectionState, cell_at, new_connection, roster_of, with_cell};

/// A session stays tied to a table, by numbers: when more is handed out, when more is done, whether that makes an
/// acknowledgement due or not, when the acknowledgement that is due is sent, and when the first one on its way is taken.
/// It begins with nothing.
pub fn numbers_stay_tied()
    ensures begun { IsTied [] [] 0 0 [] false }
    ensures copied { (handed done acks more : List ℕ) (a t : ℕ) (d : Bool) → Ascend t more → IsTied handed done a t acks d →
        IsTied (handed ++ more) done a (end_of t more) acks d }
    ensures learned { (handed done more rest acks : List ℕ) (a t : ℕ) (d e : Bool) → handed ≡ (done ++ more) ++ rest →
        (e ≡ true → (d ≡ true) ⊎ (more ≢ [])) → IsTied handed done a t acks d → IsTied handed (done ++ more) a t acks e }
    ensures sent { (handed done acks : List ℕ) (a t : ℕ) → IsTied handed done a t acks true → IsTied handed done a t (acks ++ end_of 0 done ∷ []) false }
    ensures taken { (handed done acks : List ℕ) (a t x : ℕ) (d : Bool) → IsTied handed done a t (x ∷ acks) d → IsTied handed done x t acks d }
{}

/// If a session is tied to a table, all that was handed out up to the number acknowledged is done. The first acknowledgement
/// on its way is above that number and at most the number taught, so it is neither old nor ahead, and a batch is out. If no
/// batch is out, all that was handed out is done, and no acknowledgement is on its way or due.
pub fn what_a_tie_tells()
    ensures done { (handed done acks : List ℕ) (a t n : ℕ) (d : Bool) → IsTied handed done a t acks d → IsAmong n handed → n ≤ a → IsAmong n done }
    ensures granted { (handed done acks : List ℕ) (a t x : ℕ) (d : Bool) → IsTied handed done a t (x ∷ acks) d → (a < x) × (x ≤ t) }
    ensures quiet { (handed done acks : List ℕ) (a t : ℕ) (d : Bool) → t ≤ a → IsTied handed done a t acks d →
        (handed ≡ done) × (acks ≡ []) × (d ≡ false) }
{}

/// A session stays tied to one table at each of its events: at any event that isn't about the session, at a copy for it,
/// which adds to its share, and at the first acknowledgement on its way. When it is opened, it is tied with nothing handed
/// out, and what was copied before was still copied.
pub fn a_session_stays_tied_to_a_table()
    ensures other { (session : ℕ) (share : Share) (c e : CellState) (event : CellEvent) (reply : CellReply) (p : Progress) →
        is_about session event ≡ false → Made c event reply e → IsTiedTo session share c p → IsTiedTo session share e p }
    ensures copied { (session limit now : ℕ) (kind : CopyKind) (us : List Update) (share : Share) (c e : CellState) (p : Progress) →
        IsSoundCell c → KeepsUp session c → Made c (events.Copy session kind limit now) (replies.Copy us) e → IsTiedTo session share c p →
        (q : Progress) × IsTiedTo session (record share { all = share.all ++ us; handed = share.handed ++ us }) e q }
    ensures acknowledged { (session number : ℕ) (rest : List ℕ) (share : Share) (c e : CellState) (reply : CellReply) (p : Progress) →
        share.acks ≡ number ∷ rest → Made c (events.Ack session number) reply e → IsTiedTo session share c p →
        IsTiedTo session (record share { acks = rest }) e (record p { acknowledged = number }) }
    ensures opened { (session : ℕ) (version : Version) (all : List Update) (c e : CellState) (reply : CellReply) →
        Made c (events.Open session version) reply e → AllByRecursion (WasCopied session c.history) all → IsTiedTo session (opened_share all) e (no_progress version c.state.next) }
{}

/// A session stays tied to all tables at each step. An event that isn't about the session leaves all ties as they are. A copy
/// of a sound table that keeps up joins what waits; the oldest batch that waits is taught; the learner puts more updates, and
/// only a table of them becomes due; it sends what it owes, one acknowledgement of the last number of each table that is
/// due; and the first acknowledgements on their way are taken.
pub fn a_session_stays_tied()
    ensures other { (session before table : ℕ) (s : ConnectionState) (acks : List (ℕ × ℕ)) (cells : List CellState) (c e : CellState) (event : CellEvent) (reply : CellReply) →
        is_about session event ≡ false → cell_at table cells ≡ Some c → Made c event reply e → AreTied session before s acks cells →
        AreTied session before s acks (with_cell table e cells) }
    ensures copied { (session before limit now table : ℕ) (kind : CopyKind) (us : List Update) (s : ConnectionState) (acks : List (ℕ × ℕ)) (cells : List CellState) (c e : CellState) →
        IsSoundCell c → KeepsUp session c → cell_at table cells ≡ Some c → Made c (events.Copy session kind limit now) (replies.Copy us) e →
        AreTied session before s acks cells → AreTied session before (record s { copied = s.copied ++ us ∷ [] }) acks (with_cell table e cells) }
    ensures taught { (session before : ℕ) (s e : ConnectionState) (acks : List (ℕ × ℕ)) (cells : List CellState) (batch to_come : List Update) (rest : List (List Update)) →
        s.taught ≡ s.applied ++ to_come → s.copied ≡ batch ∷ rest → e.copied ≡ rest → e.taught ≡ s.taught ++ batch → e.applied ≡ s.applied → e.learner ≡ s.learner →
        AreTied session before s acks cells → AreTied session before e acks cells }
    ensures learned { (session before : ℕ) (s e : ConnectionState) (acks : List (ℕ × ℕ)) (cells : List CellState) (us later : List Update) →
        s.taught ≡ (s.applied ++ us) ++ later → e.copied ≡ s.copied → e.taught ≡ s.taught → e.applied ≡ s.applied ++ us →
        ((table : ℕ) → is_in table e.learner.intake.due ≡ true → (is_in table s.learner.intake.due ≡ true) ⊎ (is_some (last_number_of table us) ≡ true)) →
        AreTied session before s acks cells → AreTied session before e acks cells }
    ensures sent { (session before : ℕ) (s : ConnectionState) (acks sent : List (ℕ × ℕ)) (cells : List CellState) →
        ((table : ℕ) → acked_numbers table sent ≡ (if is_in table s.learner.intake.due then option_to_list (last_number_of table s.applied) else [])) →
        AreTied session before s acks cells → AreTied session before (acknowledges s) (acks ++ sent) cells }
    ensures taken { (session before : ℕ) (s : ConnectionState) (acks rest : List (ℕ × ℕ)) (cells after : List CellState) →
        acked_all session acks cells ≡ Some after → AreTied session before s (acks ++ rest) cells → AreTied session before s rest after }
    ensures others { (session other before : ℕ) (s : ConnectionState) (acks own : List (ℕ × ℕ)) (cells after : List CellState) →
        other ≢ session → acked_all session acks cells ≡ Some after → AreTied other before s own cells → AreTied other before s own after }
{}

/// A session with a new connection is tied to all tables if it was just opened in each, or if it is opened anew in each. If no
/// batch of it is out, it can be opened anew with the same connection: all that was taught has been put, and the session is
/// tied. Other sessions stay tied.
pub fn a_new_session_is_tied()
    ensures opened { (session : ℕ) (version : Version) (roster : List Definition) (cells : List CellState) →
        ((table : ℕ) (c : CellState) → cell_at table cells ≡ Some c → IsJustOpened session c) →
        AreTied session 0 (new_connection version roster) [] cells }
    ensures begun { (session : ℕ) (version : Version) (roster : List Definition) (cells after : List CellState) →
        reopened_all session version cells ≡ Some after → AreTied session 0 (new_connection version roster) [] after }
    ensures reopened { (session : ℕ) (version : Version) (before : ℕ) (s : ConnectionState) (acks : List (ℕ × ℕ)) (to_come : List Update) (cells after : List CellState) →
        s.taught ≡ s.applied ++ to_come → AllByRecursion (λ u. has_id u.table (roster_of cells) ≡ true) to_come →
        list_any (λ c. has_out (progress_of session c.state)) cells ≡ false → reopened_all session version cells ≡ Some after →
        AreTied session before s acks cells → (to_come ≡ []) × AreTied session (length s.taught) s acks after }
    ensures other { (session : ℕ) (version : Version) (other before : ℕ) (s : ConnectionState) (acks : List (ℕ × ℕ)) (cells after : List CellState) →
        other ≢ session → reopened_all session version cells ≡ Some after → AreTied other before s acks cells → AreTied other before s acks after }
{}

/// The tables stay sound, keep up with every session and keep their definitions: when an event is made in one of them, when
/// acknowledgements are made, and when a session is opened anew in each.
pub fn tables_stay_sound()
    ensures changed { (table : ℕ) (cells : List CellState) (c e : CellState) (event : CellEvent) (reply : CellReply) →
        IsTimely event → is_history_full c ≡ false → cell_at table cells ≡ Some c → Made c event reply e → AreSoundTables cells →
        AreSoundTables (with_cell table e cells) × (roster_of (with_cell table e cells) ≡ roster_of cells) }
    ensures acknowledged { (session : ℕ) (acks : List (ℕ × ℕ)) (cells after : List CellState) →
        acked_all session acks cells ≡ Some after → AreSoundTables cells → AreSoundTables after × (roster_of after ≡ roster_of cells) }
    ensures reopened { (session : ℕ) (version : Version) (cells after : List CellState) →
        reopened_all session version cells ≡ Some after → AreSoundTables cells → AreSoundTables after × (roster_of after ≡ roster_of cells) }
{}

/// Of a session that is tied to all tables: the number acknowledged in a table is 0 or that of an update that the learner has
/// put, and no update of the table that was taught and isn't put yet has that number or a lower one. What the table handed out
/// since the session was last opened begins with what the learner has put of it since then, at least up to the number
/// acknowledged. An acknowledgement on its way is refused only by a table that has no room for another event.
pub fn what_is_acknowledged_was_put()
    ensures number { (session before table : ℕ) (s : ConnectionState) (acks : List (ℕ × ℕ)) (cells : List CellState) (c : CellState) (p : Progress) →
        cell_at table cells ≡ Some c → progress_of session c.state ≡ Some p → AreTied session before s acks cells →
        (p.acknowledged ≡ 0) ⊎ IsAmong p.acknowledged (numbers (of_table table s.applied)) }
    ensures rest { (session before table : ℕ) (s : ConnectionState) (acks : List (ℕ × ℕ)) (to_come : List Update) (cells : List CellState) (c : CellState) (p : Progress) →
        s.taught ≡ s.applied ++ to_come → cell_at table cells ≡ Some c → progress_of session c.state ≡ Some p → AreTied session before s acks cells →
        AllByRecursion (λ u. p.acknowledged < u.number) (of_table table to_come) }
    ensures handed { (session before table : ℕ) (s : ConnectionState) (acks : List (ℕ × ℕ)) (to_come : List Update) (cells : List CellState) (c : CellState) (p : Progress) →
        s.taught ≡ s.applied ++ to_come → cell_at table cells ≡ Some c → progress_of session c.state ≡ Some p → AreTied session before s acks cells →
        (rest : List Update) × (handed_since session c.history ≡ of_table table (drop before s.applied) ++ rest)
        × (p.acknowledged ≤ last_number 0 (of_table table (drop before s.applied))) }
    ensures granted { (session before table number : ℕ) (full : Bool) (s : ConnectionState) (acks : List (ℕ × ℕ)) (cells : List CellState) (c : CellState) →
        cell_at table cells ≡ Some c → AreTied session before s ((table, number) ∷ acks) cells →
        ack_refusal full c.state session number ≡ (if full then Some unacknowledged.HistoryFull else None) }
    ensures copied { (session before table : ℕ) (s : ConnectionState) (acks : List (ℕ × ℕ)) (cells : List CellState) (c : CellState) →
        cell_at table cells ≡ Some c → AreTied session before s acks cells → AllByRecursion (WasCopied session c.history) (of_table table s.taught) }
{}
