//! What holds of plans: how much reads can save, and what proves that no legal list is shorter.

ghost use Rattle.std.specs.Prelude.{◌≡◌, ◌<◌, ◌≤◌, ◌⊎◌, ◌+◌, ◌-◌, ℕ, Bool, false, true, List, [], ◌∷◌, ◌++◌, length, slice_index_or, None, Some, is_some, if◌then◌else◌};
ghost use Rattle.std.specs.List.{AllByRecursion, IsDistinct};
ghost use Rattle.table_types.specs.declared.update.Update.{Update};
ghost use Rattle.table_types.specs.Rosters.{is_same_name, roster_fault};
ghost use Rattle.table_types.specs.Tables.{Definition};
ghost use Rattle.table_types.specs.SlotIds.{slot_count};
ghost use Rattle.peers_msg.specs.declared.message.Message.{Message};
ghost use Rattle.peers_msg.specs.Spelling.{size_of_all};
ghost use Rattle.known_state.specs.State.{State, Legal, Teaches};
ghost use Rattle.known_state.specs.Known.{AreOwn, KnownState};
ghost use Rattle.known_state.specs.Requests.{Asked, read_savings, reads_of, requests_of};
ghost use Rattle.known_state.specs.Cost.{IsOfRoster, Knowledge, full, knowledge_of};
ghost use Rattle.known_state.specs.Plans.{Accepts, AreLinked, Link, Plan, after_requests, all_links, at_start, bound, keeps_next, kept_from, kept_over, kept_savings, kept_to, link_of, links, names_in, price_inside};
ghost use Rattle.known_state.specs.Shortest.{Shortest};

/// Messages don't change the number of slots.
pub fn slots_stay()
    ensures { (s e : State) (ms : List Message) (us : List Update) → Teaches s ms us e → length e.slots ≡ length s.slots }
{}

/// A name that messages read occupies one of the 128 slots from the previous request for it, or from the start if a
/// slot holds it there, to the request that reads it. So each request that is read has a link; and at each place the
/// name of its own request is in a slot, read or written, which leaves room for 127 of the links that are read.
pub fn reads_need_slots()
    ensures linked { (roster : List Definition) (k : Knowledge) (s e : State) (ms : List Message) (us : List Update) →
        length s.slots ≡ slot_count → Teaches s ms us e →
        AreLinked (at_start (names_in s.slots)) (requests_of roster k us) (reads_of ms) }
    ensures room { (roster : List Definition) (k : Knowledge) (s e : State) (ms : List Message) (us : List Update) (place : ℕ) →
        length s.slots ≡ slot_count → Teaches s ms us e →
        kept_over (links (names_in s.slots) (requests_of roster k us) (reads_of ms)) place ≤ slot_count - 1 }
{}

/// The links of requests go forward: each begins at an earlier place than the one where it ends, which is the place of
/// one of the requests. So only places after the start and before the last request are inside a link.
pub fn links_go_forward()
    ensures forward { (held : List (List ℕ)) (rs : List Asked) (keep : List Bool) →
        AllByRecursion (λ l. (l.from < l.to) × (l.to ≤ length rs)) (links held rs keep) }
    ensures start { (held : List (List ℕ)) (rs : List Asked) (keep : List Bool) → kept_over (links held rs keep) 0 ≡ 0 }
    ensures past { (held : List (List ℕ)) (rs : List Asked) (keep : List Bool) (place : ℕ) → length rs ≤ place →
        kept_over (links held rs keep) place ≡ 0 }
{}

/// One more request is at the next place. It has a link if its name was requested or is held at the start: from the
/// place of the last such request. It is then itself the last request for its name.
pub fn one_more_request()
    ensures links { (held : List (List ℕ)) (rs : List Asked) (r : Asked) (keep : List Bool) (kept : Bool) →
        length keep ≡ length rs →
        links held (rs ++ r ∷ []) (keep ++ kept ∷ [])
        ≡ links held rs keep ++ link_of ((after_requests (at_start held) rs).last r.name) (length rs + 1) r kept }
    ensures last { (held : List (List ℕ)) (rs : List Asked) (r : Asked) (name : List ℕ) →
        (after_requests (at_start held) (rs ++ r ∷ [])).last name
        ≡ (if is_same_name r.name name then Some (length rs + 1) else (after_requests (at_start held) rs).last name) }
{}

/// From one place to the next, the kept links over it lose those that end at the next and gain those that begin at the
/// first. One ends at the place of each request that is kept, and none at another place.
pub fn over_the_next_place()
    ensures next { (held : List (List ℕ)) (rs : List Asked) (keep : List Bool) (place : ℕ) →
        kept_over (links held rs keep) (place + 1) + kept_to (links held rs keep) (place + 1)
        ≡ kept_over (links held rs keep) place + kept_from (links held rs keep) place }
    ensures ends { (held : List (List ℕ)) (rs : List Asked) (keep : List Bool) (place : ℕ) →
        length keep ≡ length rs → AreLinked (at_start held) rs keep →
        kept_to (links held rs keep) (place + 1) ≡ (if slice_index_or keep place false then 1 else 0) }
{}

/// At a request that isn't kept, distinct names that were each held at the start or requested since, and whose next
/// requests are kept, are no more than the kept links with the request's place inside. So if these are fewer than the
/// slots, there is a slot to write the request's name to.
pub fn names_to_keep()
    ensures { (held : List (List ℕ)) (done rest : List Asked) (r : Asked) (kept keep : List Bool) (names : List (List ℕ)) →
        length kept ≡ length done → IsDistinct is_same_name names →
        AllByRecursion (λ name. (is_some ((after_requests (at_start held) done).last name) ≡ true)
        × (keeps_next name (r ∷ rest) (false ∷ keep) ≡ true)) names →
        length names ≤ kept_over (links held (done ++ (r ∷ rest)) (kept ++ (false ∷ keep))) (length done + 1) }
{}

/// Whichever requests are kept, their links save at most the bound of any prices, if no place is inside more kept links
/// than there are slots less one.
pub fn savings_are_bounded()
    ensures { (slots : ℕ) (held : List (List ℕ)) (rs : List Asked) (keep : List Bool) (prices : List ℕ) →
        length keep ≡ length rs → ((place : ℕ) → kept_over (links held rs keep) place ≤ slots - 1) →
        kept_savings (links held rs keep) ≤ bound slots (all_links held rs) prices }
{}

/// Any two accepted plans for the same requests save equally much, whichever requests they keep.
pub fn accepted_plans_save_the_same()
    ensures { (slots : ℕ) (held : List (List ℕ)) (rs : List Asked) (one other : Plan) →
        Accepts slots held rs one → Accepts slots held rs other →
        kept_savings (links held rs one.keep) ≡ kept_savings (links held rs other.keep) }
{}

/// Prices prove that kept links save the bound if they fit: each place with a price is inside as many kept links as
/// there are slots less one, a kept link saves no less than the prices inside it, and any other link no more.
pub fn fitting_prices_are_tight()
    ensures { (slots : ℕ) (held : List (List ℕ)) (rs : List Asked) (keep : List Bool) (prices : List ℕ) →
        length keep ≡ length rs →
        ((place : ℕ) → (slice_index_or prices place 0 ≡ 0) ⊎ (kept_over (links held rs keep) (place + 1) ≡ slots - 1)) →
        AllByRecursion (λ l. (l.kept ≡ true → price_inside prices l ≤ l.saving)
        × (l.kept ≡ false → l.saving ≤ price_inside prices l)) (links held rs keep) →
        kept_savings (links held rs keep) ≡ bound slots (all_links held rs) prices }
{}

/// If the price of each place is its height less the height of the place before, the prices inside a link are the rise
/// from the place where it begins to the last place inside it.
pub fn prices_add_up()
    ensures { (prices : List ℕ) (height : ℕ → ℕ) (l : Link) →
        ((i : ℕ) → i < length prices → height i + slice_index_or prices i 0 ≡ height (i + 1)) →
        l.from < l.to → l.to ≤ length prices + 1 → height l.from + price_inside prices l ≡ height (l.to - 1) }
{}

/// If each request that is read has a link, the reads save what the links kept in the same way save.
pub fn reads_save_by_links()
    ensures { (held : List (List ℕ)) (rs : List Asked) (reads : List Bool) → AreLinked (at_start held) rs reads →
        read_savings rs reads ≡ kept_savings (links held rs reads) }
{}

/// The updates that a legal list carries belong to tables of the roster.
pub fn carried_is_of_the_roster()
    ensures { (roster : List Definition) (s e : State) (ms : List Message) (us : List Update) →
        AreOwn roster s.received.tables → Legal roster s ms us e → AllByRecursion (IsOfRoster roster) us }
{}

/// From a state with 128 slots, every legal list is at least as long as the lesson with every name written, less what
/// the links of the names that it reads save; so every legal list is at least as long as that lesson less the bound of
/// any prices.
pub fn no_list_is_shorter()
    ensures reads { (roster : List Definition) (s e : State) (ms : List Message) (us : List Update) →
        roster_fault roster ≡ None → AreOwn roster s.received.tables → length s.slots ≡ slot_count → Legal roster s ms us e →
        full roster s us ≤ size_of_all ms
        + kept_savings (links (names_in s.slots) (requests_of roster (knowledge_of s) us) (reads_of ms)) }
    ensures bound { (roster : List Definition) (s e : State) (ms : List Message) (us : List Update) (prices : List ℕ) →
        roster_fault roster ≡ None → AreOwn roster s.received.tables → length s.slots ≡ slot_count → Legal roster s ms us e →
        full roster s us ≤ size_of_all ms
        + bound slot_count (all_links (names_in s.slots) (requests_of roster (knowledge_of s) us)) prices }
{}

/// A legal list is a shortest one if some prices prove that no list saves more: its size plus their bound is the size
/// of the lesson with every name written.
pub fn tight_is_shortest()
    ensures { (k : KnownState) (e : State) (ms : List Message) (us : List Update) (prices : List ℕ) →
        roster_fault k.roster ≡ None → AreOwn k.roster k.state.received.tables → length k.state.slots ≡ slot_count →
        Legal k.roster k.state ms us e →
        size_of_all ms + bound slot_count (all_links (names_in k.state.slots) (requests_of k.roster (knowledge_of k.state) us)) prices
        ≡ full k.roster k.state us →
        Shortest k us ms }
{}

/// A legal list that saves at least what the links that an accepted plan keeps save is a shortest one, and it saves
/// exactly the bound of the plan's prices.
pub fn accepted_is_shortest()
    ensures { (k : KnownState) (e : State) (ms : List Message) (us : List Update) (plan : Plan) →
        roster_fault k.roster ≡ None → AreOwn k.roster k.state.received.tables → length k.state.slots ≡ slot_count →
        Accepts slot_count (names_in k.state.slots) (requests_of k.roster (knowledge_of k.state) us) plan →
        Legal k.roster k.state ms us e →
        size_of_all ms + kept_savings (links (names_in k.state.slots) (requests_of k.roster (knowledge_of k.state) us) plan.keep)
        ≤ full k.roster k.state us →
        (size_of_all ms + bound slot_count (all_links (names_in k.state.slots) (requests_of k.roster (knowledge_of k.state) us)) plan.prices
        ≡ full k.roster k.state us)
        × Shortest k us ms }
{}
