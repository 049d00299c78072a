//! Laws of what the admin port reads and prints: a line is that of one request, and how long HAProxy shows an event.
ghost use Rattle.std.specs.Prelude.{◌≡◌, ◌≤◌, ◌<◌, ◌+◌, ◌*◌, ◌∷◌, ℕ, [], List, Option, map};
ghost use Rattle.table_types.specs.Tables.{Definition};
ghost use Rattle.table_types.specs.declared.row.Cell.TheVariants as cells;
ghost use Rattle.admin_port.specs.Requests.{IsRequestLine};
ghost use Rattle.admin_port.specs.ShownRates.{shown_rate};
ghost use Rattle.admin_port.specs.declared.requests.Request.{Request};

/// Proves that a line is the line of at most one request. So what `read_request` reads is the request of its line, and it reads
/// the request of each line that has one, unless memory runs out.
#[tactic(auto, using(crate::proofs::OneRequest::one_request))]
pub fn one_request()
    ensures { (section : Option (List ℕ)) (tables : List Definition) (line : List ℕ) (one other : Request) →
        IsRequestLine section tables line one → IsRequestLine section tables line other → one ≡ other }
{}

/// Proves that a lone event is shown as a rate of 1 up to the end of the second period, that millisecond included, and then as 0.
pub fn lone_event()
    ensures shown { (period start now : ℕ) → now ≤ start + 2 * period → shown_rate period now (cells.Rate start 1 0) ≡ 1 }
    ensures over { (period start now : ℕ) → start + 2 * period < now → shown_rate period now (cells.Rate start 1 0) ≡ 0 }
{}

/// Proves what some rates with a period of 10,000 ms that start at 1,000 show, at moments about the ends of the first and second period.
pub fn rates_at_borders()
    ensures many { map (λ now. shown_rate 10000 now (cells.Rate 1000 5 20))
        (1000 ∷ 6000 ∷ 11000 ∷ 11001 ∷ 21000 ∷ 21001 ∷ []) ≡ 25 ∷ 15 ∷ 5 ∷ 4 ∷ 0 ∷ 0 ∷ [] }
    ensures lone { map (λ now. shown_rate 10000 now (cells.Rate 1000 1 0))
        (1000 ∷ 6000 ∷ 11000 ∷ 11001 ∷ 21000 ∷ 21001 ∷ []) ≡ 1 ∷ 1 ∷ 1 ∷ 1 ∷ 1 ∷ 0 ∷ [] }
    ensures earlier { map (λ now. shown_rate 10000 now (cells.Rate 1000 0 1))
        (1000 ∷ 6000 ∷ 11000 ∷ 11001 ∷ 21000 ∷ 21001 ∷ []) ≡ 1 ∷ 1 ∷ 1 ∷ 0 ∷ 0 ∷ 0 ∷ [] }
    ensures two { map (λ now. shown_rate 10000 now (cells.Rate 1000 1 1))
        (1000 ∷ 6000 ∷ 11000 ∷ 11001 ∷ 21000 ∷ 21001 ∷ []) ≡ 2 ∷ 1 ∷ 1 ∷ 1 ∷ 1 ∷ 0 ∷ [] }
{}
