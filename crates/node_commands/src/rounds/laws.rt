//! A law of the definitions, whatever the program does.

ghost use Rattle.std.specs.Prelude.{◌≤◌, ◌*◌, ◌∷◌, ℕ, List, length};
ghost use Rattle.std.specs.List.{AllByRecursion};
ghost use Rattle.table_shards.specs.Audits.{AuditState};
ghost use Rattle.node_commands.specs.Rounds.{AreRounds, HasCount};

/// After rounds that were audited as `round` says, gpc0 of each thread's key is the number of rounds times the number of times that
/// the thread was asked to track in each.
pub fn a_round_counts_its_tracks()
    ensures { (a : AuditState) (earlier : List AuditState) (threads tracks key : ℕ) → AreRounds threads tracks (a ∷ earlier) → 1 ≤ key → key ≤ threads → 1 ≤ tracks →
        AllByRecursion (λ t. HasCount key (length (a ∷ earlier) * tracks) t.cell) a.unlocked.tables }
{}
