//! How long a page is kept.

ghost use Rattle.std.specs.Prelude.{◌≡◌};
ghost use Rattle.node_core.specs.KeptPages.{is_kept};

/// How long a page of metrics is kept for those who ask next, in milliseconds.
const KEPT: u64 = 1_000;

/// Returns whether a page that was made at a moment is kept still.
pub fn is_kept(made: u64, now: u64) -> bool
    ensures { result ≡ is_kept made now }
{
    now.saturating_sub(made) < KEPT
}
