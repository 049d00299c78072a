//! Verdicts.
ghost use Rattle.std.specs.Prelude.{◌≡◌, IfOk, string_bytes};
ghost use Rattle.node_text.specs.Verdicts.{verdict_line};

use price_checker::Verdict;
use std::alloc::{AllocError, Global};

/// Returns the line of a verdict: its words and its numbers.
pub fn printed_verdict(alloc: Global, verdict: Verdict) -> Result<String, AllocError>
    ensures { IfOk result (λ line. string_bytes line ≡ verdict_line verdict) }
{
    match verdict {
        Verdict::NotLegal(illegal, place) => {
            let name = illegal.name();
            format!(in alloc; "not legal {name} at {place}\n")
        }
        Verdict::NotCarried(index) => format!(in alloc; "not carried {index}\n"),
        Verdict::PriceCount => String::from_str(alloc, "price count\n"),
        Verdict::PriceRange => String::from_str(alloc, "price range\n"),
        Verdict::Gap { saved, bound } => format!(in alloc; "gap {saved} {bound}\n"),
        Verdict::Shortest(bytes) => format!(in alloc; "shortest {bytes}\n"),
    }
}
