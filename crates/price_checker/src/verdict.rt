//! Verdicts.

ghost use Rattle.std.specs.Prelude.{◌≡◌};
ghost use Rattle.price_checker.specs.Verdicts.{illegal_name};

use known_state::StepError;
use peers_msg::Breach;

/// Why a stream isn't legal.
#[derive(Clone, Copy, Debug, PartialEq, Eq)]
pub enum Illegal {
    /// The bytes at the front are no message.
    Decode(Breach),
    /// The message isn't legal in the state before it.
    Step(StepError),
    /// The stream ends before the message is whole.
    Cut,
}

impl Illegal {
    /// Returns the name of the cause: that of the breach or of the step's error, or `Cut`.
    pub fn name(self) -> &'static str
        ensures { result.now ≡ illegal_name self }
    {
        match self {
            Illegal::Decode(breach) => breach.name(),
            Illegal::Step(error) => error.name(),
            Illegal::Cut => "Cut",
        }
    }
}

/// The verdict of the checker on a stream and its prices: the first that applies, in this order.
#[derive(Clone, Copy, Debug, PartialEq, Eq)]
pub enum Verdict {
    /// The stream isn't legal: why, and the place of the first byte of the message that isn't, counted from 0.
    NotLegal(Illegal, usize),
    /// The stream carries other updates than the batch: the first index, counted from 0, at which they differ or one of
    /// them ends.
    NotCarried(usize),
    /// The number of prices isn't the number of updates with a name.
    PriceCount,
    /// A price is above 2^32.
    PriceRange,
    /// The prices don't prove that no stream is shorter.
    Gap {
        /// How many bytes the stream saves compared with the lesson in which every name is written; 0 if it is longer.
        saved: u64,
        /// How many bytes can be saved at most, as the prices prove.
        bound: u64,
    },
    /// No legal stream that carries the batch is shorter than this one: its length in bytes.
    Shortest(usize),
}
