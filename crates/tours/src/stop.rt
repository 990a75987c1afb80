// Why a tour ends early.
ghost use Rattle.std.specs.Prelude.{◌≡◌};
ghost use Rattle.tours.specs.declared.stop.Stop.TheVariants.{Bytes, Visitor};
ghost use Rattle.tours.specs.Stops.{why_of};

use refusals::{Refusal, Why};

// The bytes are refused, or the visitor refuses with a number of its own.
#[derive(Clone, Copy, Debug, PartialEq, Eq)]
pub enum Stop {
    Bytes(Refusal),
    Visitor(u32),
}

impl From<Refusal> for Stop {
    ghost from_gives = { λ refusal r. r ≡ Bytes refusal };

    fn from(refusal: Refusal) -> Stop {
        Stop::Bytes(refusal)
    }
}

impl From<u32> for Stop {
    ghost from_gives = { λ number r. r ≡ Visitor number };

    fn from(number: u32) -> Stop {
        Stop::Visitor(number)
    }
}

// Why a tour ended early, as a call that leads it refuses.
impl From<Stop> for Why {
    ghost from_gives = { λ stop r. r ≡ why_of stop };

    fn from(stop: Stop) -> Why {
        match stop {
            Stop::Bytes(refused) => refused.why,
            Stop::Visitor(own) => Why::VisitorRefused(own),
        }
    }
}
