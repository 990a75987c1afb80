// Opening, charging and closing.
ghost use Rattle.std.specs.Prelude.{◌≡◌, ◌^◌, ◌<◌, []};
ghost use Rattle.pods.specs.Trees.{past as past_of};
ghost use Rattle.tours.specs.Stack.{charged, holding as holding_of, innermost as innermost_of, is_due, outward, pushed, spent};

use super::{Frame, Open};
use pods::Holds;

// A number of bytes, or a place, with the key and flags before a pod.
pub fn past(holds: Holds, n: usize) -> usize
    requires { n < 2 ^ 32 }
    ensures { result ≡ past_of holds n }
{
    match holds {
        Holds::Fields => n,
        Holds::Properties => n + 8,
    }
}

// Whether key and flags are still to be told before a pod.
pub fn due(holds: Holds, keyed: bool) -> bool
    ensures { result ≡ is_due keyed holds }
{
    match holds {
        Holds::Fields => false,
        Holds::Properties => !keyed,
    }
}

impl Frame {
    // Lowers what is left by `n`, and not below 0.
    fn charge(&mut self, n: usize)
        ensures { self.new ≡ spent n self.old }
    {
        self.remaining = self.remaining.saturating_sub(n);
    }
}

impl Open {
    pub fn new() -> Self
        ensures { result ≡ [] }
    {
        Open {
            frames: [Frame {
                holds: Holds::Fields,
                remaining: 0,
            }; 32],
            len: 0,
        }
    }

    // A copy of the innermost container.
    pub fn innermost(&self) -> Option<Frame>
        ensures { result ≡ innermost_of self.now }
    {
        let last = self.len.checked_sub(1)?;
        Some(self.frames[last])
    }

    // What the innermost container holds; outside all of them a field stands.
    pub fn holding(&self) -> Holds
        ensures { result ≡ holding_of self.now }
    {
        match self.innermost() {
            Some(frame) => frame.holds,
            None => Holds::Fields,
        }
    }

    // The innermost container, if there is one, is lent, and lowered in place.
    pub fn charge(&mut self, n: usize)
        ensures { self.new ≡ charged n self.old }
    {
        if self.len > 0 {
            let last = self.len - 1;
            let innermost = &mut self.frames[last];
            innermost.charge(n);
        }
    }

    // Opens a container, unless 32 are open.
    pub fn push(&mut self, frame: Frame)
        ensures { self.new ≡ pushed frame self.old }
    {
        if self.len < 32 {
            self.frames[self.len] = frame;
            self.len += 1;
        }
    }

    // Closes the innermost container.
    pub fn pop(&mut self)
        ensures { self.new ≡ outward self.old }
    {
        self.len = self.len.saturating_sub(1);
    }
}
