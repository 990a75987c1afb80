// What is told to.
ghost use Rattle.std.specs.Prelude.{◌≡◌, List, []};
ghost use Rattle.std.specs.Borrow.{GName};
ghost use Rattle.tours.specs.Told.{Thing, thing};
ghost use Rattle.tours.specs.Lead.{Kept, Rule};

use crate::told::Told;

// Is told one thing at a time. Its meaning is what it holds and a rule: from what it holds and one told thing, what it then
// holds, or a number of its own. A refusal changes it in nothing.
// Kept: what a visitor refuses with is a number, as its trait is for any visitor and each has reasons of its own.
pub trait Visitor {
    ghost Held: { Type 0 };

    ghost held: { Self → Held };

    ghost rule: { Rule Held };

    // The memory that is lent to it, by the names of its references.
    // Kept: each call that leads a visitor says that this stays, since an invariant cannot speak of the value before.
    ghost lent: { Self → List GName } = { λ _. [] };

    fn visit(&mut self, told: Told<'_>) -> Result<(), u32>
        ensures does { Kept (rule (held self.old) (thing told.entry)) result (held self.old) (held self.new) }
        ensures keeps { lent self.new ≡ lent self.old };
}
