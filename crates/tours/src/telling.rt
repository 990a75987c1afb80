// Telling to a visitor.
ghost use Rattle.std.specs.Prelude.{◌≡◌, List, [], ◌∷◌};
ghost use Rattle.std.specs.Iterator.{AlwaysYields, IsFinite};
ghost use Rattle.tours.specs.Told.{Thing, thing};
ghost use Rattle.tours.specs.Lead.{Ends, lead, lead_from};

use crate::told::Told;
use crate::visitor::Visitor;

// Tells one thing after `count` others; answers how many were told then, counted up to the largest number of 64 bits.
fn tell<V: Visitor>(told: Told<'_>, to: &mut V, count: usize) -> Result<usize, u32>
    ensures keeps { V.lent to.new ≡ V.lent to.old }
    ensures leads { Ends (lead_from V.rule count (V.held to.old) (thing told.entry ∷ [])) result (V.held to.new) }
{
    to.visit(told)?;
    Ok(count.saturating_add(1))
}

// Tells all, up to the visitor's first refusal; answers how many things were told, counted up to the largest number of 64 bits.
pub fn tell_all<'a, I: Iterator<Item = Told<'a>>, V: Visitor>(
    things: I,
    to: &mut V,
) -> Result<usize, u32>
    requires can { I.can_next things }
    requires ends { IsFinite (I.remaining things) }
    ensures keeps { V.lent to.new ≡ V.lent to.old }
    ensures leads { (ts : List Thing) → AlwaysYields I.next_gives thing things ts → Ends (lead V.rule (V.held to.old) ts) result (V.held to.new) }
{
    let mut count: usize = 0;
    for told in things {
        count = tell(told, to, count)?;
    }
    Ok(count)
}
