// Looks for the pod of a property.
ghost use Rattle.std.specs.Prelude.{◌≡◌};
ghost use Rattle.tours.specs.declared.seek.Search.TheVariants.{Looking};
ghost use Rattle.tours.specs.declared.seek.Seek.{Seek as Sought};
ghost use Rattle.tours.specs.Seeks.{seeks};

use crate::told::Told;
use crate::visitor::Visitor;

#[derive(Clone, Copy, Debug, PartialEq, Eq)]
pub enum Search {
    Looking,
    // the next pod is the one
    Due,
    // with its place
    Found(u32),
}

// Looks, in the outermost container, for the property with the wanted key; counts the containers that are open.
#[derive(Clone, Copy, Debug, PartialEq, Eq)]
pub struct Seek {
    pub wanted: u32,
    pub opened: u32,
    pub search: Search,
}

impl Visitor for Seek {
    ghost Held = { Sought };

    ghost held = { λ s. s };

    ghost rule = { seeks };

    fn visit(&mut self, told: Told<'_>) -> Result<(), u32> {
        match (self.search, told) {
            (Search::Looking, Told::Property { key, .. })
                if self.opened == 1 && key == self.wanted => {
                self.search = Search::Due;
            }
            (Search::Due, Told::StructOpen { place, .. } | Told::ObjectOpen { place, .. }) => {
                self.search = Search::Found(place);
                self.opened = self.opened.saturating_add(1);
            }
            (
                Search::Due,
                Told::Fixed { place, .. }
                | Told::Text { place, .. }
                | Told::Raw { place, .. }
                | Told::ArrayOf { place, .. }
                | Told::ChoiceOf { place, .. }
                | Told::Pointer { place, .. },
            ) => {
                self.search = Search::Found(place);
            }
            (_, Told::StructOpen { .. } | Told::ObjectOpen { .. }) => {
                self.opened = self.opened.saturating_add(1);
            }
            (_, Told::End) => {
                self.opened = self.opened.saturating_sub(1);
            }
            _ => {}
        }
        Ok(())
    }
}

impl Seek {
    // Looks for a key, from before a cue is told.
    pub fn new(wanted: u32) -> Self
        ensures { result ≡ record { wanted = wanted; opened = 0; search = Looking } }
    {
        Seek {
            wanted,
            opened: 0,
            search: Search::Looking,
        }
    }
}
