// The bodies of pods that hold no pods: how many bytes they take, or why they are refused.
ghost use Rattle.std.specs.Prelude.{◌≡◌};
ghost use Rattle.pods.specs.Leaves.{array_body, choice_body, fixed_body, leaf_body, pointer_body, raw_body, text_body};
ghost use Rattle.pods.specs.Outcomes.{taken, sized};
ghost use Rattle.pods.specs.Types.{type_number};

use crate::body::Body;
use crate::choices::ChoiceType;
use crate::types::PodType;
use kinds::Kind;
use refusals::{Refusal, Why};
use words::{padded, two_words};

impl Body<'_> {
    // The body of a pod of a type; a container is no leaf.
    #[tactic(auto, using(crate::proofs::Bodies::leaf_fixed), unfolding(crate::specs::Leaves::leaf_body, kinds::specs::Kinds::kind_of))]
    pub fn leaf(self, kind: PodType) -> Result<usize, Refusal>
        ensures { taken result ≡ sized (leaf_body self.entry.len (type_number kind) self.entry.spot self.entry.rest.now) }
    {
        match kind {
            PodType::Fixed(kind) => self.fixed(kind),
            PodType::Text => self.text(),
            PodType::Raw => self.raw(),
            PodType::Array => self.array(),
            PodType::Pointer => self.pointer(),
            PodType::Choice => self.choice(),
            PodType::Struct | PodType::Object => Err(self.spot.refuse(Why::UnknownType)),
        }
    }

    // A kind of fixed size, whatever length its header declares.
    fn fixed(self, kind: Kind) -> Result<usize, Refusal>
        ensures { taken result ≡ sized (fixed_body kind self.entry.spot self.entry.rest.now) }
    {
        padded(self.rest, kind.size()).ok_or(self.spot.refuse(Why::Missing))
    }

    // A text, whose last byte is zero.
    fn text(self) -> Result<usize, Refusal>
        ensures { taken result ≡ sized (text_body self.entry.len self.entry.spot self.entry.rest.now) }
    {
        let Body { len, rest, spot } = self;
        if len == 0 {
            return Err(spot.refuse(Why::TooShort));
        }
        if rest.len() < len {
            return Err(spot.refuse(Why::Missing));
        }
        if rest[len - 1] != 0 {
            return Err(spot.refuse(Why::NoClosingZero));
        }
        if !utf8::check(&rest[0..len - 1]) {
            return Err(spot.refuse(Why::NotUtf8));
        }
        self.raw()
    }

    fn raw(self) -> Result<usize, Refusal>
        ensures { taken result ≡ sized (raw_body self.entry.len self.entry.spot self.entry.rest.now) }
    {
        padded(self.rest, self.len).ok_or(self.spot.refuse(Why::Missing))
    }

    // The child's size and type, and its values.
    fn array(self) -> Result<usize, Refusal>
        ensures { taken result ≡ sized (array_body self.entry.len self.entry.spot self.entry.rest.now) }
    {
        let Body { len, rest, spot } = self;
        let Some(head) = two_words(rest) else {
            return Err(spot.refuse(Why::Missing));
        };
        let child = Kind::try_from(head.second).map_err(|why| spot.refuse(why))?;
        let size = child.size();
        if head.first as usize != size {
            return Err(spot.refuse(Why::ChildSize));
        }
        if size == 0 {
            return Ok(8);
        }
        if len < 8 {
            return Err(spot.refuse(Why::TooShort));
        }
        let Some(used) = padded(head.rest, (len - 8) / size * size) else {
            return Err(spot.refuse(Why::Missing));
        };
        Ok(used + 8)
    }

    // Choice type, flags, and the child's size and type; then its values, each in the size of its kind.
    fn choice(self) -> Result<usize, Refusal>
        ensures { taken result ≡ sized (choice_body self.entry.len self.entry.spot self.entry.rest.now) }
    {
        let Body { len, rest, spot } = self;
        let Some(head) = two_words(rest) else {
            return Err(spot.refuse(Why::Missing));
        };
        let Some(declared) = two_words(head.rest) else {
            return Err(spot.refuse(Why::Missing));
        };
        if len < 16 {
            return Err(spot.refuse(Why::TooShort));
        }
        if declared.first == 0 {
            return Err(spot.refuse(Why::NoChildSize));
        }
        let child = Kind::try_from(declared.second).map_err(|why| spot.refuse(why))?;
        let size = child.size();
        if size == 0 {
            return Err(spot.refuse(Why::UnknownType));
        }
        let count = (len - 16) / declared.first as usize;
        let Some(used) = padded(declared.rest, count * size) else {
            return Err(spot.refuse(Why::Missing));
        };
        let choice = ChoiceType::try_from(head.first).map_err(|why| spot.refuse(why))?;
        if count < choice.needed() {
            return Err(spot.refuse(Why::TooFewValues));
        }
        Ok(used + 16)
    }

    // The pointer's type and four spare bytes, and eight bytes for the pointer.
    fn pointer(self) -> Result<usize, Refusal>
        ensures { taken result ≡ sized (pointer_body self.entry.len self.entry.spot self.entry.rest.now) }
    {
        let Body { len, rest, spot } = self;
        if rest.len() < 8 {
            return Err(spot.refuse(Why::Missing));
        }
        if len < 8 {
            return Err(spot.refuse(Why::TooShort));
        }
        if len != 16 && len != 12 {
            return Err(spot.refuse(Why::PointerLength));
        }
        if rest.len() < 16 {
            return Err(spot.refuse(Why::Missing));
        }
        Ok(16)
    }
}
