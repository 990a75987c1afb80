// One thing that a cue tells; types are numbers, and text (without its closing zero) and raw bytes are parts of the cue.
// Kept: a type is a number and no `PodType`, since rows that no survey gave may have any number; an element's type is a
// number too, so that all told types are of one sort.
#[derive(Clone, Copy)]
pub enum Told<'a> {
    Fixed {
        place: u32,
        total: u32,
        kind: u32,
        word: u64,
    },
    Text {
        place: u32,
        total: u32,
        part: &'a [u8],
    },
    Raw {
        place: u32,
        total: u32,
        part: &'a [u8],
    },
    ArrayOf {
        place: u32,
        total: u32,
        child: u32,
        count: u32,
    },
    ChoiceOf {
        place: u32,
        total: u32,
        child: u32,
        choice: u32,
        flags: u32,
        count: u32,
        default: u64,
    },
    Pointer {
        place: u32,
        total: u32,
        kind: u32,
        word: u64,
    },
    StructOpen {
        place: u32,
        total: u32,
    },
    ObjectOpen {
        place: u32,
        total: u32,
        kind: u32,
        id: u32,
    },
    // one value of the array or choice told before
    Element {
        kind: u32,
        word: u64,
    },
    // of the pod that is told next
    Property {
        key: u32,
        flags: u32,
    },
    // of the innermost open container
    End,
}
