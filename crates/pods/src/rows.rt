// One pod of a cue, as a row of a table; what a pod does not have is 0.
// Kept: all fields are numbers, a rule for the table, which others than the survey may fill with any.
#[derive(Clone, Copy, Debug, Default, PartialEq, Eq)]
pub struct Row {
    // where its header stands
    pub place: u32,
    // its bytes, with header and padding
    pub total: u32,
    // its type
    pub kind: u32,
    // the type of its values, in an array or choice
    pub child: u32,
    // its container's row and one more
    pub parent: u32,
    // those of its property
    pub key: u32,
    pub flags: u32,
    // 1 if this property or one around it is read-only
    pub locked: u32,
    // its values, or bytes of text or raw data, else 1
    pub count: u32,
    // the type of a choice or pointer
    pub side: u32,
    // the flags of a choice
    pub bits: u32,
    // its word, a choice's default, a pointer, or an object's type and id
    pub word: u64,
}
