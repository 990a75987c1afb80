// The classes of lead bytes.
ghost use Rattle.std.specs.Prelude.{◌≡◌, true};
ghost use Rattle.utf8.specs.Reading.{class_of, followers_of, right_from};

// The class of each byte: how many bytes follow it, or 4 where no sequence begins with it.
// Kept: a rule of the project, that lead bytes are told apart by a constant table of 256 numbers.
const LEAD: [u8; 256] = [
    0, 0, 0, 0, 0, 0, 0, 0, 0, 0, 0, 0, 0, 0, 0, 0, 0, 0, 0, 0, 0, 0, 0, 0, 0, 0, 0, 0, 0, 0, 0, 0,
    0, 0, 0, 0, 0, 0, 0, 0, 0, 0, 0, 0, 0, 0, 0, 0, 0, 0, 0, 0, 0, 0, 0, 0, 0, 0, 0, 0, 0, 0, 0, 0,
    0, 0, 0, 0, 0, 0, 0, 0, 0, 0, 0, 0, 0, 0, 0, 0, 0, 0, 0, 0, 0, 0, 0, 0, 0, 0, 0, 0, 0, 0, 0, 0,
    0, 0, 0, 0, 0, 0, 0, 0, 0, 0, 0, 0, 0, 0, 0, 0, 0, 0, 0, 0, 0, 0, 0, 0, 0, 0, 0, 0, 0, 0, 0, 0, // Up to 0x7f.
    4, 4, 4, 4, 4, 4, 4, 4, 4, 4, 4, 4, 4, 4, 4, 4, 4, 4, 4, 4, 4, 4, 4, 4, 4, 4, 4, 4, 4, 4, 4, 4,
    4, 4, 4, 4, 4, 4, 4, 4, 4, 4, 4, 4, 4, 4, 4, 4, 4, 4, 4, 4, 4, 4, 4, 4, 4, 4, 4, 4, 4, 4, 4, 4,
    4, 4, // Up to 0xc1.
    1, 1, 1, 1, 1, 1, 1, 1, 1, 1, 1, 1, 1, 1, 1, 1, 1, 1, 1, 1, 1, 1, 1, 1, 1, 1, 1, 1, 1, 1, // Up to 0xdf.
    2, 2, 2, 2, 2, 2, 2, 2, 2, 2, 2, 2, 2, 2, 2, 2, // Up to 0xef.
    3, 3, 3, 3, 3, // Up to 0xf4.
    4, 4, 4, 4, 4, 4, 4, 4, 4, 4, 4, // Up to 0xff.
];

// The class of `lead`, from a table in which each entry is the class of its place.
#[tactic(auto, using(crate::proofs::Classes::entry))]
fn class_in(classes: &[u8; 256], lead: u8) -> u8
    requires { right_from 0 classes.now ≡ true }
    ensures { result ≡ class_of lead }
{
    classes[lead as usize]
}

// How many bytes follow `lead`, or `None` where no sequence begins with it.
pub fn followers(lead: u8) -> Option<u8>
    ensures { result ≡ followers_of lead }
{
    let class = class_in(&LEAD, lead);
    (class < 4).then_some(class)
}
