// Pods in containers in pods: reading a pod and reading a container lead into each other.
ghost use Rattle.std.specs.Prelude.{◌≡◌, ℕ, ◌+◌, ◌-◌, ◌*◌, ◌^◌, ◌<◌, ◌≤◌, length, IfOk, MatchResult, nat_lt};
ghost use Rattle.pods.specs.Trees.{count, counts};
ghost use Rattle.pods.specs.Outcomes.{mapped, refused, taken};
ghost use Rattle.pods.specs.Pods.{ahead, items, pod as pod_of};
ghost use Rattle.pods.specs.Survey.{answered, Remains, survey_of};

use crate::body::Body;
use crate::holding::Holds;
use crate::types::PodType;
use refusals::{Refusal, Spot, Why};
use words::two_words;

// The most bytes that a cue may have, and the most depths.
const LIMIT: usize = 65_536;

const ROOM: u32 = 32;

// How many rows a cue has, one for each pod, and how many bytes it uses.
#[derive(Clone, Copy, Debug, PartialEq, Eq)]
pub struct Surveyed {
    pub rows: usize,
    pub used: usize,
}

// The rows and bytes of the cue at the front of `bytes`, or why and where it is refused.
pub fn survey(bytes: &[u8]) -> Result<Surveyed, Refusal>
    ensures answer { answered result ≡ survey_of bytes.now }
    ensures within { IfOk result (λ s. (s.used ≤ length bytes.now) × (8 * s.rows ≤ s.used)) }
{
    if too_long(bytes) {
        return Err(Spot::OUTERMOST.refuse(Why::TooLong));
    }
    pod(bytes, 0, ROOM)
}

// Whether there are more bytes than a cue may have.
fn too_long(bytes: &[u8]) -> bool
    ensures { result ≡ nat_lt 65536 (length bytes.now) }
{
    bytes.len() > LIMIT
}

// What is left of `bytes` after the cue at their front.
pub fn remaining(bytes: &[u8]) -> Result<&[u8], Refusal>
    ensures { MatchResult result (λ left. Remains bytes.now (survey_of bytes.now) left.now) (λ e. survey_of bytes.now ≡ refused e) }
{
    let Surveyed { used, .. } = survey(bytes)?;
    Ok(&bytes[used..])
}

// The pod at the front of `input`, whose header stands at `place`; `room` depths are left.
#[cycle(container_pod)]
fn pod(input: &[u8], place: usize, room: u32) -> Result<Surveyed, Refusal>
    requires shallow { room ≤ 32 }
    requires short { place + length input.now < 2 ^ 64 }
    ensures { answered result ≡ mapped count (pod_of room (33 - room) place input.now) }
{
    let spot = Spot {
        place,
        depth: ROOM + 1 - room,
    };
    if room == 0 {
        return Err(spot.refuse(Why::TooDeep));
    }
    let Some(head) = two_words(input) else {
        return Err(spot.refuse(Why::Missing));
    };
    let len = head.first as usize;
    match PodType::try_from(head.second).map_err(|why| spot.refuse(why))? {
        PodType::Struct => {
            let held = container(Holds::Fields, head.rest, len, place + 8, spot, room - 1)?;
            Ok(Surveyed {
                rows: held.rows + 1,
                used: held.used + 8,
            })
        }
        PodType::Object => {
            let Some(named) = two_words(head.rest) else {
                return Err(spot.refuse(Why::Missing));
            };
            if len < 8 {
                return Err(spot.refuse(Why::TooShort));
            }
            let held = container(
                Holds::Properties,
                named.rest,
                len - 8,
                place + 16,
                spot,
                room - 1,
            )?;
            Ok(Surveyed {
                rows: held.rows + 1,
                used: held.used + 16,
            })
        }
        kind => {
            let body = Body {
                len,
                rest: head.rest,
                spot,
            };
            let used = body.leaf(kind)?;
            Ok(Surveyed {
                rows: 1,
                used: used + 8,
            })
        }
    }
}

// What the container at `spot` holds, from the place `from` on, until `len` bytes of `input` are used.
// Kept: with a `Body` in place of three parameters the survey of a small cue takes a fifteenth more instructions.
#[cycle(container_pod)]
fn container(
    holds: Holds,
    input: &[u8],
    len: usize,
    from: usize,
    spot: Spot,
    room: u32,
) -> Result<Surveyed, Refusal>
    requires shallow { room ≤ 32 }
    requires short { from + length input.now < 2 ^ 64 }
    ensures { answered result ≡ mapped counts (items holds (pod_of room (33 - room)) spot len len from input.now) }
{
    let mut rows = 0;
    let mut used = 0;
    // Kept: how far a turn goes is what `pod` answers, so that no iterator gives the places.
    while used < len {
        let keyed = key_and_flags(holds, &input[used..], spot)?;
        let start = used + keyed;
        let next = pod(&input[start..], from + start, room)?;
        if exceeds(next.used + keyed, len - used) {
            return Err(spot.refuse(Why::PastContainer));
        }
        rows += next.rows;
        used = start + next.used;
    }
    Ok(Surveyed { rows, used })
}

// Whether what takes `used` bytes is longer than the bytes that are left.
fn exceeds(used: usize, left: usize) -> bool
    ensures { result ≡ nat_lt left used }
{
    used > left
}

// The bytes of the key and flags at the front of `input`, which stand before the pods of an object.
fn key_and_flags(holds: Holds, input: &[u8], spot: Spot) -> Result<usize, Refusal>
    ensures { taken result ≡ ahead holds spot input.now }
{
    match holds {
        Holds::Fields => Ok(0),
        Holds::Properties => {
            if input.len() < 8 {
                return Err(spot.refuse(Why::Missing));
            }
            Ok(8)
        }
    }
}
