// The body of a pod.
ghost use Rattle.std.specs.Prelude.{◌^◌, ◌<◌};

use refusals::Spot;

// The bytes `rest` after the header of the pod at `spot`, of which the header declares `len` to be its body.
#[derive(Clone, Copy)]
pub struct Body<'a> {
    pub len: usize,
    pub rest: &'a [u8],
    pub spot: Spot,
    ghost word: { len < 2 ^ 32 },
}
