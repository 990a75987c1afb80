// Parts of the bytes.
ghost use Rattle.std.specs.Prelude.{◌≡◌};
ghost use Rattle.tours.specs.RowsTold.{part as part_of};

// `n` bytes from a place on, as far as they are there.
pub fn part(bytes: &[u8], from: usize, n: usize) -> &[u8]
    ensures { result.now ≡ part_of n from bytes.now }
{
    let rest = bytes.get(from..).unwrap_or_default();
    &rest[..n.min(rest.len())]
}
