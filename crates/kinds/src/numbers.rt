// Numbers at the front of a body.
ghost use Rattle.std.specs.Prelude.{◌≡◌};
ghost use Rattle.kinds.specs.Bodies.{front_read, number_read};

use refusals::Why;

// The bytes at the front of `body`.
fn front<const N: usize>(body: &[u8]) -> Result<[u8; N], Why>
    ensures { result ≡ front_read N body.now }
{
    body.first_chunk().copied().ok_or(Why::Missing)
}

// The 32-bit number at the front of `body`.
// Kept: `from_le_bytes` of two types has no trait above it, so a trait of our own would say each of these two again.
pub fn number32(body: &[u8]) -> Result<u32, Why>
    ensures { result ≡ number_read 4 body.now }
{
    front(body).map(u32::from_le_bytes)
}

// The 64-bit number at the front of `body`.
pub fn number64(body: &[u8]) -> Result<u64, Why>
    ensures { result ≡ number_read 8 body.now }
{
    front(body).map(u64::from_le_bytes)
}
