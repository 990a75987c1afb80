// Lays words.
ghost use Rattle.std.specs.Prelude.{◌≡◌, Some};
ghost use Rattle.settable.specs.Laying.{lay_answer, lay_body};

use kinds::Kind;
use refusals::Why;

// Lays the bytes of a kind's word at the front of `body`, or refuses a body that is too short and leaves it.
pub fn lay(kind: Kind, word: u64, body: &mut [u8]) -> Result<(), Why>
    ensures answer { result ≡ lay_answer kind (Some word) body.old }
    ensures after { body.new ≡ lay_body kind (Some word) body.old }
{
    let size = kind.size();
    if body.len() < size {
        return Err(Why::Missing);
    }
    let bytes = word.to_le_bytes();
    // Each size by its own copy, which is then one store; a kind of no bytes lays none.
    match size {
        4 => body[..4].copy_from_slice(&bytes[..4]),
        8 => body[..8].copy_from_slice(&bytes),
        _ => {}
    }
    Ok(())
}

// The same of a value's word, which is refused where there is none.
pub fn lay_value(kind: Kind, word: Option<u64>, body: &mut [u8]) -> Result<(), Why>
    ensures answer { result ≡ lay_answer kind word body.old }
    ensures after { body.new ≡ lay_body kind word body.old }
{
    let word = word.ok_or(Why::NotANumber)?;
    lay(kind, word, body)
}
