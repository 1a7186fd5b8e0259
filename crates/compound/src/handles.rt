// The handles of a compound, and a handle as it stands in a request: four bytes, the file's number.
ghost use Rattle.std.specs.Prelude.{◌≡◌, eqb, length, is_some, IfSome};
ghost use Rattle.xdr.specs.Decode.{value};

use xdr::Reader;

/// The current and the saved file.
#[derive(Clone, Copy, Debug, PartialEq, Eq)]
pub struct Handles {
    pub current: Option<usize>,
    pub saved: Option<usize>,
}

/// The file that a handle names; none where it has not four bytes.
pub fn handle_file(handle: &[u8]) -> Option<usize>
    ensures fits { is_some result ≡ eqb (length handle.now) 4 }
    ensures file { IfSome result (λ f. f ≡ value handle.now) }
{
    if handle.len() != 4 {
        return None;
    }
    Some(Reader::new(handle).u32()? as usize)
}
