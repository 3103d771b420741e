//! Bytes in hexadecimal.
ghost use Rattle.std.specs.Prelude.{◌≡◌, IfOk, vec_items};
ghost use Rattle.std.specs.Option.{option_map};
ghost use Rattle.drafts.specs.Hex.{digit_of, byte_of, bytes_of};

use std::alloc::{AllocError, Global};

/// The value of a hexadecimal digit, in small or capital letters.
fn digit_of(byte: u8) -> Option<u8>
    ensures { result ≡ digit_of byte }
{
    char::from(byte).to_digit(16).map(|digit| digit as u8)
}

/// The byte of two digits, the high one first.
fn byte_of(high: u8, low: u8) -> Option<u8>
    ensures { result ≡ byte_of (digit_of high) (digit_of low) }
{
    let high = digit_of(high)?;
    let low = digit_of(low)?;
    Some(16 * high + low)
}

/// The bytes that pairs of digits are; `None` where a digit is wrong or has no other.
// An Option in the Result: no memory is an error of the call, and no digits is an answer.
pub fn hex_bytes(heap: Global, text: &[u8]) -> Result<Option<Vec<u8>>, AllocError>
    ensures { IfOk result (λ o. option_map vec_items o ≡ bytes_of text.now) }
{
    // The library's crate `hex` decodes too, but has this module's name, and want of memory is one of its own errors: each would be sorted here into `AllocError` or none.
    let mut bytes = Vec::new(heap);
    for pair in text.chunks(2) {
        let [high, low] = pair else {
            return Ok(None);
        };
        let Some(byte) = byte_of(*high, *low) else {
            return Ok(None);
        };
        bytes.push(byte)?;
    }
    Ok(Some(bytes))
}
