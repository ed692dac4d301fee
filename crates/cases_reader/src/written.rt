//! Texts as rows write them: any bytes in one line.
//! Proved safe by the checker alone.

use std::alloc::{AllocError, Global};

/// The value of a hexadecimal digit.
fn digit(byte: u8) -> Option<u8> {
    let value = char::from(byte).to_digit(16)?;
    u8::try_from(value).ok()
}

/// The bytes that a row writes: `$` and two hexadecimal digits write one byte, and any other byte
/// writes itself. `None` where two digits are missing.
pub fn bytes_of(alloc: Global, row: &str) -> Result<Option<Vec<u8>>, AllocError> {
    let mut bytes = Vec::new(alloc);
    let is_written = push_written(&mut bytes, row)?;
    Ok(if is_written { Some(bytes) } else { None })
}

/// Adds what a row writes; false where two digits are missing.
fn push_written(bytes: &mut Vec<u8>, row: &str) -> Result<bool, AllocError> {
    let mut pieces = row.split('$');
    if let Some(first) = pieces.next() {
        bytes.extend_from_slice(first.as_bytes())?;
    }
    for piece in pieces {
        if !push_piece(bytes, piece.as_bytes())? {
            return Ok(false);
        }
    }
    Ok(true)
}

/// Adds what stands behind a `$`; false where two digits are missing.
fn push_piece(bytes: &mut Vec<u8>, piece: &[u8]) -> Result<bool, AllocError> {
    let [high, low, behind @ ..] = piece else {
        return Ok(false);
    };
    let (Some(high), Some(low)) = (digit(*high), digit(*low)) else {
        return Ok(false);
    };
    bytes.push((high & 15) << 4 | (low & 15))?;
    bytes.extend_from_slice(behind)?;
    Ok(true)
}
