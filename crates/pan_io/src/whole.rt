//! Whole books of a shelf.

ghost use Rattle.std.specs.Prelude.{◌≡◌, ℕ, ◌≤◌, ◌<◌, vec_len, true, false, Ok, Err, IfOk};
ghost use Rattle.std.specs.Io.KnownBytes.{IsAtEnd};
ghost use Rattle.pan_io.specs.Books.{RoseAtOpen};
ghost use Rattle.pan_io.specs.Faults.{Rose};
ghost use Rattle.pan_io.specs.Whole.{IsBook, IsLongBook, GoesOn, IsTooLong};

use crate::shelf::Shelf;
use std::alloc::{AllocError, Global};

/// How many bytes are asked for at a time.
const CHUNK: usize = 8192;

/// Why a book was not read.
#[derive(Debug, Clone, Copy, PartialEq, Eq, Drop)]
pub enum Unread {
    /// The shelf failed.
    Failed,
    /// The book has more bytes than were asked for at most.
    TooLong,
    /// Memory ran out.
    Memory,
}

impl From<AllocError> for Unread {
    ghost use Rattle.pan_io.specs.declared.whole.Unread.TheVariants.{Memory};

    ghost from_gives = { λ _ e. e ≡ Memory };

    fn from(_e: AllocError) -> Unread {
        Unread::Memory
    }
}

/// Reads the book of a name from its first byte to its end.
///
/// `Failed` comes only where the shelf's count of faults rose, or where the shelf tells its books
/// and none has the name; `TooLong` where the book has more than `most` bytes; `Memory` for want of
/// memory alone.
pub fn read_book<H: Shelf>(
    alloc: Global,
    shelf: &mut H,
    name: &str,
    most: u64,
) -> Result<Vec<u8>, Unread>
    ensures book { IfOk result (λ v. IsBook (H.books shelf.old) name.now v.items × (vec_len v ≤ most)) }
    ensures long { result ≡ Err Unread.TooLong → IsLongBook (H.books shelf.old) name.now most }
    ensures books { H.books shelf.new ≡ H.books shelf.old }
    ensures later { H.faults shelf.old ≤ H.faults shelf.new }
    ensures cause { result ≡ Err Unread.Failed → RoseAtOpen (H.books shelf.old) name.now (H.faults shelf.old) (H.faults shelf.new) }
{
    let Ok(_opened) = shelf.open(name) else {
        return Err(Unread::Failed);
    };
    let mut chunk = vec![in alloc; 0; CHUNK]?;
    let mut bytes = Vec::new(alloc);
    'parts: loop {
        if !take_part(shelf, &mut chunk, &mut bytes, most)? {
            return Ok(bytes);
        }
    }
}

/// Takes a further part of the open book behind the bytes that were read of it, and says whether
/// the book may go on.
fn take_part<H: Shelf>(
    shelf: &mut H,
    chunk: &mut Vec<u8>,
    bytes: &mut Vec<u8>,
    most: u64,
) -> Result<bool, Unread>
    requires opened { H.is_open shelf.old ≡ true }
    requires chunk { 0 < vec_len chunk.old }
    requires short { vec_len bytes.old ≤ most }
    ensures part { IfOk result (λ more. GoesOn (H.left shelf.old) (H.left shelf.new) bytes.old.items bytes.new.items) }
    ensures longer { result ≡ Ok true → vec_len bytes.old < vec_len bytes.new }
    ensures whole { result ≡ Ok false → IsAtEnd (H.left shelf.new) }
    ensures short { IfOk result (λ more. vec_len bytes.new ≤ most) }
    ensures long { result ≡ Err Unread.TooLong → IsTooLong (H.left shelf.old) bytes.old.items most }
    ensures stays { IfOk result (λ more. H.is_open shelf.new ≡ true) }
    ensures chunk { vec_len chunk.new ≡ vec_len chunk.old }
    ensures books { H.books shelf.new ≡ H.books shelf.old }
    ensures later { H.faults shelf.old ≤ H.faults shelf.new }
    ensures cause { result ≡ Err Unread.Failed → Rose (H.faults shelf.old) (H.faults shelf.new) }
{
    let Ok(count) = shelf.take(chunk) else {
        return Err(Unread::Failed);
    };
    if count == 0 {
        return Ok(false);
    }
    if count as u64 > most - bytes.len() as u64 {
        return Err(Unread::TooLong);
    }
    bytes.extend_from_slice(&chunk[..count])?;
    Ok(true)
}
