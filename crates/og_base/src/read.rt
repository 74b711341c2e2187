ghost use Rattle.std.specs.Prelude.{◌≡◌, ℕ, ◌≤◌, ◌<◌, List, length, IfOk, IfSome, IsErrOf};
ghost use Rattle.og_base.specs.Store.{Rose, Holds, HoldsMore};

use crate::{Failed, Store};
use og_names::NoMemory;
use std::alloc::{AllocError, Global};
use thiserror::Error;

/// Why a file could not be read whole.
#[derive(Clone, Copy, Debug, PartialEq, Eq, Error)]
pub enum ReadError {
    #[error("the file could not be read")]
    Fault,
    #[error("the file is too large")]
    TooLarge,
    #[error("memory could not be had")]
    NoMemory(NoMemory),
}

/// How many bytes are asked for at once.
const PIECE: usize = 65536;

/// Room for this many bytes.
fn make_room(alloc: Global, count: usize) -> Result<Vec<u8>, AllocError>
    requires { 0 < count }
    ensures { IfOk result (λ v. 0 < length v.items) }
{
    vec![in alloc; 0u8; count]
}

/// Reads the whole file of this name, at most `limit` bytes of it.
pub fn read_all<S: Store>(
    alloc: Global,
    store: &mut S,
    name: &str,
    limit: u64,
) -> Result<Vec<u8>, ReadError>
    ensures whole { IfOk result (λ v. Holds (S.holds store.old) name.now v.items) }
    ensures small { IfOk result (λ v. length v.items ≤ limit) }
    ensures fault { IsErrOf result ReadError.Fault → Rose (S.faults store.old name.now) (S.faults store.new name.now) }
    ensures too_large { IsErrOf result ReadError.TooLarge → HoldsMore (S.holds store.old) name.now limit }
    ensures counts { (other : List ℕ) → S.faults store.old other ≤ S.faults store.new other }
    ensures kept { S.holds store.new ≡ S.holds store.old }
{
    let mut all = Vec::new(alloc);
    let mut piece = make_room(alloc, PIECE)?;
    while all.len() as u64 <= limit {
        let at = all.len() as u64;
        let Ok(count) = store.read(name, at, &mut piece) else {
            return Err(ReadError::Fault);
        };
        if count == 0 {
            return Ok(all);
        }
        let (front, _) = piece.split_at(count);
        all.extend_from_slice(front)?;
    }
    Err(ReadError::TooLarge)
}
