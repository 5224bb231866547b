// The hash of a chunk file.
ghost use Rattle.std.specs.Prelude.{◌≡◌, IfOk};
ghost use Rattle.chunk_files.specs.Chunks.{hash_of};

use pk_types::Text;
use sha2::{Digest, Sha256};
use std::alloc::{AllocError, Global};

/// The hash by which an entry file names a chunk file.
pub fn hash8(alloc: Global, bytes: &[u8]) -> Result<Text, AllocError>
    ensures { IfOk result (λ text. text ≡ hash_of bytes.now) }
{
    let digits = hex::encode(alloc, &Sha256::digest(bytes))?;
    Text::from_slice(alloc, &digits.as_bytes()[..8])
}
