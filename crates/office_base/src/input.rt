//! All bytes of a reader.
ghost use Rattle.std.specs.Prelude.{◌≡◌, IfOk, IfSome, OnOk};
ghost use Rattle.std.specs.Io.KnownBytes.{IsAtEnd};

use crate::Stop;
use std::alloc::Global;
use std::io::Read;

/// All bytes that the reader has left. It stops by `Memory` where there is none for the bytes, or
/// where the reader itself answered an error of the kind `OutOfMemory`, and by `Io` at any other
/// error. The bytes that were read before are then lost.
pub fn read_whole<R: Read>(alloc: Global, reader: &mut R) -> Result<Vec<u8>, Stop>
    ensures all { IfOk result
        (λ all. IfSome (R.remaining reader.old) (λ bytes. all.items ≡ bytes)) }
    ensures end { OnOk result (IsAtEnd (R.remaining reader.new)) }
{
    let mut all = Vec::new(alloc);
    reader.read_to_end(&mut all)?;
    Ok(all)
}
