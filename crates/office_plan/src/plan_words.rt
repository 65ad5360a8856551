//! A line taken apart into words at its spaces.
ghost use Rattle.std.specs.Prelude.{◌≡◌, ◌==◌, map, IfOk};
ghost use Rattle.std.specs.List.{slice_split};

use std::alloc::{AllocError, Global};

/// The words of a line, parted by one space each; two spaces in a row have an empty word between
/// them, and a line of no byte is one empty word.
pub fn words_of<'a>(alloc: Global, line: &'a str) -> Result<Vec<&'a str>, AllocError>
    ensures { IfOk result
        (λ words. map (λ word. word.now) words.items ≡ slice_split (λ byte. byte == 32) line.now) }
{
    line.split(' ').collect(alloc)
}
