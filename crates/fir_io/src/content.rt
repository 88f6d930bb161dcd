//! Reading what files in memory hold.

ghost use Rattle.std.specs.Prelude.{◌≡◌, option_map};
ghost use Rattle.fir_io.specs.working.Memory.{content_of, ReadsContent};

use crate::entry::FileEntry;
use crate::ports::FileFault;
use std::alloc::Global;

/// The content of the first entry of that name.
pub fn content_of<'a>(entries: &'a [FileEntry], name: &[u8]) -> Option<&'a [u8]>
    ensures { option_map (λ content. content.now) result ≡ content_of entries.now name.now }
{
    entries
        .iter()
        .find(|e| e.name.as_bytes() == name)
        .map(|e| e.content.as_slice())
}

/// A copy of the content, which sets the count of bytes taken.
pub fn read_content(
    alloc: Global,
    content: &[u8],
    limit: u64,
    taken: &mut u64,
) -> Result<Vec<u8>, FileFault>
    ensures { ReadsContent limit content.now taken.new result }
{
    *taken = 0;
    let length = content.len() as u64;
    if limit < length {
        *taken = limit + 1;
        return Err(FileFault::TooLong);
    }
    let Ok(bytes) = content.to_vec(alloc) else {
        return Err(FileFault::Memory);
    };
    *taken = length;
    Ok(bytes)
}
