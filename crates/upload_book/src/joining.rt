//! What the parts of an upload make together.

ghost use Rattle.std.specs.Prelude.{◌≡◌, ◌≤◌, length};
ghost use Rattle.md5.specs.Md5.{md5};
ghost use Rattle.upload_book.specs.Joining.{joined_length, joined_md5s, Joins};
ghost use Rattle.version_list.specs.Limits.{most_parts};

use call_types::{Etag, PartRecord};
use md5::{Digest, Md5};

/// What an object of several parts is.
#[derive(Clone, Copy, PartialEq, Eq)]
pub struct Joined {
    /// The length of its body in bytes.
    pub length: u64,
    /// Its entity tag: the MD5 of the joined MD5s of its parts, and their number.
    pub etag: Etag,
}

/// The object of these parts, in their order, of which there are 1 to 10,000. A length that fits no `u64` stands still at its last value.
pub fn join(parts: &[PartRecord]) -> Joined
    requires some { 1 ≤ length parts.now }
    requires few { length parts.now ≤ most_parts }
    ensures { Joins parts.now result }
{
    Joined {
        length: length_of_parts(parts),
        etag: Etag {
            md5: md5_of_parts(parts),
            parts: parts.len() as u16,
        },
    }
}

fn length_of_parts(parts: &[PartRecord]) -> u64
    ensures { result ≡ joined_length parts.now }
{
    let mut total: u64 = 0;
    for part in parts {
        total = total.saturating_add(part.length);
    }
    total
}

fn md5_of_parts(parts: &[PartRecord]) -> [u8; 16]
    ensures { result ≡ md5 (joined_md5s parts.now) }
{
    let mut hasher = Md5::new();
    for part in parts {
        hasher.update(part.md5.as_slice());
    }
    hasher.finalize()
}
