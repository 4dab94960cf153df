//! How a document is taken.

ghost use Rattle.std.specs.Prelude.{◌≡◌, ◌<◌, ◌≤◌, IfOk, drop, nat_eq, take, vec_len};
ghost use Rattle.call_types.specs.Feeds.{Gives, GivesCause};
ghost use Rattle.bucket_ops.specs.Taking.{IsFedFrom, TakesSome};

use crate::document::Document;
use call_types::{Cut, Feed};
use fault_base::NoMemory;
use std::alloc::Global;

impl Document {
    /// A document of so many bytes, of which none was taken.
    pub(crate) fn new(alloc: Global, length: usize) -> Result<Document, NoMemory>
        ensures { IfOk result (λ document. (vec_len document.bytes ≡ length) × (document.taken ≡ 0)) }
    {
        let mut bytes = Vec::new(alloc);
        bytes.resize(length, 0)?;
        Ok(Document { bytes, taken: 0 })
    }

    /// Takes the next bytes from its feed, or tells why none came.
    pub(crate) fn take<F: Feed>(&mut self, feed: &mut F) -> Option<Cut>
        requires left { self.old.taken < vec_len self.old.bytes }
        requires fed { IsFedFrom self.old (F.seen feed.old) }
        ensures takes { TakesSome self.old self.new result (record { view = F.seen feed.old; faults = F.faults feed.old })
            (record { view = F.seen feed.new; faults = F.faults feed.new }) }
        ensures fed { IsFedFrom self.new (F.seen feed.new) }
    {
        match take_behind(&mut self.bytes, self.taken, feed) {
            Ok(count) => {
                self.taken += count;
                None
            }
            Err(cut) => Some(cut),
        }
    }

    /// Its bytes, in front those that were taken.
    pub(crate) fn as_slice(&self) -> &[u8]
        ensures { result.now ≡ self.now.bytes.items }
    {
        self.bytes.as_slice()
    }

    /// Whether all of it was taken.
    pub(crate) fn is_whole(&self) -> bool
        ensures { result ≡ nat_eq self.now.taken (vec_len self.now.bytes) }
    {
        self.taken == self.bytes.len()
    }
}

/// Takes the next bytes from a feed, behind the ones that were taken.
fn take_behind<F: Feed>(bytes: &mut Vec<u8>, taken: usize, feed: &mut F) -> Result<usize, Cut>
    requires within { taken ≤ vec_len bytes.old }
    ensures long { vec_len bytes.new ≡ vec_len bytes.old }
    ensures front { take taken bytes.new.items ≡ take taken bytes.old.items }
    ensures gives { Gives result (drop taken bytes.new.items) (F.seen feed.old) (F.seen feed.new) }
    ensures cause { GivesCause result (F.seen feed.new) (F.faults feed.old) (F.faults feed.new) }
{
    feed.take(&mut bytes[taken..])
}
