//! The op of a call that reads a key, HeadObject or GetObject, and its states.

ghost use Rattle.std.specs.Prelude.{◌≡◌, ◌≤◌, IsUtf8, false, length, string_bytes};
ghost use Rattle.slot_history.specs.Names.{bucket_name, key_name};
ghost use Rattle.object_ops.specs.Read.{lacks_pin};
ghost use Rattle.object_ops.specs.ReadingPlan.{drives_of};
ghost use Rattle.drive_base.specs.declared.drive.TheConstants.{LONGEST_NAME};

use crate::reading::Reading;
use call_types::{Cut, Key, Mode, Pick, RangeAsk, Reply};
use drive_base::SetPlan;
use seal_file::Text;
use slot_core::Pin;
use std::mem;

/// HeadObject or GetObject, step by step: a look at the bucket, the begin of a read of the key, the reply, and the end of the read. A GetObject whose span has
/// bytes calls data drives before its head and between its pieces.
#[derive(Drop)]
pub struct ReadOp {
    /// The set of the store.
    pub(crate) set: SetPlan,
    /// The key.
    pub(crate) at: Key,
    /// The version that is asked for.
    pub(crate) pick: Pick,
    /// What is asked of that.
    pub(crate) kind: ReadKind,
    /// The value of its `If-Match`.
    pub(crate) matches: Option<Text>,
    /// The name of the bucket's register.
    pub(crate) name: String,
    /// The Unix second of the call.
    pub(crate) now: u64,
    /// How far it is.
    pub(crate) state: ReadState,
    /// The pin of its read, while it has one.
    pub(crate) pin: Option<Pin>,
    /// The reading, while there is one.
    pub(crate) reading: Option<Reading>,
    pub ghost named: { string_bytes name ≡ bucket_name at.bucket },
    pub ghost held: { lacks_pin state pin ≡ false },
    pub ghost same_drives: { drives_of set reading ≡ set.drives },
    pub ghost short: { length (string_bytes name) ≤ LONGEST_NAME },
    pub ghost bucket_text: { ∥ IsUtf8 at.bucket ∥₁ },
    pub ghost key_text: { ∥ IsUtf8 at.key ∥₁ },
    pub ghost key_short: { length (key_name at) ≤ LONGEST_NAME },
}

/// What a call asks of the version that it reads.
#[derive(Clone, Copy, PartialEq, Eq)]
pub enum ReadKind {
    /// A HeadObject asks what the version is, and for no byte of its body.
    Head,
    /// A GetObject asks for this part of its body.
    Get(RangeAsk),
}

/// How far a call that reads a key is.
#[derive(Drop)]
pub enum ReadState {
    /// The look at the bucket comes next.
    Looking,
    /// The begin of the read comes next, in a bucket of this mode.
    Beginning(Mode),
    /// This reply is told next, and no bytes follow it.
    Telling(Reply),
    /// A call of a data drive comes next.
    Fetching,
    /// A piece is at hand. The head is told next, or then the piece.
    Giving,
    /// The end of the read comes next. It was cut for this, if it was.
    Ending(Option<Cut>),
    /// It is over, and was cut for this, if it was.
    Over(Option<Cut>),
}

/// Goes over to another state.
pub(crate) fn go_to(state: &mut ReadState, next: ReadState)
    ensures { state.new ≡ next }
{
    drop(mem::replace(state, next));
}
