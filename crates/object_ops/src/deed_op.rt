//! The op of a call that commits an act and has no body, and its states.

ghost use Rattle.std.specs.Prelude.{◌≡◌, ◌≤◌, IsUtf8, length, string_bytes, true};
ghost use Rattle.slot_history.specs.Names.{bucket_name, key_name, key_slot};
ghost use Rattle.version_list.specs.State.{IsKind, IsMoment};
ghost use Rattle.object_ops.specs.Clearing.{files_left, AreDue};
ghost use Rattle.object_ops.specs.KeyDeeds.{act_of, kind_of, bucket_in, deed_needs_none, key_in, kind_in};
ghost use Rattle.drive_base.specs.declared.drive.TheConstants.{LONGEST_NAME};
ghost use Rattle.slot_rules.specs.Deeds.{name_of};

use crate::clearing::Clearing;
use crate::key_act::KeyAct;
use call_types::{Cut, Key, Reply};
use drive_base::SetPlan;
use slot_core::Commit;

/// A change of a key by a call without a body, step by step: a look at the bucket, the commit of the act at the key's register, and the reply. Then trash of
/// the slot is taken, and its files are removed.
#[derive(Drop)]
pub struct DeedOp {
    /// The set of the store.
    pub(crate) set: SetPlan,
    /// The key.
    pub(crate) at: Key,
    /// What is done to it.
    pub(crate) ask: KeyAct,
    /// The name of the bucket's register.
    pub(crate) name: String,
    /// The Unix second of the call.
    pub(crate) now: u64,
    /// How far it is.
    pub(crate) state: DeedState,
    /// What is left of the trash.
    pub(crate) clearing: Clearing,
    pub ghost kind_short: { IsKind (kind_of (act_of ask)) },
    pub ghost named: { string_bytes name ≡ bucket_name at.bucket },
    pub ghost short: { length (string_bytes name) ≤ LONGEST_NAME },
    pub ghost bucket_text: { ∥ IsUtf8 at.bucket ∥₁ },
    pub ghost key_text: { ∥ IsUtf8 at.key ∥₁ },
    pub ghost key_short: { length (key_name at) ≤ LONGEST_NAME },
    pub ghost moment: { IsMoment now },
    pub ghost due: { AreDue set (key_slot at) (files_left clearing) },
}

/// How far a deed is.
#[derive(Drop)]
pub enum DeedState {
    /// The look at the bucket comes next.
    Looking,
    /// This is committed next.
    Committing(KeyDeed),
    /// This reply is told next.
    Telling(Reply),
    /// The reply was told, or the call was cut for this. What is left of the trash comes next.
    Told(Option<Cut>),
}

/// A deed on a key that brings no data and can be committed: its act is lawful, and its register has a lawful name.
#[derive(Drop)]
pub struct KeyDeed {
    /// The deed.
    pub(crate) commit: Commit,
    pub ghost bodyless: { deed_needs_none commit ≡ true },
    pub ghost kind_short: { IsKind (kind_in commit) },
    pub ghost bucket_text: { ∥ IsUtf8 (bucket_in commit) ∥₁ },
    pub ghost key_text: { ∥ IsUtf8 (key_in commit) ∥₁ },
    pub ghost short: { length (name_of commit) ≤ LONGEST_NAME },
}
