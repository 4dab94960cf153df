//! The op of a PutObject.

ghost use Rattle.std.specs.Prelude.{◌≡◌, ◌≤◌, IsUtf8, length, string_bytes};
ghost use Rattle.slot_history.specs.Names.{bucket_name, key_slot};
ghost use Rattle.version_list.specs.State.{IsMoment};
ghost use Rattle.object_ops.specs.Clearing.{files_left, AreDue};
ghost use Rattle.object_ops.specs.Put.{drives_by, long_by, reach_by};
ghost use Rattle.object_ops.specs.PutTarget.{key_of, kind_of, register_of};
ghost use Rattle.drive_base.specs.declared.drive.TheConstants.{LONGEST_NAME};
ghost use Rattle.desk_base.specs.Calls.{most_body, longest_kind};

use crate::clearing::Clearing;
use crate::put_state::PutState;
use crate::put_target::PutTarget;
use drive_base::SetPlan;

/// PutObject, step by step: a look at the bucket, the begin of the put at the key's slot, the staging of the body, the commit of the put, and the reply. Then
/// trash of the slot is taken, and its files are removed. Where the put can't begin the body is taken to its end before that is told.
#[derive(Drop)]
pub struct PutOp {
    /// The set of the store.
    pub(crate) set: SetPlan,
    /// What it is of.
    pub(crate) target: PutTarget,
    /// The MD5 that is stated of the body.
    pub(crate) md5: Option<[u8; 16]>,
    /// The stated length of the body.
    pub(crate) long: u64,
    /// The name of the bucket's register.
    pub(crate) name: String,
    /// The name of the register that the manifest is for.
    pub(crate) register: String,
    /// The Unix second of the call.
    pub(crate) now: u64,
    /// How many bytes of the body were taken.
    pub(crate) read: u64,
    /// How far it is.
    pub(crate) state: PutState,
    /// What is left of the trash.
    pub(crate) clearing: Clearing,
    pub ghost named: { string_bytes name ≡ bucket_name (key_of target).bucket },
    pub ghost registered: { string_bytes register ≡ register_of target },
    pub ghost short: { length (string_bytes name) ≤ LONGEST_NAME },
    pub ghost bucket_text: { ∥ IsUtf8 (key_of target).bucket ∥₁ },
    pub ghost key_text: { ∥ IsUtf8 (key_of target).key ∥₁ },
    pub ghost register_short: { length (register_of target) ≤ LONGEST_NAME },
    pub ghost kind_short: { length (kind_of target) ≤ longest_kind },
    pub ghost few: { long ≤ most_body },
    pub ghost moment: { IsMoment now },
    pub ghost counted: { long_by long read state ≡ long },
    pub ghost reached: { reach_by read state ≤ long },
    pub ghost over: { drives_by set.drives state ≡ set.drives },
    pub ghost due: { AreDue set (key_slot (key_of target)) (files_left clearing) },
}
