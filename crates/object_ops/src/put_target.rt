//! What a put is of.

ghost use Rattle.std.specs.Prelude.{◌≡◌, IfOk, IsUtf8, string_bytes};
ghost use Rattle.object_ops.specs.PutTarget.{deed_of, key_of, register_of};
ghost use Rattle.object_ops.specs.declared.put_target.PutTarget.TheVariants.{Object};

use call_types::{Act, Key, Mode};
use fault_base::NoMemory;
use put_stage::Staged;
use seal_file::Text;
use slot_core::Commit;
use slot_history::key_name;
use stamp_id::VersionId;
use std::alloc::Global;

/// What a put is of.
#[derive(Drop)]
pub enum PutTarget {
    /// An object: its key, and its content type.
    Object {
        /// The key.
        at: Key,
        /// The content type.
        kind: Text,
    },
}

impl PutTarget {
    /// An object of this key and content type.
    pub(crate) fn object(alloc: Global, at: &Key, kind: &Text) -> Result<PutTarget, NoMemory>
        ensures { IfOk result (λ target. target ≡ Object at.now kind.now) }
    {
        let own_key = at.clone()?;
        let own_kind = kind.clone()?;
        Ok(PutTarget::Object {
            at: own_key,
            kind: own_kind,
        })
    }

    /// The key whose slot it is in.
    pub(crate) fn key(&self) -> &Key
        ensures { result.now ≡ key_of self.now }
    {
        match self {
            PutTarget::Object { at, .. } => at,
        }
    }

    /// The name of the register that its manifest is for.
    pub(crate) fn register(&self, alloc: Global) -> Result<String, NoMemory>
        requires bucket { IsUtf8 (key_of self.now).bucket }
        requires key { IsUtf8 (key_of self.now).key }
        ensures { IfOk result (λ name. string_bytes name ≡ register_of self.now) }
    {
        match self {
            PutTarget::Object { at, .. } => key_name(alloc, at),
        }
    }

    /// The deed that puts a body which is staged.
    pub(crate) fn deed(
        &self,
        alloc: Global,
        mode: Mode,
        id: VersionId,
        staged: &Staged,
    ) -> Result<Commit, NoMemory>
        ensures { IfOk result (λ deed. deed ≡ deed_of self.now mode id staged.now) }
    {
        match self {
            PutTarget::Object { at, kind } => {
                let key = at.clone()?;
                let own_kind = kind.clone()?;
                Ok(Commit::Key {
                    at: key,
                    mode,
                    act: Act::Put {
                        data_id: id,
                        print: staged.print,
                        length: staged.length,
                        md5: staged.etag,
                        kind: own_kind,
                    },
                })
            }
        }
    }
}
