//! What a call asks that does one act on a key and has no body.

ghost use Rattle.std.specs.Prelude.{◌≡◌, IfOk};
ghost use Rattle.object_ops.specs.KeyDeeds.{act_of};

use call_types::{Act, Pick};
use fault_base::NoMemory;
use receipts::upload_of;
use seal_file::Text;
use stamp_id::VersionId;

/// What a call asks that does one act on a key and has no body.
#[derive(Drop)]
pub enum KeyAct {
    /// DeleteObject.
    Delete(Pick),
    /// CreateMultipartUpload, with the content type of the object.
    Create(Text),
    /// AbortMultipartUpload, of the upload of this id, and of nobody's where the call's text was no id.
    Abort(Option<VersionId>),
}

impl KeyAct {
    /// The act.
    pub(crate) fn act(&self) -> Result<Act, NoMemory>
        ensures { IfOk result (λ act. act ≡ act_of self.now) }
    {
        match self {
            KeyAct::Delete(pick) => Ok(Act::Delete(*pick)),
            KeyAct::Create(kind) => {
                let own = kind.clone()?;
                Ok(Act::Create { kind: own })
            }
            KeyAct::Abort(upload) => Ok(Act::Abort {
                upload: upload_of(*upload),
            }),
        }
    }
}
