//! The text of a version id.

ghost use Rattle.std.specs.Prelude.{◌≡◌, IfOk, string_bytes};
ghost use Rattle.stamp_id.specs.VersionId.{id_text, IdBytesAreInjective, IdTextsAreInjective};
ghost use Rattle.stamp_id.specs.declared.version.VersionId.{VersionId};

use crate::error::NotAnId;
use crate::version::VersionId;
use fault_base::NoMemory;
use std::alloc::Global;
use uuid::Uuid;

impl VersionId {
    /// The text: the bytes as lower-case hex digits in groups of 8, 4, 4, 4 and 12 (RFC 9562, section 4),
    /// 36 bytes in all.
    pub fn text(&self, alloc: Global) -> Result<String, NoMemory>
        ensures { IfOk result (λ text. string_bytes text ≡ id_text self.now) }
    {
        let mut buffer = Uuid::encode_buffer();
        let uuid = Uuid::from_bytes(self.bytes());
        let text = uuid.hyphenated().encode_lower(&mut buffer);
        Ok(String::from_str(alloc, text)?)
    }

    /// The id with this text. Any other spelling, such as one in upper case, is `NotAnId`.
    pub fn parse(text: &str) -> Result<VersionId, NotAnId>
        ensures ok { IfOk result (λ v. text.now ≡ id_text v) }
        ensures reads { (v : VersionId) → text.now ≡ id_text v → result ≡ Ok v }
    {
        let uuid = match Uuid::parse_str(text) {
            Ok(uuid) => uuid,
            Err(_) => return Err(NotAnId),
        };
        let mut buffer = Uuid::encode_buffer();
        let canonical = uuid.hyphenated().encode_lower(&mut buffer);
        if text != canonical {
            return Err(NotAnId);
        }
        VersionId::from_bytes(uuid.into_bytes())
    }
}

/// The laws of the spellings, for a caller's proof: ids with the same bytes are the same, and so are ids
/// with the same text. It does nothing.
pub fn spelling_laws()
    ensures bytes { IdBytesAreInjective }
    ensures text { IdTextsAreInjective }
{}
