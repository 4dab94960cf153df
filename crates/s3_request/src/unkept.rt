//! The headers that ask for a promise or a condition which no call keeps.

ghost use Rattle.std.specs.Prelude.{◌≡◌, ℕ, is_some};
ghost use Rattle.std.specs.List.{list_any};
ghost use Rattle.http_wire.specs.Names.{value_of};
ghost use Rattle.s3_request.specs.Query.{Pairs};
ghost use Rattle.s3_request.specs.Reads.{asks_unkept, asked_of};

use http_wire::Head;

/// These headers, in the order of `unkept_names`: an append, a deletion under a condition, an owner, a lock, and encryption.
const UNKEPT_NAMES: [&str; 12] = [
    "x-amz-write-offset-bytes",
    "x-amz-if-match-size",
    "x-amz-if-match-last-modified-time",
    "x-amz-if-match-initiated-time",
    "x-amz-expected-bucket-owner",
    "x-amz-source-expected-bucket-owner",
    "x-amz-object-lock-mode",
    "x-amz-object-lock-retain-until-date",
    "x-amz-object-lock-legal-hold",
    "x-amz-bucket-object-lock-enabled",
    "x-amz-server-side-encryption",
    "x-amz-server-side-encryption-customer-algorithm",
];

/// Whether a head has one of the headers that ask for a promise or a condition which no call keeps, whatever its value: a
/// `x-amz-bucket-object-lock-enabled: false` asks for nothing, and isn't served either.
///
/// Not among them are these, which are passed over:
///
/// - checksums (`x-amz-checksum-*`, `x-amz-sdk-checksum-algorithm`, a digest in `x-amz-content-sha256`), since common clients send them unasked. So a
///   wrong one isn't found; `Content-MD5` is the one that is compared.
/// - `x-amz-meta-*`, `x-amz-tagging`, `x-amz-acl`, `x-amz-storage-class`, `Content-Encoding` and metadata like these, which are lost.
pub fn asks_unkept(head: &Head) -> bool
    ensures { (pairs : Pairs) (limit : ℕ) → result ≡ asks_unkept (asked_of head.now pairs limit) }
{
    has_any(head, &UNKEPT_NAMES)
}

/// Whether a head has a header of one of these names.
fn has_any(head: &Head, names: &[&str]) -> bool
    ensures { result ≡ list_any (λ name. is_some (value_of head.now.lines name.now)) names.now }
{
    for name in names {
        if head.value_of(name.as_bytes()).is_some() {
            return true;
        }
    }
    false
}
