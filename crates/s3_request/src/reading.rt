//! Reading the call of a head.

ghost use Rattle.std.specs.Prelude.{◌≡◌, ◌≤◌, ℕ, IfOk, codes, is_some};
ghost use Rattle.desk_base.specs.Calls.{IsLawful, most_body};
ghost use Rattle.http_wire.specs.Framing.{SaysLength};
ghost use Rattle.http_wire.specs.Names.{value_of};
ghost use Rattle.s3_request.specs.Bodies.{StatesLength};
ghost use Rattle.s3_request.specs.Reads.{abort_call, asked_of, bucket_call, call_of, compares_tag, complete_call, create_call, delete_call, get_call, head_call, in_bucket, in_key, is_changing, is_conditional, is_unserved, part_call, put_call, service_call, versions_call, with_pick};
ghost use Rattle.s3_request.specs.Query.{Pairs};
ghost use Rattle.s3_request.specs.Refusing.{Gives};

use crate::arguments::{
    is_bucket_name, kind_of, length_of, match_of, md5_of, part_number_in, pick_of, upload_of,
};
use crate::fault::{CallFault, invalid_argument};
use crate::pages::{list_ask, versions_ask};
use crate::query::Query;
use crate::range::range_of;
use crate::routes::{BucketRow, KeyRow, Method, bucket_row, key_row, method_of};
use crate::target::{Place, place_of, query_of};
use crate::unkept::asks_unkept;
use call_types::{Key, Pick, Refusal};
use desk_base::Call;
use http_wire::Head;
use seal_file::Text;
use std::alloc::Global;

/// The most bytes of a document that is read.
const MOST_DOCUMENT: u64 = 2_097_152;

/// The most bytes of a key.
const MOST_KEY: usize = 1_024;

/// The call that a head states, or the first refusal, in this order: InvalidURI, NotImplemented, InvalidBucketName, KeyTooLong, InvalidArgument (of the
/// argument that stands first in the query, the Content-Type after them all), InvalidDigest, NoLength and EntityTooLarge. `limit` is the most bytes that a
/// body of PutObject or UploadPart has; a document that is read has at most 2,097,152. A call that takes a body
/// states the length that the head says. A GetObject and a HeadObject keep the value of their `If-Match`, and any other call that has one is not
/// implemented. Want of memory may come at any time.
pub fn read_call(alloc: Global, head: &Head, limit: u64) -> Result<Call, CallFault>
    ensures reads { Gives (call_of head.now limit) result }
    ensures lawful { limit ≤ most_body → IfOk result IsLawful }
    ensures length { (n : ℕ) → SaysLength head.now.lines n → IfOk result (StatesLength n) }
{
    let place = place_of(alloc, head.target())?;
    let query = Query::read(alloc, query_of(head.target()))?;
    if is_unserved(head, &query, &place) {
        return Err(CallFault::Refused(Refusal::NotImplemented));
    }
    match place {
        Place::Service => service_call(method_of(head.method())),
        Place::Bucket(name) => in_bucket(alloc, head, &query, name),
        Place::Object(at) => in_key(alloc, head, &query, limit, at),
    }
}

/// Whether a call isn't served, whichever row of the table it has.
fn is_unserved(head: &Head, query: &Query, place: &Place) -> bool
    ensures { (limit : ℕ) → result ≡ is_unserved (asked_of head.now query.now limit) place.now }
{
    if query.asks_unserved() {
        return true;
    }
    is_copy(head) || is_conditional(head, place) || asks_unkept(head)
}

/// Whether a head has the header of CopyObject.
fn is_copy(head: &Head) -> bool
    ensures { result ≡ is_some (value_of head.now.lines (codes "x-amz-copy-source")) }
{
    head.value_of(b"x-amz-copy-source").is_some()
}

/// Whether a call is to be done under a condition that it doesn't compare (RFC 9110, section 13.1). No such call is served.
fn is_conditional(head: &Head, place: &Place) -> bool
    ensures { (pairs : Pairs) (limit : ℕ) → result ≡ is_conditional (asked_of head.now pairs limit) place.now }
{
    let method = method_of(head.method());
    (!compares_tag(method, place) && head.value_of(b"if-match").is_some())
        || head.value_of(b"if-unmodified-since").is_some()
        || (is_changing(method) && head.value_of(b"if-none-match").is_some())
}

/// Whether a call compares the `If-Match` of its head, as a GetObject and a HeadObject do.
fn compares_tag(method: Method, place: &Place) -> bool
    ensures { result ≡ compares_tag method place.now }
{
    match place {
        Place::Object(_) => matches!(method, Method::Get | Method::Head),
        Place::Service | Place::Bucket(_) => false,
    }
}

/// Whether a method may change what is stored.
fn is_changing(method: Method) -> bool
    ensures { result ≡ is_changing method }
{
    matches!(method, Method::Put | Method::Post | Method::Delete)
}

/// A call of the service.
fn service_call(method: Method) -> Result<Call, CallFault>
    ensures { Gives (service_call method) result }
{
    match method {
        Method::Get => Ok(Call::ListBuckets),
        _ => Err(CallFault::Refused(Refusal::NotImplemented)),
    }
}

/// A call of a bucket.
fn in_bucket(alloc: Global, head: &Head, query: &Query, name: Text) -> Result<Call, CallFault>
    ensures { (limit : ℕ) → Gives (in_bucket (asked_of head.now query.now limit) name) result }
{
    let Some(row) = bucket_row(method_of(head.method()), query) else {
        return Err(CallFault::Refused(Refusal::NotImplemented));
    };
    if !is_bucket_name(name.as_slice()) {
        return Err(CallFault::Refused(Refusal::InvalidBucketName));
    }
    bucket_call(alloc, head, query, name, row)
}

/// The call of a row of a bucket.
fn bucket_call(
    alloc: Global,
    head: &Head,
    query: &Query,
    bucket: Text,
    row: BucketRow,
) -> Result<Call, CallFault>
    ensures { (limit : ℕ) → Gives (bucket_call (asked_of head.now query.now limit) bucket row) result }
{
    match row {
        BucketRow::Create => Ok(Call::CreateBucket { bucket }),
        BucketRow::Head => Ok(Call::HeadBucket { bucket }),
        BucketRow::GetVersioning => Ok(Call::GetVersioning { bucket }),
        BucketRow::PutVersioning => {
            let length = length_of(head, MOST_DOCUMENT)?;
            Ok(Call::PutVersioning { bucket, length })
        }
        BucketRow::List2 => {
            let page = list_ask(alloc, query)?;
            Ok(Call::List2 { bucket, page })
        }
        BucketRow::ListVersions => versions_call(alloc, query, bucket),
    }
}

/// A ListObjectVersions.
fn versions_call(alloc: Global, query: &Query, bucket: Text) -> Result<Call, CallFault>
    ensures { Gives (versions_call query.now bucket) result }
{
    match versions_ask(alloc, query) {
        Ok(page) => Ok(Call::ListVersions { bucket, page }),
        Err(fault) => Err(fault),
    }
}

/// A call of a key.
fn in_key(alloc: Global, head: &Head, query: &Query, limit: u64, at: Key) -> Result<Call, CallFault>
    ensures { Gives (in_key (asked_of head.now query.now limit) at) result }
{
    let Some(row) = key_row(method_of(head.method()), query) else {
        return Err(CallFault::Refused(Refusal::NotImplemented));
    };
    if !is_bucket_name(at.bucket.as_slice()) {
        return Err(CallFault::Refused(Refusal::InvalidBucketName));
    }
    if at.key.len() > MOST_KEY {
        return Err(CallFault::Refused(Refusal::KeyTooLong));
    }
    match row {
        KeyRow::Put => put_call(alloc, head, limit, at),
        KeyRow::Part => part_call(alloc, head, query, limit, at),
        KeyRow::Get => get_call(alloc, head, query, at),
        KeyRow::Head => head_call(alloc, head, query, at),
        KeyRow::Delete => delete_call(alloc, query, at),
        KeyRow::Create => create_call(alloc, head, at),
        KeyRow::Complete => complete_call(head, query, at),
        KeyRow::Abort => abort_call(query, at),
    }
}

/// A GetObject.
fn get_call(alloc: Global, head: &Head, query: &Query, at: Key) -> Result<Call, CallFault>
    ensures { (limit : ℕ) → Gives (get_call (asked_of head.now query.now limit) at) result }
{
    match named_pick(alloc, query) {
        Ok(pick) => {
            let matches = match_of(alloc, head)?;
            Ok(Call::Get {
                at,
                pick,
                ask: range_of(head),
                matches,
            })
        }
        Err(fault) => Err(fault),
    }
}

/// A HeadObject.
fn head_call(alloc: Global, head: &Head, query: &Query, at: Key) -> Result<Call, CallFault>
    ensures { (limit : ℕ) → Gives (head_call (asked_of head.now query.now limit) at) result }
{
    match named_pick(alloc, query) {
        Ok(pick) => {
            let matches = match_of(alloc, head)?;
            Ok(Call::Head { at, pick, matches })
        }
        Err(fault) => Err(fault),
    }
}

/// A DeleteObject.
fn delete_call(alloc: Global, query: &Query, at: Key) -> Result<Call, CallFault>
    ensures { Gives (delete_call query.now at) result }
{
    match named_pick(alloc, query) {
        Ok(pick) => Ok(Call::Delete { at, pick }),
        Err(fault) => Err(fault),
    }
}

/// A CreateMultipartUpload.
fn create_call(alloc: Global, head: &Head, at: Key) -> Result<Call, CallFault>
    ensures { (pairs : Pairs) (limit : ℕ) → Gives (create_call (asked_of head.now pairs limit) at) result }
{
    let kind = kind_of(alloc, head)?;
    Ok(Call::Create { at, kind })
}

/// A CompleteMultipartUpload.
fn complete_call(head: &Head, query: &Query, at: Key) -> Result<Call, CallFault>
    ensures { (limit : ℕ) → Gives (complete_call (asked_of head.now query.now limit) at) result }
{
    let upload = upload_of(query);
    match length_of(head, MOST_DOCUMENT) {
        Ok(length) => Ok(Call::Complete { at, upload, length }),
        Err(fault) => Err(fault),
    }
}

/// An AbortMultipartUpload.
fn abort_call(query: &Query, at: Key) -> Result<Call, CallFault>
    ensures { Gives (abort_call query.now at) result }
{
    let upload = upload_of(query);
    Ok(Call::Abort { at, upload })
}

/// A PutObject.
fn put_call(alloc: Global, head: &Head, limit: u64, at: Key) -> Result<Call, CallFault>
    ensures { (pairs : Pairs) → Gives (put_call (asked_of head.now pairs limit) at) result }
{
    let kind = kind_of(alloc, head)?;
    let md5 = md5_of(alloc, head)?;
    let length = length_of(head, limit)?;
    Ok(Call::Put {
        at,
        kind,
        md5,
        length,
    })
}

/// An UploadPart.
fn part_call(
    alloc: Global,
    head: &Head,
    query: &Query,
    limit: u64,
    at: Key,
) -> Result<Call, CallFault>
    ensures { Gives (part_call (asked_of head.now query.now limit) at) result }
{
    let Some(number) = part_number_in(query) else {
        return Err(invalid_argument(alloc, "partNumber"));
    };
    let upload = upload_of(query);
    let md5 = md5_of(alloc, head)?;
    let length = length_of(head, limit)?;
    Ok(Call::Part {
        at,
        upload,
        number,
        md5,
        length,
    })
}

/// The version that a call names.
fn named_pick(alloc: Global, query: &Query) -> Result<Pick, CallFault>
    ensures { Gives (with_pick query.now) result }
{
    match pick_of(query) {
        Some(pick) => Ok(pick),
        None => Err(invalid_argument(alloc, "versionId")),
    }
}
