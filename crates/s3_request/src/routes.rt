//! The table of calls: which call a method, a path and the names of a query ask for.

ghost use Rattle.std.specs.Prelude.{◌≡◌};
ghost use Rattle.s3_request.specs.Routes.{method_of, bucket_get, bucket_row, key_put, key_row};

use crate::query::Query;

/// The methods that the table has.
#[derive(Clone, Copy, PartialEq, Eq)]
pub enum Method {
    Get,
    Put,
    Head,
    Post,
    Delete,
    /// Any other.
    Other,
}

/// The calls of a bucket.
#[derive(Clone, Copy, PartialEq, Eq)]
pub enum BucketRow {
    /// CreateBucket.
    Create,
    /// HeadBucket.
    Head,
    /// GetBucketVersioning.
    GetVersioning,
    /// PutBucketVersioning.
    PutVersioning,
    /// ListObjectsV2.
    List2,
    /// ListObjectVersions.
    ListVersions,
}

/// The calls of a key.
#[derive(Clone, Copy, PartialEq, Eq)]
pub enum KeyRow {
    /// PutObject.
    Put,
    /// GetObject.
    Get,
    /// HeadObject.
    Head,
    /// DeleteObject.
    Delete,
    /// CreateMultipartUpload.
    Create,
    /// UploadPart.
    Part,
    /// CompleteMultipartUpload.
    Complete,
    /// AbortMultipartUpload.
    Abort,
}

/// The method of this name.
pub fn method_of(name: &[u8]) -> Method
    ensures { result ≡ method_of name.now }
{
    if name == b"GET".as_slice() {
        return Method::Get;
    }
    if name == b"PUT".as_slice() {
        return Method::Put;
    }
    if name == b"HEAD".as_slice() {
        return Method::Head;
    }
    if name == b"POST".as_slice() {
        return Method::Post;
    }
    if name == b"DELETE".as_slice() {
        return Method::Delete;
    }
    Method::Other
}

/// The call of a bucket, or none where it isn't served.
pub fn bucket_row(method: Method, query: &Query) -> Option<BucketRow>
    ensures { result ≡ bucket_row method query.now }
{
    match method {
        Method::Get => bucket_get(query),
        Method::Put => {
            if query.has("versioning") {
                Some(BucketRow::PutVersioning)
            } else {
                Some(BucketRow::Create)
            }
        }
        Method::Head => Some(BucketRow::Head),
        Method::Post => None,
        Method::Delete => None,
        Method::Other => None,
    }
}

/// What a GET of a bucket asks for.
fn bucket_get(query: &Query) -> Option<BucketRow>
    ensures { result ≡ bucket_get query.now }
{
    if query.has("versioning") {
        return Some(BucketRow::GetVersioning);
    }
    if query.has("uploads") {
        return None;
    }
    if query.has("versions") {
        return Some(BucketRow::ListVersions);
    }
    match query.value_of("list-type") {
        Some(version) if version == "2" => Some(BucketRow::List2),
        _ => None,
    }
}

/// The call of a key, or none where it isn't served.
pub fn key_row(method: Method, query: &Query) -> Option<KeyRow>
    ensures { result ≡ key_row method query.now }
{
    let upload = query.has("uploadId");
    match method {
        Method::Get => {
            if upload || query.has("partNumber") {
                return None;
            }
            Some(KeyRow::Get)
        }
        Method::Put => key_put(query, upload),
        Method::Head => Some(KeyRow::Head),
        Method::Post => {
            if query.has("uploads") {
                return Some(KeyRow::Create);
            }
            if upload {
                return Some(KeyRow::Complete);
            }
            None
        }
        Method::Delete => {
            if upload {
                return Some(KeyRow::Abort);
            }
            Some(KeyRow::Delete)
        }
        Method::Other => None,
    }
}

/// What a PUT of a key asks for: a part, where it names both an upload and a number of a part, and an object, where it names neither.
fn key_put(query: &Query, upload: bool) -> Option<KeyRow>
    ensures { result ≡ key_put upload query.now }
{
    match (upload, query.has("partNumber")) {
        (true, true) => Some(KeyRow::Part),
        (false, false) => Some(KeyRow::Put),
        _ => None,
    }
}
