//! Versions, uploads and parts as a key's registers hold them.

use crate::list::Listing;
use crate::names::VersionName;
use seal_file::Text;
use stamp_id::VersionId;

/// A version of a key.
#[derive(Drop)]
pub struct Version {
    /// Its name.
    pub id: VersionName,
    /// When it was made, in Unix seconds.
    pub modified: u64,
    /// What it is.
    pub what: What,
}

/// What a version is.
#[derive(Drop)]
pub enum What {
    /// A delete marker.
    Marker,
    /// An object.
    Object {
        /// The id of its data.
        data_id: VersionId,
        /// The SHA-256 that names its data.
        print: [u8; 32],
        /// The length of its body in bytes.
        length: u64,
        /// The MD5 of its entity tag.
        md5: [u8; 16],
        /// The number of its parts, 0 for a single PUT.
        parts: u16,
        /// The upload that made it, none for a single PUT.
        upload: Option<VersionId>,
        /// Its content type, of at most 255 bytes.
        kind: Text,
    },
}

/// An open multipart upload.
#[derive(Drop)]
pub struct Upload {
    /// Its id.
    pub id: VersionId,
    /// When it was opened, in Unix seconds.
    pub opened: u64,
    /// The content type of its object, of at most 255 bytes.
    pub kind: Text,
}

/// A part that a Complete lists.
#[derive(Clone, Copy, PartialEq, Eq)]
pub struct PartRef {
    /// Its number, from 1 to 10,000.
    pub number: u16,
    /// The MD5 of its entity tag.
    pub md5: [u8; 16],
}

/// A part of an upload as its register holds it.
#[derive(Clone, Copy, PartialEq, Eq)]
pub struct PartRecord {
    /// The id of its data.
    pub data_id: VersionId,
    /// The SHA-256 that names its data.
    pub print: [u8; 32],
    /// Its length in bytes.
    pub length: u64,
    /// Its MD5.
    pub md5: [u8; 16],
    /// When it was stored, in Unix seconds.
    pub modified: u64,
}

/// The versions of a key, newest first.
pub type Versions = Listing<Version>;

/// The open uploads of a key, in order of opening.
pub type Uploads = Listing<Upload>;

/// The parts that a Complete lists, in its order.
pub type PartRefs = Listing<PartRef>;
