//! One step of a key.

ghost use Rattle.std.specs.Prelude.{◌≡◌, ◌<◌, ◌⊎◌, true, false, IfOk, OnOk, IfSome, Some, None, IsSome, IsNone, find, length};
ghost use Rattle.version_list.specs.Answers.{Answers};
ghost use Rattle.version_list.specs.Lawful.{IsLawful, IsSized, AreSized};
ghost use Rattle.version_list.specs.State.{IsCanonical, IsMoment};
ghost use Rattle.version_list.specs.Step.{Step, AddsMarker, AddsVersion, RemovesVersion, Deletes, Does, OpensUpload, WithUpload, replaced, told};
ghost use Rattle.version_list.specs.Naming.{is_named, is_upload, still_open};
ghost use Rattle.version_list.specs.NamesId.{names_id};

use crate::change::{add_version, close_upload, complete_upload, open_upload, remove_version};
use crate::edit::{any_marker_named, count_kept, new_name, replaced, told};
use crate::outcome::{ActFault, Applied};
use crate::state::{KeyState, MOST_UPLOADS, MOST_VERSIONS};
use crate::uploads::upload_of;
use call_types::{Act, Etag, KeyRefusal, Mode, Pick, Reply, Upload, Version, VersionName, What};
use seal_file::Text;
use stamp_id::VersionId;
use std::alloc::Global;

/// What a call has beside its act.
#[derive(Clone, Copy)]
pub struct Call {
    /// The mode of the bucket.
    pub mode: Mode,
    /// The id that the call drew.
    pub id: VersionId,
    /// The Unix second.
    pub moment: u64,
}

/// Does `act` to the state of a key in a bucket of this mode, in the Unix second `now`. `id` is the id that the call
/// drew, which the state doesn't name: a version or an upload that is made has it. What is answered has no `state` where the act changes nothing.
///
/// Refused are, with `ActFault::Refused`: a Put, and a Delete that would put a marker in front, with `VersionLimit` where
/// 10,000 versions stay; a Create with `UploadLimit` where 1,000 uploads are open; a Complete and an Abort with
/// `NoSuchUpload` where no upload has that id, and a Complete with `VersionLimit` as a Put. The state is unchanged then.
pub fn apply(
    alloc: Global,
    state: &KeyState,
    mode: Mode,
    act: &Act,
    id: VersionId,
    now: u64,
) -> Result<Applied, ActFault>
    requires canonical { IsCanonical state.now }
    requires fresh { names_id id state.now ≡ false }
    requires moment { IsMoment now }
    requires lawful { IsLawful act.now }
    ensures step { Answers (Step state.now mode act.now id now) state.now result }
    ensures canonical { IfOk result (λ a. IfSome a.state IsCanonical) }
{
    let call = Call {
        mode,
        id,
        moment: now,
    };
    do_act(alloc, state, call, act)
}

/// The step of `apply`, for any state, moment and act; the new state is canonical where these are as `apply` asks.
pub fn do_act(alloc: Global, state: &KeyState, call: Call, act: &Act) -> Result<Applied, ActFault>
    ensures step { Answers (Step state.now call.mode act.now call.id call.moment) state.now result }
    ensures sized { OnOk result (IsSized act.now) }
{
    match act {
        Act::Put {
            data_id,
            print,
            length,
            md5,
            kind,
        } => put(alloc, state, call, *data_id, *print, *length, *md5, kind),
        Act::Delete(pick) => delete(alloc, state, call, pick),
        Act::Create { kind } => create(alloc, state, call, kind),
        Act::Complete {
            upload,
            parts,
            data_id,
            print,
            length,
            md5,
        } => complete(
            alloc, state, call, *upload, *parts, *data_id, *print, *length, *md5,
        ),
        Act::Abort { upload } => abort(alloc, state, *upload),
    }
}

/// A PUT: a version of this data is put in front.
fn put(
    alloc: Global,
    state: &KeyState,
    call: Call,
    data_id: VersionId,
    print: [u8; 32],
    length: u64,
    md5: [u8; 16],
    kind: &Text,
) -> Result<Applied, ActFault>
    ensures step { Answers (Step state.now call.mode (Act.Put data_id print length md5 kind.now) call.id call.moment) state.now result }
    ensures sized { OnOk result (AreSized print length md5 0) }
{
    let kind = kind.clone()?;
    let made = Version {
        id: new_name(call.mode, call.id),
        modified: call.moment,
        what: object(data_id, print, length, md5, 0, None, kind),
    };
    let etag = Etag { md5, parts: 0 };
    put_version(alloc, state, call.mode, made, etag)
}

/// The end of a multipart upload: a version of its joined parts is put in front, and the upload is closed.
fn complete(
    alloc: Global,
    state: &KeyState,
    call: Call,
    upload: VersionId,
    parts: u16,
    data_id: VersionId,
    print: [u8; 32],
    length: u64,
    md5: [u8; 16],
) -> Result<Applied, ActFault>
    ensures step { Answers (Step state.now call.mode (Act.Complete upload parts data_id print length md5) call.id call.moment) state.now result }
    ensures sized { OnOk result (AreSized print length md5 parts) }
{
    let Some(opened) = upload_of(state.uploads.as_slice(), upload) else {
        return Err(ActFault::Refused(KeyRefusal::NoSuchUpload));
    };
    let kind = opened.kind.clone()?;
    let made = Version {
        id: new_name(call.mode, call.id),
        modified: call.moment,
        what: object(data_id, print, length, md5, parts, Some(upload), kind),
    };
    let etag = Etag { md5, parts };
    complete_version(alloc, state, call.mode, made, upload, etag)
}

/// An object with these fields.
fn object(
    data_id: VersionId,
    print: [u8; 32],
    length: u64,
    md5: [u8; 16],
    parts: u16,
    upload: Option<VersionId>,
    kind: Text,
) -> What
    ensures made { result ≡ What.Object data_id print length md5 parts upload kind }
    ensures sized { AreSized print length md5 parts }
{
    What::Object {
        data_id,
        print,
        length,
        md5,
        parts,
        upload,
        kind,
    }
}

/// A DELETE.
fn delete(alloc: Global, state: &KeyState, call: Call, pick: &Pick) -> Result<Applied, ActFault>
    ensures { Answers (Step state.now call.mode (Act.Delete pick.now) call.id call.moment) state.now result }
{
    match pick {
        Pick::Current => delete_current(alloc, state, call),
        Pick::Null => delete_named(alloc, state, call.mode, VersionName::Null),
        Pick::Id(id) => delete_named(alloc, state, call.mode, VersionName::Id(*id)),
    }
}

/// A DELETE that names no version: in mode Never the version `null` goes, and else a marker is put in front.
fn delete_current(alloc: Global, state: &KeyState, call: Call) -> Result<Applied, ActFault>
    ensures { Answers (Deletes state.now call.mode call.id call.moment) state.now result }
{
    match call.mode {
        Mode::Never => {
            let outcome = remove_version(alloc, state, VersionName::Null)?;
            Ok(outcome.answered(Reply::Deleted {
                id: None,
                marker: false,
            }))
        }
        Mode::Enabled => add_marker(alloc, state, call),
        Mode::Suspended => add_marker(alloc, state, call),
    }
}

/// Puts a delete marker in front, unless the key has all the versions that it may have.
fn add_marker(alloc: Global, state: &KeyState, call: Call) -> Result<Applied, ActFault>
    ensures { Answers (AddsMarker state.now call.mode call.id call.moment) state.now result }
{
    let goes = replaced(call.mode);
    if count_kept(state.versions.as_slice(), goes) >= MOST_VERSIONS {
        return Err(ActFault::Refused(KeyRefusal::VersionLimit));
    }
    let name = new_name(call.mode, call.id);
    let marker = Version {
        id: name,
        modified: call.moment,
        what: What::Marker,
    };
    let outcome = add_version(alloc, state, marker, goes)?;
    Ok(outcome.answered(Reply::Deleted {
        id: Some(name),
        marker: true,
    }))
}

/// A DELETE of the version of this name, which goes for good.
fn delete_named(
    alloc: Global,
    state: &KeyState,
    mode: Mode,
    name: VersionName,
) -> Result<Applied, ActFault>
    ensures { Answers (RemovesVersion state.now mode name) state.now result }
{
    let marker = any_marker_named(state.versions.as_slice(), name);
    let outcome = remove_version(alloc, state, name)?;
    Ok(outcome.answered(Reply::Deleted {
        id: told(mode, name),
        marker,
    }))
}

/// Opens an upload, unless the key has all the uploads that it may have.
fn create(alloc: Global, state: &KeyState, call: Call, kind: &Text) -> Result<Applied, ActFault>
    ensures { Answers (OpensUpload state.now record { id = call.id; opened = call.moment; kind = kind.now }) state.now result }
{
    if state.uploads.len() >= MOST_UPLOADS {
        return Err(ActFault::Refused(KeyRefusal::UploadLimit));
    }
    let opened = Upload {
        id: call.id,
        opened: call.moment,
        kind: kind.clone()?,
    };
    let outcome = open_upload(alloc, state, opened)?;
    Ok(outcome.answered(Reply::Opened(call.id)))
}

/// Closes an upload, and puts the version that it made in front.
fn complete_version(
    alloc: Global,
    state: &KeyState,
    mode: Mode,
    made: Version,
    upload: VersionId,
    etag: Etag,
) -> Result<Applied, ActFault>
    requires found { IsSome (find (is_upload upload) state.now.uploads) }
    requires named { IsNone (replaced mode) ⊎ (is_named (replaced mode) made ≡ true) }
    ensures { Answers
        (AddsVersion state.now mode made (still_open upload state.now.uploads) (Reply.Completed etag (told mode made.id)))
        state.now result }
{
    let goes = replaced(mode);
    if count_kept(state.versions.as_slice(), goes) >= MOST_VERSIONS {
        return Err(ActFault::Refused(KeyRefusal::VersionLimit));
    }
    let id = told(mode, made.id);
    let outcome = complete_upload(alloc, state, made, goes, upload)?;
    Ok(outcome.answered(Reply::Completed { etag, id }))
}

/// Puts a version in front, unless the key has all the versions that it may have.
fn put_version(
    alloc: Global,
    state: &KeyState,
    mode: Mode,
    made: Version,
    etag: Etag,
) -> Result<Applied, ActFault>
    requires { IsNone (replaced mode) ⊎ (is_named (replaced mode) made ≡ true) }
    ensures { Answers
        (AddsVersion state.now mode made state.now.uploads (Reply.Stored etag (told mode made.id)))
        state.now result }
{
    let goes = replaced(mode);
    if count_kept(state.versions.as_slice(), goes) >= MOST_VERSIONS {
        return Err(ActFault::Refused(KeyRefusal::VersionLimit));
    }
    let id = told(mode, made.id);
    let outcome = add_version(alloc, state, made, goes)?;
    Ok(outcome.answered(Reply::Stored { etag, id }))
}

/// Closes an upload, whose parts are dropped.
fn abort(alloc: Global, state: &KeyState, upload: VersionId) -> Result<Applied, ActFault>
    ensures { Answers
        (WithUpload state.now upload (λ opened. Does Reply.Plain state.now.versions (still_open upload state.now.uploads)))
        state.now result }
{
    if upload_of(state.uploads.as_slice(), upload).is_none() {
        return Err(ActFault::Refused(KeyRefusal::NoSuchUpload));
    }
    let outcome = close_upload(alloc, state, upload)?;
    Ok(outcome.answered(Reply::Plain))
}
