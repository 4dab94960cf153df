//! Rows over `version_list`: states of keys, which are read of their contents.

ghost use Rattle.std.specs.Prelude.{IfOk, IfSome};
ghost use Rattle.version_list.specs.Lawful.{IsLawful};
ghost use Rattle.version_list.specs.State.{IsCanonical, IsKind};

use crate::books::list_fault;
use crate::call_rows::{key_refusal, reply, version_name};
use crate::id_rows::{first_id, id_of, parts};
use call_types::{Act, Brief, Mode, Pick, Upload, Version, What};
use field_reader::{put_u8, put_u32, put_u64};
use seal_file::Text;
use stamp_id::VersionId;
use std::alloc::Global;
use trial_base::{Names, NoAnswer, bytes, first, number, said, said_bytes, said_number, word};
use version_list::{
    ActFault, Applied, KeyState, apply, find, find_upload, has_data, names_id, naming_laws,
    place_laws, place_of_id, read, state_laws, write,
};

/// What a version is, in words.
fn told_what(alloc: Global, what: &What) -> Result<String, NoAnswer> {
    let What::Object {
        data_id,
        print,
        length,
        md5,
        parts: count,
        upload,
        kind,
    } = what
    else {
        return said(alloc, "marker");
    };
    let data = parts(alloc, *data_id)?;
    let print = said_bytes(alloc, "", print.as_slice())?;
    let md5 = said_bytes(alloc, "", md5.as_slice())?;
    let upload = match upload {
        Some(upload) => parts(alloc, *upload)?,
        None => said(alloc, "none")?,
    };
    let kind = said_bytes(alloc, "", kind.as_slice())?;
    Ok(format!(in alloc;
        "data {data}, print {print}, {length} bytes, {md5}, {count} parts, upload {upload}, kind {kind}"
    )?)
}

/// A version in words.
fn told_version(alloc: Global, version: &Version) -> Result<String, NoAnswer> {
    let name = version_name(alloc, version.id)?;
    let what = told_what(alloc, &version.what)?;
    Ok(format!(in alloc; "{name} at {}, {what}", version.modified)?)
}

/// An upload in words.
fn told_upload(alloc: Global, upload: &Upload) -> Result<String, NoAnswer> {
    let id = parts(alloc, upload.id)?;
    let kind = said_bytes(alloc, "", upload.kind.as_slice())?;
    Ok(format!(in alloc; "{id} at {}, kind {kind}", upload.opened)?)
}

/// `version PLACE STATE`
fn nth_version(alloc: Global, state: &KeyState, place: u64) -> Result<String, NoAnswer> {
    for (at, version) in state.versions.as_slice().iter().enumerate() {
        if at as u64 == place {
            return told_version(alloc, version);
        }
    }
    said(alloc, "no such version")
}

/// `upload PLACE STATE`
fn nth_upload(alloc: Global, state: &KeyState, place: u64) -> Result<String, NoAnswer> {
    for (at, upload) in state.uploads.as_slice().iter().enumerate() {
        if at as u64 == place {
            return told_upload(alloc, upload);
        }
    }
    said(alloc, "no such upload")
}

/// `read STATE`: how many versions and uploads there are.
fn counts(alloc: Global, state: &KeyState) -> Result<String, NoAnswer> {
    let (versions, uploads) = (state.versions.len(), state.uploads.len());
    Ok(format!(in alloc; "{versions} versions, {uploads} uploads")?)
}

/// What is written of the state that is read: whether it is the content again, and its buffer's size.
fn again(alloc: Global, content: &[u8]) -> Result<String, NoAnswer> {
    let state = match read(alloc, content) {
        Ok(state) => state,
        Err(fault) => return list_fault(alloc, fault),
    };
    let written = write(alloc, &state)?;
    let counts = counts(alloc, &state)?;
    let same = if written.as_slice() == content {
        "the same"
    } else {
        "another content"
    };
    let (len, room) = (written.len(), written.capacity());
    Ok(format!(in alloc; "{counts}, {same}, {len} bytes in {room}")?)
}

/// The id of a word, if it is one's.
fn id_word(alloc: Global, names: &Names, word: &str) -> Result<Option<VersionId>, NoAnswer> {
    let bytes = bytes(alloc, names, word)?;
    Ok(id_of(bytes.as_slice()))
}

/// The version that a read names: `current`, `null` or an id.
fn pick(alloc: Global, names: &Names, word: &str) -> Result<Pick, NoAnswer> {
    match word {
        "current" => Ok(Pick::Current),
        "null" => Ok(Pick::Null),
        _ => match id_word(alloc, names, word)? {
            Some(id) => Ok(Pick::Id(id)),
            None => Err(NoAnswer),
        },
    }
}

/// `find PICK STATE`
fn found(alloc: Global, state: &KeyState, pick: &Pick) -> Result<String, NoAnswer> {
    match find(state, pick) {
        Ok(place) => said_number(alloc, "version ", place as u64),
        Err(why) => key_refusal(alloc, why),
    }
}

/// `names ID STATE`: where a state first names an id, and whether that is data or an upload.
fn named(alloc: Global, content: &[u8], id: VersionId) -> Result<String, NoAnswer> {
    let state = match read(alloc, content) {
        Ok(state) => state,
        Err(fault) => return list_fault(alloc, fault),
    };
    let data = if has_data(&state, id) { ", data" } else { "" };
    let upload = if find_upload(&state, id).is_some() {
        ", upload"
    } else {
        ""
    };
    match place_of_id(&state, id) {
        Some(at) => Ok(format!(in alloc; "at {at}{data}{upload}")?),
        None => said(
            alloc,
            if names_id(&state, id) {
                "named"
            } else {
                "not named"
            },
        ),
    }
}

/// So many markers and uploads, each with an id of its own. The first marker is `null` where that is asked.
fn crowd(alloc: Global, versions: u64, uploads: u64, null: bool) -> Result<Vec<u8>, NoAnswer> {
    let (versions, uploads) = (versions.min(20_000) as u32, uploads.min(20_000) as u32);
    let mut content = Vec::new(alloc);
    put_u32(&mut content, versions)?;
    for count in 0..versions {
        let is_null = null && count == 0;
        put_u64(&mut content, if is_null { 0 } else { 0x1_8000 })?;
        let low = 0xbfff_ffff_ffff_ffff - count as u64;
        put_u64(&mut content, if is_null { 0 } else { low })?;
        put_u8(&mut content, 0)?;
        put_u64(&mut content, count as u64)?;
    }
    put_u32(&mut content, uploads)?;
    for count in 0..uploads {
        put_u64(&mut content, 0x2_8000)?;
        put_u64(&mut content, 0xbfff_ffff_ffff_ffff - count as u64)?;
        put_u64(&mut content, count as u64)?;
        put_u8(&mut content, 0)?;
    }
    Ok(content)
}

/// A content type.
fn kind(alloc: Global, word: &str) -> Result<Text, NoAnswer>
    ensures { IfOk result (λ kind. IsKind kind) }
{
    let bytes = word.as_bytes();
    if bytes.len() > 255 {
        return Ok(Text::empty(alloc));
    }
    Ok(Text::from_slice(alloc, bytes)?)
}

/// `put KIND` of data of this id.
fn put(alloc: Global, word: &str, data_id: VersionId) -> Result<Act, NoAnswer>
    ensures { IfOk result (λ act. IsLawful act) }
{
    Ok(Act::Put {
        data_id,
        print: [7; 32],
        length: 5,
        md5: [9; 16],
        kind: kind(alloc, word)?,
    })
}

/// `complete UPLOAD` of two parts, or `abort UPLOAD`.
fn of_upload(
    alloc: Global,
    names: &Names,
    call: &str,
    word: &str,
    data_id: VersionId,
) -> Result<Act, NoAnswer>
    ensures { IfOk result (λ act. IsLawful act) }
{
    let Some(upload) = id_word(alloc, names, word)? else {
        return Err(NoAnswer);
    };
    if call == "abort" {
        return Ok(Act::Abort { upload });
    }
    Ok(Act::Complete {
        upload,
        parts: 2,
        data_id,
        print: [8; 32],
        length: 9,
        md5: [6; 16],
    })
}

/// What an act does: `put KIND`, `delete PICK`, `create KIND`, `complete UPLOAD` of two parts, or `abort UPLOAD`. Data
/// has this id.
fn act(
    alloc: Global,
    names: &Names,
    call: &str,
    word: &str,
    data_id: VersionId,
) -> Result<Act, NoAnswer>
    ensures { IfOk result (λ act. IsLawful act) }
{
    match call {
        "put" => put(alloc, word, data_id),
        "create" => Ok(Act::Create {
            kind: kind(alloc, word)?,
        }),
        "delete" => Ok(Act::Delete(pick(alloc, names, word)?)),
        _ => of_upload(alloc, names, call, word, data_id),
    }
}

/// The reply of a change, in words.
fn told_done(alloc: Global, done: &Brief) -> Result<String, NoAnswer> {
    match done {
        Brief::Answer(told) => reply(alloc, told),
        _ => said(alloc, "no reply"),
    }
}

/// What a change leaves, in words: a state that is written, and the data that is gone.
fn told_applied(alloc: Global, applied: &Applied) -> Result<String, NoAnswer> {
    let done = told_done(alloc, &applied.done)?;
    let gone = said_bytes(alloc, "", applied.gone.as_slice())?;
    Ok(format!(in alloc; "{done}, gone {gone}")?)
}

/// The state that a change leaves, written; nothing where it is the old one.
fn leaves(alloc: Global, state: &Option<KeyState>) -> Result<String, NoAnswer>
    requires { IfSome state.now IsCanonical }
{
    let Some(state) = state else {
        return said(alloc, "the old state");
    };
    let written = write(alloc, state)?;
    if written.len() > 1_000 {
        return said_number(alloc, "bytes ", written.len() as u64);
    }
    said_bytes(alloc, "", written.as_slice())
}

/// What is said of a change that is made, or is refused.
fn told_change(alloc: Global, change: &Result<Applied, ActFault>) -> Result<String, NoAnswer>
    requires { IfOk change.now (λ applied. IfSome applied.state IsCanonical) }
{
    match change {
        Ok(applied) => {
            let done = told_applied(alloc, applied)?;
            let state = leaves(alloc, &applied.state)?;
            Ok(format!(in alloc; "{done}, leaves {state}")?)
        }
        Err(ActFault::Refused(why)) => key_refusal(alloc, *why),
        Err(ActFault::NoMemory) => Err(NoAnswer),
    }
}

/// The moment of each change: 6 November 1994, 08:49:37.
const NOW: u64 = 784_111_777;

/// A change of the state of this content, by an act in a bucket of this mode, which drew this id.
fn change(
    alloc: Global,
    content: &[u8],
    mode: Mode,
    act: &Act,
    id: VersionId,
) -> Result<String, NoAnswer>
    requires { IsLawful act.now }
{
    let state = match read(alloc, content) {
        Ok(state) => state,
        Err(fault) => return list_fault(alloc, fault),
    };
    if names_id(&state, id) {
        return said(alloc, "the id is named");
    }
    let change = apply(alloc, &state, mode, act, id, NOW);
    told_change(alloc, &change)
}

/// `MODE ID ACT WORD STATE`
fn changed(alloc: Global, names: &Names, mode: Mode, row: &str) -> Result<String, NoAnswer> {
    let (id, rest) = first(row);
    let (call, rest) = first(rest);
    let (word, state) = first(rest);
    let Some(id) = id_word(alloc, names, id)? else {
        return said(alloc, "no such id");
    };
    let content = bytes(alloc, names, state)?;
    let act = act(alloc, names, call, word, id)?;
    change(alloc, content.as_slice(), mode, &act, id)
}

/// `full MODE`: a put to a key that has 10,000 versions, one of them `null`.
fn full(alloc: Global, word: &str) -> Result<String, NoAnswer> {
    let content = crowd(alloc, 10_000, 0, true)?;
    let act = put(alloc, "text/plain", first_id())?;
    let mode = if word == "never" {
        Mode::Never
    } else {
        Mode::Enabled
    };
    change(alloc, content.as_slice(), mode, &act, first_id())
}

/// The rows of a state that is read: `CALL WORD STATE`.
fn of_state(alloc: Global, names: &Names, call: &str, row: &str) -> Result<String, NoAnswer> {
    let (word, rest) = first(row);
    let content = bytes(alloc, names, rest)?;
    let state = match read(alloc, content.as_slice()) {
        Ok(state) => state,
        Err(fault) => return list_fault(alloc, fault),
    };
    match call {
        "version" => nth_version(alloc, &state, number(word)),
        "upload" => nth_upload(alloc, &state, number(word)),
        "find" => {
            let pick = pick(alloc, names, word)?;
            found(alloc, &state, &pick)
        }
        _ => said(alloc, "no such call"),
    }
}

/// `names ID STATE`
fn names_row(alloc: Global, names: &Names, row: &str) -> Result<String, NoAnswer> {
    let (word, rest) = first(row);
    let content = bytes(alloc, names, rest)?;
    match id_word(alloc, names, word)? {
        Some(id) => named(alloc, content.as_slice(), id),
        None => said(alloc, "no such id"),
    }
}

pub fn answer(alloc: Global, names: &Names, row: &str) -> Result<String, NoAnswer> {
    let (call, rest) = first(row);
    match call {
        "read" => {
            let content = bytes(alloc, names, rest)?;
            again(alloc, content.as_slice())
        }
        "crowd" => {
            let content = crowd(alloc, number(word(rest, 0)), number(word(rest, 1)), false)?;
            again(alloc, content.as_slice())
        }
        "full" => full(alloc, rest),
        "names" => names_row(alloc, names, rest),
        "never" => changed(alloc, names, Mode::Never, rest),
        "enabled" => changed(alloc, names, Mode::Enabled, rest),
        "suspended" => changed(alloc, names, Mode::Suspended, rest),
        "laws" => {
            naming_laws();
            place_laws();
            state_laws();
            said(alloc, "done")
        }
        _ => of_state(alloc, names, call, rest),
    }
}
