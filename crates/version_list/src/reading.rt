//! States from bytes.

ghost use Rattle.std.specs.Prelude.{◌≡◌, List, ℕ, false, map, IfOk};
ghost use Rattle.std.specs.Int.{w8, w32, w64};
ghost use Rattle.field_reader.specs.Format.{number, short_text, with_rule, value_of, fault_at};
ghost use Rattle.field_reader.specs.Reading.{Gives, GivesWhole, Takes};
ghost use Rattle.version_list.specs.Rows.{object_row, version_row, upload_row, rows_of};
ghost use Rattle.version_list.specs.Layout.{is_moment, is_class, object, object_of_class, version, version_names, versions, upload, uploads, is_among, is_version_count, is_upload_count, long_state, key_state};
ghost use Rattle.version_list.specs.Known.{is_known, AddsName};
ghost use Rattle.version_list.specs.State.{IsCanonical};
ghost use Rattle.version_list.specs.Spelling.{spelling};
ghost use Rattle.version_list.specs.Laws.{IsReadAs, TellsFault, SpellingsHaveNoFault, FaultlessIsSpelled, SpellingIsInjective};
ghost use Rattle.version_list.specs.declared.state.KeyState.{KeyState};

use crate::ids::{take_name, take_new_id, take_upload_id};
use crate::names::Names;
use crate::state::{KeyState, MOMENT_LIMIT, MOST_UPLOADS, MOST_VERSIONS};
use call_types::{ListFault, Upload, Uploads, Version, Versions, What};
use field_reader::{Fields, Misspelled, ReadFault, refuse_unless};
use seal_file::Text;
use stamp_id::take_id;
use std::alloc::Global;

/// Takes a moment in Unix seconds, which must be before the year 10000.
fn take_moment(fields: &mut Fields) -> Result<u64, Misspelled>
    ensures { Takes (λ moment. moment) result fields.new (with_rule is_moment (number w64) fields.old) }
{
    let start = fields.at();
    let moment = fields.take_u64()?;
    refuse_unless(moment < MOMENT_LIMIT, start)?;
    Ok(moment)
}

/// Takes the class of a version: 0 for a marker, 1 for an object.
fn take_class(fields: &mut Fields) -> Result<u8, Misspelled>
    ensures { Takes (λ class. class) result fields.new (with_rule is_class (number w8) fields.old) }
{
    let start = fields.at();
    let class = fields.take_u8()?;
    refuse_unless(class < 2, start)?;
    Ok(class)
}

/// Takes a content type.
fn take_kind(alloc: Global, fields: &mut Fields) -> Result<Text, ReadFault>
    ensures { Gives (λ kind. kind) result fields.new (short_text fields.old) }
{
    let kind = fields.take_short_text()?;
    Ok(Text::from_vec(Vec::from_slice(alloc, kind)?))
}

/// Takes the fields that an object has and a marker has not.
#[tactic(auto, unfolding(crate::specs::Layout::object))]
fn take_object(alloc: Global, fields: &mut Fields) -> Result<What, ReadFault>
    ensures { Gives object_row result fields.new (object fields.old) }
{
    let data_id = take_id(fields)?;
    let print = fields.take_bytes()?;
    let length = fields.take_u64()?;
    let md5 = fields.take_bytes()?;
    let parts = fields.take_u16()?;
    let upload = take_upload_id(fields, parts)?;
    let kind = take_kind(alloc, fields)?;
    Ok(What::Object {
        data_id,
        print,
        length,
        md5,
        parts,
        upload,
        kind,
    })
}

/// Takes what stands behind the moment of a version of this class.
fn take_what(alloc: Global, fields: &mut Fields, class: u8) -> Result<What, ReadFault>
    ensures { Gives object_row result fields.new (object_of_class class fields.old) }
{
    if class == 0 {
        return Ok(What::Marker);
    }
    take_object(alloc, fields)
}

/// Takes a version, whose name must not be known yet.
#[tactic(auto, unfolding(crate::specs::Layout::version))]
fn take_version(alloc: Global, fields: &mut Fields, names: &mut Names) -> Result<Version, ReadFault>
    ensures gives { Gives version_row result fields.new (version (is_known names.old) fields.old) }
    ensures known { IfOk result (λ v. AddsName names.old names.new (version_row v).id) }
{
    let id = take_name(fields, names)?;
    let class = take_class(fields)?;
    let modified = take_moment(fields)?;
    let what = take_what(alloc, fields, class)?;
    Ok(Version { id, modified, what })
}

/// Takes an upload, whose id must not be known yet.
#[tactic(auto, unfolding(crate::specs::Layout::upload))]
fn take_upload(alloc: Global, fields: &mut Fields, names: &mut Names) -> Result<Upload, ReadFault>
    ensures gives { Gives upload_row result fields.new (upload (is_known names.old) fields.old) }
    ensures known { IfOk result (λ u. AddsName names.old names.new (upload_row u).id) }
{
    let id = take_new_id(fields, names)?;
    let opened = take_moment(fields)?;
    let kind = take_kind(alloc, fields)?;
    Ok(Upload { id, opened, kind })
}

/// Takes so many versions. Their names, and no others, are known then.
fn take_versions(
    alloc: Global,
    fields: &mut Fields,
    names: &mut Names,
    count: u32,
) -> Result<Vec<Version>, ReadFault>
    requires { (bytes : List ℕ) → is_known names.old bytes ≡ false }
    ensures gives { Gives (λ vs. map version_row vs.items) result fields.new (versions count fields.old) }
    ensures known { IfOk result (λ vs. is_known names.new ≡ is_among (version_names (map version_row vs.items))) }
{
    let mut versions = Vec::new(alloc);
    for _ in 0..count {
        let version = take_version(alloc, fields, names)?;
        versions.push(version)?;
    }
    Ok(versions)
}

/// Takes so many uploads, whose ids must not be known yet.
fn take_uploads(
    alloc: Global,
    fields: &mut Fields,
    names: &mut Names,
    count: u32,
) -> Result<Vec<Upload>, ReadFault>
    ensures { Gives (λ us. map upload_row us.items) result fields.new
        (uploads (is_known names.old) count fields.old) }
{
    let mut uploads = Vec::new(alloc);
    for _ in 0..count {
        let upload = take_upload(alloc, fields, names)?;
        uploads.push(upload)?;
    }
    Ok(uploads)
}

/// Takes the number of versions.
fn take_version_count(fields: &mut Fields) -> Result<u32, Misspelled>
    ensures { Takes (λ count. count) result fields.new (with_rule is_version_count (number w32) fields.old) }
{
    let start = fields.at();
    let count = fields.take_u32()?;
    refuse_unless(count as usize <= MOST_VERSIONS, start)?;
    Ok(count)
}

/// Takes the number of uploads, which is not 0 where there is no version.
fn take_upload_count(fields: &mut Fields, versions: u32) -> Result<u32, Misspelled>
    ensures { Takes (λ count. count) result fields.new (with_rule (is_upload_count versions) (number w32) fields.old) }
{
    let start = fields.at();
    let count = fields.take_u32()?;
    refuse_unless(
        count as usize <= MOST_UPLOADS && (versions > 0 || count > 0),
        start,
    )?;
    Ok(count)
}

/// Takes a state with a version or an upload.
#[tactic(auto, unfolding(crate::specs::Layout::long_state))]
fn take_long_state(alloc: Global, fields: &mut Fields) -> Result<KeyState, ReadFault>
    ensures { Gives rows_of result fields.new (long_state fields.old) }
{
    let mut names = Names::new(alloc);
    let version_count = take_version_count(fields)?;
    let versions = take_versions(alloc, fields, &mut names, version_count)?;
    let upload_count = take_upload_count(fields, version_count)?;
    let uploads = take_uploads(alloc, fields, &mut names, upload_count)?;
    Ok(KeyState {
        versions: Versions::from_vec(versions),
        uploads: Uploads::from_vec(uploads),
    })
}

/// Takes a state.
#[tactic(auto, unfolding(crate::specs::Layout::key_state))]
fn take_state(alloc: Global, fields: &mut Fields) -> Result<KeyState, ReadFault>
    ensures { Gives rows_of result fields.new (key_state fields.old) }
{
    if fields.rest().is_empty() {
        return Ok(KeyState {
            versions: Versions::new(alloc),
            uploads: Uploads::new(alloc),
        });
    }
    take_long_state(alloc, fields)
}

/// The state that a content spells, or its first fault.
#[tactic(auto, unfolding(field_reader::specs::Format::value_of))]
fn whole_state(alloc: Global, content: &[u8]) -> Result<KeyState, ReadFault>
    ensures { GivesWhole rows_of result (value_of key_state content.now) }
{
    let mut fields = Fields::new(content);
    let state = take_state(alloc, &mut fields)?;
    fields.finish()?;
    Ok(state)
}

/// The state that a content spells. A content that spells none is `NotCanonical`, at the place of its first fault:
/// the start of the first field that breaks its rule, the number of its bytes where bytes are missing, or the first
/// byte too many.
pub fn read(alloc: Global, content: &[u8]) -> Result<KeyState, ListFault>
    // What is read is canonical, and the content is its spelling.
    ensures found { IfOk result (λ state. IsCanonical state × (content.now ≡ spelling state)) }
    // The spelling of a canonical state is read as that state.
    ensures only { (state : KeyState) → IsCanonical state → content.now ≡ spelling state → IsReadAs state result }
    // A refusal names the first fault.
    ensures fault { TellsFault result (fault_at key_state content.now) }
{
    match whole_state(alloc, content) {
        Ok(state) => Ok(state),
        Err(ReadFault::At(place)) => Err(ListFault::NotCanonical(place)),
        Err(ReadFault::NoMemory) => Err(ListFault::NoMemory),
    }
}

/// The laws of spellings, for a caller's proof: the spelling of a canonical state has no fault, a content with no
/// fault spells a canonical state, and two canonical states with one spelling are the same. It does nothing.
pub fn state_laws()
    ensures spelled { SpellingsHaveNoFault }
    ensures faultless { FaultlessIsSpelled }
    ensures injective { SpellingIsInjective }
{}
