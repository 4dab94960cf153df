//! Reads of a key.

ghost use Rattle.std.specs.Prelude.{◌≡◌, ◌<◌, IfSome, length, position};
ghost use Rattle.version_list.specs.Naming.{has_name};
ghost use Rattle.version_list.specs.Reads.{Reads, ReadsCurrent, ReadsNamed};

use crate::state::KeyState;
use call_types::{KeyRefusal, Pick, Version, VersionName, What};

/// The place in `state.versions` of the version that a read gives, as S3's GetObject: the first where the read names
/// none, and else the first of that name.
///
/// - `NoSuchKey` where the read names no version, and there is none, or the first one is the marker that is told.
/// - `NoSuchVersion` where there is no version of that name.
/// - `MarkerNamed` where the version of that name is a marker.
pub fn find(state: &KeyState, pick: &Pick) -> Result<usize, KeyRefusal>
    ensures { Reads state.now.versions pick.now result }
{
    let versions = state.versions.as_slice();
    match pick {
        Pick::Current => find_current(versions),
        Pick::Null => find_named(versions, VersionName::Null),
        Pick::Id(id) => find_named(versions, VersionName::Id(*id)),
    }
}

fn find_current(versions: &[Version]) -> Result<usize, KeyRefusal>
    ensures { ReadsCurrent versions.now result }
{
    match versions {
        [] => Err(KeyRefusal::NoSuchKey { marker: None }),
        [first, ..] => match first.what {
            What::Marker => Err(KeyRefusal::NoSuchKey {
                marker: Some(first.id),
            }),
            What::Object { .. } => Ok(0),
        },
    }
}

fn find_named(versions: &[Version], name: VersionName) -> Result<usize, KeyRefusal>
    ensures { ReadsNamed name versions.now result }
{
    match place_of(versions, name) {
        None => Err(KeyRefusal::NoSuchVersion),
        Some(place) => {
            let version = &versions[place];
            match version.what {
                What::Marker => Err(KeyRefusal::MarkerNamed {
                    id: version.id,
                    modified: version.modified,
                }),
                What::Object { .. } => Ok(place),
            }
        }
    }
}

fn place_of(versions: &[Version], name: VersionName) -> Option<usize>
    ensures value { result ≡ position (has_name name) versions.now }
    ensures within { IfSome result (λ place. place < length versions.now) }
{
    versions.iter().position(|version| version.id == name)
}
