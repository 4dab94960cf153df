//! Manifests as files.

ghost use Rattle.std.specs.Prelude.{◌≡◌, IfOk};
ghost use Rattle.sealed_record.specs.Answers.{Reads, ReadsFiles, NamesDamage, NamesFault};
ghost use Rattle.sealed_record.specs.Laws.{SpellingsAreRead, FaultlessIsSpelled, SpellingIsInjective};
ghost use Rattle.manifest_file.specs.Canonical.{IsCanonical};
ghost use Rattle.manifest_file.specs.Rows.{ManifestRow};
ghost use Rattle.manifest_file.specs.Spelling.{manifest_kind, file_of};
ghost use Rattle.manifest_file.specs.Table.{manifest_table, FileIsInjective, ManifestsAreNoLonger, SomeManifestIsAsLong};

use crate::manifest::{KIND, LONGEST_FILE, Manifest};
use crate::reading::take_manifest;
use crate::writing::{put_manifest, spelling_size};
use fault_base::NoMemory;
use field_reader::{Fields, ReadFault};
use seal_file::RecordFault;
use sealed_record::Record;
use std::alloc::{AllocError, Global};

impl Record for Manifest {
    ghost Row = { ManifestRow };

    ghost table = { manifest_table };

    fn take(alloc: Global, fields: &mut Fields) -> Result<Manifest, ReadFault> {
        take_manifest(alloc, fields)
    }

    fn put(&self, out: &mut Vec<u8>) -> Result<(), AllocError> {
        put_manifest(out, self)
    }

    fn size(&self) -> usize {
        spelling_size(self)
    }
}

/// The manifest of a manifest's file.
///
/// Bytes that are no sealed file of the kind `OMAN` are `Unsealed`, with their first damage. A body that spells no
/// manifest is `NotCanonical`, at the place of its first fault, counted from 0 in the body, which is what stands between
/// the kind and the digest: the start of the first field that breaks its rule, the number of the body's bytes where
/// bytes are missing, or the first byte too many. The numbers of drives and of parity have no rule.
#[tactic(auto, using(crate::proofs::LawProofs::manifest_lawful))]
pub fn read(alloc: Global, bytes: &[u8]) -> Result<Manifest, RecordFault>
    // What is read is canonical and this is its file; what is refused is damaged, or its body has a fault there.
    ensures outcome { Reads manifest_kind manifest_table bytes.now result }
    // The file of a canonical manifest is read as that manifest.
    ensures only { ReadsFiles manifest_kind manifest_table bytes.now result }
    // A damage is named, always.
    ensures damaged { NamesDamage manifest_kind bytes.now result }
    // A sealed body with no fault is read, and a fault is named.
    ensures fault { NamesFault manifest_kind manifest_table bytes.now result }
{
    sealed_record::read(alloc, KIND, bytes)
}

/// The file of a manifest: its spelling, sealed with the kind `OMAN`. Want of memory is the only error.
pub fn write(alloc: Global, manifest: &Manifest) -> Result<Vec<u8>, NoMemory>
    // The name, the number of parts and their lengths keep their limits, and each part has a root for each drive.
    requires { IsCanonical manifest.now }
    ensures { IfOk result (λ bytes. bytes.items ≡ file_of manifest.now) }
{
    sealed_record::write(alloc, KIND, manifest)
}

/// The laws of spellings, for a caller's proof: a canonical manifest is found in its spelling, a body with no fault
/// spells a canonical manifest, two canonical manifests with one spelling, or with one file, are the same, no file has
/// more than [`LONGEST_FILE`] bytes, and some file has as many. It does nothing.
pub fn manifest_laws()
    ensures read { SpellingsAreRead manifest_table }
    ensures faultless { FaultlessIsSpelled manifest_table }
    ensures injective { SpellingIsInjective manifest_table }
    ensures files { FileIsInjective }
    ensures lengths { ManifestsAreNoLonger LONGEST_FILE }
    ensures reached { SomeManifestIsAsLong LONGEST_FILE }
{}
