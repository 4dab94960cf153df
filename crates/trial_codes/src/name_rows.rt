//! Rows over `body_print`. An id is its term, its slot and its sequence number.

ghost use Rattle.std.specs.Prelude.{◌≡◌, ◌≢◌, ℕ, ◌≤◌, Bool, List, false};
ghost use Rattle.body_print.specs.Clashes.{Clash};
ghost use Rattle.body_print.specs.Shards.{AreShards};
ghost use Rattle.drive_base.specs.Files.{Files};
ghost use Rattle.field_reader.specs.Spelling.{IsBytes};
ghost use Rattle.sha2.specs.Sha256.{sha256};

use body_print::{
    body_laws, loose_name_of_manifest, loose_name_of_shard, name_of_manifest, name_of_shard,
};
use stamp_id::{Ballot, ChangeId, VersionId};
use std::alloc::Global;
use trial_base::{NoAnswer, number, said, word};

/// What a caller draws from the laws: shards of one body are the same.
fn one_list_of_shards()
    ensures { (n d : ℕ) (body : List ℕ) (a b : List (List (List ℕ))) → n ≤ 256 → d ≤ n → AreShards n d body a → AreShards n d body b → a ≡ b }
{
    body_laws();
}

/// What a caller draws from a clash, also over drives that tell nothing: two byte strings that differ have one SHA-256.
fn a_clash_is_a_collision()
    ensures { (files : ℕ → Files) (body print drives : List ℕ) → Clash (λ d. false) files 4 2 body print drives
        → (a b : List ℕ) × IsBytes a × IsBytes b × (a ≢ b) × (sha256 a ≡ sha256 b) }
{
    body_laws();
}

/// The id of these numbers.
fn id(term: u64, slot: u64, seq: u64) -> Option<VersionId> {
    if term < 1 || term >= 1 << 48 || slot >= 64 || seq < 1 || seq >= 1 << 62 {
        return None;
    }
    let change = ChangeId(Ballot { term, seq });
    Some(VersionId::from_parts(change, slot as u8))
}

pub fn answer(alloc: Global, row: &str) -> Result<String, NoAnswer> {
    if word(row, 0) == "laws" {
        one_list_of_shards();
        a_clash_is_a_collision();
        return said(alloc, "done");
    }
    let (term, slot) = (number(word(row, 1)), number(word(row, 2)));
    let Some(id) = id(term, slot, number(word(row, 3))) else {
        return said(alloc, "no such id");
    };
    match word(row, 0) {
        "name_of_manifest" => Ok(name_of_manifest(alloc, id)?),
        "name_of_shard" => Ok(name_of_shard(alloc, id)?),
        "loose_name_of_manifest" => Ok(loose_name_of_manifest(alloc, id)?),
        "loose_name_of_shard" => Ok(loose_name_of_shard(alloc, id)?),
        _ => said(alloc, "no such call"),
    }
}
