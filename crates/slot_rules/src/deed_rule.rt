//! The contents of a deed's register, and what the deed does to one of them.

ghost use Rattle.std.specs.Prelude.{◌≡◌, ℕ, IfOk, List};
ghost use Rattle.stamp_id.specs.declared.version.VersionId.{VersionId};
ghost use Rattle.bucket_book.specs.Step.{IsLawful as IsLawfulBucketAct};
ghost use Rattle.call_types.specs.declared.names.Key.{Key};
ghost use Rattle.version_list.specs.Lawful.{IsLawful};
ghost use Rattle.version_list.specs.State.{IsMoment};
ghost use Rattle.slot_rules.specs.DeedRules.{IsDeedRule, IsReadFor, deed_most};
ghost use Rattle.slot_rules.specs.Deeds.{IsLawfulDeed};
ghost use Rattle.slot_rules.specs.Planning.{IsBucketDeed, IsPlanned, most_for};
ghost use Rattle.slot_rules.specs.declared.commit.Commit.{Commit};

use crate::commit::Commit;
use crate::owning::OwnIds;
use crate::planning::{Planned, plan_bucket, plan_key, plan_part};
use crate::rules::{BUCKET_BYTES, BucketRule, KEY_BYTES, KeyRule, PART_BYTES, PartRule};
use bucket_book::BucketAct;
use call_types::{Act, Mode, PartRecord};
use fault_base::NoMemory;
use register_core::{ContentFault, ContentRule};
use stamp_id::VersionId;
use std::alloc::Global;

/// The contents of a deed's register. The rule keeps what it read.
#[derive(Drop)]
pub enum DeedRule {
    /// Those of a key, which name neither of the ids that the deed's change may have.
    Key(KeyRule),
    /// Those of a bucket.
    Bucket(BucketRule),
    /// Those of a part.
    Part(PartRule),
}

impl ContentRule for DeedRule {
    ghost use Rattle.slot_rules.specs.DeedRules.{DeedHasRead, deed_fault, deed_most};

    ghost fault_in = { λ rule content. deed_fault rule content };

    ghost most_bytes = { λ rule. deed_most rule };

    ghost has_read = { λ rule content. DeedHasRead rule content };

    fn longest(&self) -> u64 {
        match self {
            DeedRule::Key(rule) => rule.longest(),
            DeedRule::Bucket(rule) => rule.longest(),
            DeedRule::Part(rule) => rule.longest(),
        }
    }

    fn check(&mut self, alloc: Global, content: &[u8]) -> Result<(), ContentFault> {
        match self {
            DeedRule::Key(rule) => rule.check(alloc, content),
            DeedRule::Bucket(rule) => rule.check(alloc, content),
            DeedRule::Part(rule) => rule.check(alloc, content),
        }
    }
}

/// The rule of a deed's register, where its change has one of these ids.
pub fn rule_of_deed(deed: &Commit, ids: &OwnIds) -> DeedRule
    ensures { IsDeedRule deed.now ids.now result }
{
    match deed {
        Commit::Key { .. } => DeedRule::Key(KeyRule {
            first: Some(ids.alone),
            second: Some(ids.after),
            state: None,
        }),
        Commit::Part { .. } => DeedRule::Part(PartRule { row: None }),
        Commit::MakeBucket(_) => DeedRule::Bucket(BucketRule { row: None }),
        Commit::SetMode(_, _) => DeedRule::Bucket(BucketRule { row: None }),
    }
}

/// What a deed does, under this id, to the content that its rule read.
pub fn plan_deed(
    alloc: Global,
    rule: &DeedRule,
    deed: &Commit,
    id: VersionId,
    now: u64,
) -> Result<Planned, NoMemory>
    requires of_deed { deed_most rule.now ≡ most_for deed.now }
    requires read { (content : List ℕ) × IsReadFor rule.now id content }
    requires moment { IsMoment now }
    requires lawful { IsLawfulDeed deed.now }
    ensures { (content : List ℕ) → IsReadFor rule.now id content → IfOk result (λ planned. IsPlanned deed.now now id content planned) }
{
    match deed {
        Commit::Key { mode, act, .. } => plan_at_key(alloc, rule, *mode, act, id, now),
        Commit::Part { part, .. } => plan_at_part(alloc, rule, part, now),
        Commit::MakeBucket(_) => plan_at_bucket(alloc, rule, BucketAct::Make, now),
        Commit::SetMode(_, mode) => plan_at_bucket(alloc, rule, BucketAct::SetMode(*mode), now),
    }
}

/// What an act does to the key that was read.
fn plan_at_key(
    alloc: Global,
    rule: &DeedRule,
    mode: Mode,
    act: &Act,
    id: VersionId,
    now: u64,
) -> Result<Planned, NoMemory>
    requires key { deed_most rule.now ≡ KEY_BYTES }
    requires read { (content : List ℕ) × IsReadFor rule.now id content }
    requires moment { IsMoment now }
    requires lawful { IsLawful act.now }
    ensures { (at : Key) (content : List ℕ) → IsReadFor rule.now id content
        → IfOk result (λ planned. IsPlanned (Commit.Key at mode act.now) now id content planned) }
{
    match rule {
        DeedRule::Key(rule) => {
            let Some(state) = &rule.state else {
                unreachable!()
            };
            plan_key(alloc, state, mode, act, id, now)
        }
        DeedRule::Bucket(_) => unreachable!(),
        DeedRule::Part(_) => unreachable!(),
    }
}

/// What an act does to the bucket that was read, or to none.
fn plan_at_bucket(
    alloc: Global,
    rule: &DeedRule,
    act: BucketAct,
    now: u64,
) -> Result<Planned, NoMemory>
    requires bucket { deed_most rule.now ≡ BUCKET_BYTES }
    requires read { (id : VersionId) × (content : List ℕ) × IsReadFor rule.now id content }
    requires moment { IsMoment now }
    requires lawful { IsLawfulBucketAct act }
    ensures { (deed : Commit) (id : VersionId) (content : List ℕ) → IsBucketDeed deed act → IsReadFor rule.now id content
        → IfOk result (λ planned. IsPlanned deed now id content planned) }
{
    match rule {
        DeedRule::Key(_) => unreachable!(),
        DeedRule::Bucket(rule) => plan_bucket(alloc, &rule.row, act, now),
        DeedRule::Part(_) => unreachable!(),
    }
}

/// What the store of a part does to the part that was read, or to none.
fn plan_at_part(
    alloc: Global,
    rule: &DeedRule,
    part: &PartRecord,
    now: u64,
) -> Result<Planned, NoMemory>
    requires part { deed_most rule.now ≡ PART_BYTES }
    requires read { (id : VersionId) × (content : List ℕ) × IsReadFor rule.now id content }
    requires moment { IsMoment now }
    ensures { (at : Key) (upload : VersionId) (number : ℕ) (id : VersionId) (content : List ℕ) → IsReadFor rule.now id content
        → IfOk result (λ planned. IsPlanned (Commit.Part at upload number part.now) now id content planned) }
{
    match rule {
        DeedRule::Key(_) => unreachable!(),
        DeedRule::Bucket(_) => unreachable!(),
        DeedRule::Part(rule) => plan_part(alloc, &rule.row, part, now),
    }
}
