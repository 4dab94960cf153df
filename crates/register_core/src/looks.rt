//! A look at a register: what the files of its lanes say, and what is concluded of them.

ghost use Rattle.std.specs.Prelude.{◌≡◌, true, nat_le, IfOk, Some, ◌<◌, ◌≤◌, ℕ, IsTrue, length, map, ◌^◌, ◌↔◌, IfErr, None};
ghost use Rattle.body_print.specs.Plans.{data_plan};
ghost use Rattle.drive_base.specs.Plan.{data_drives, write_drives};
ghost use Rattle.call_types.specs.Good.{good_count};
ghost use Rattle.register_core.specs.Records.{again_of, row_of, settled_file};
ghost use Rattle.register_file.specs.declared.record.Next.{Next};
ghost use Rattle.drive_base.specs.View.{AllOnlyRead, views};
ghost use Rattle.register_core.specs.Looks.{Accepts, Forwards, HasRead, IsConcluded, LettersAreRefused, Looks};
ghost use Rattle.std.specs.Int.{IsBitSet};
ghost use Rattle.vote_core.specs.Verdict.{OnwardRule};
ghost use Rattle.register_core.specs.Found.{FindsBase, FindsNext, HasContent, content_of, found_at};
ghost use Rattle.register_file.specs.declared.record.RegFile.{RegFile};
ghost use Rattle.register_file.specs.declared.record.Base.{Base};
ghost use Rattle.register_core.specs.declared.faults.QuorumFault.TheVariants.{NoMemory as TheNoMemory};

use crate::content::{ContentFault, ContentRule, copy_base, copy_next};
use crate::faults::QuorumFault;
use crate::lanes::{Found, read_lanes, rows_of};
use crate::manifests::look_for_data;
use body_print::data_plan;
use call_types::{Why, Whys};
use drive_base::{Drive, DriveSet, SetPlan};
use fault_base::NoMemory;
use register_file::{Adds, Base, Next, RegFile, file_laws, longest_file};
use seal_file::{Bytes, Damage};
use stamp_id::Ballot;
use std::alloc::Global;
use vote_core::{Onward, Row, Verdict, calm_laws, decide, judge, place_laws, verdict_laws};

/// What a look found: the register's value, or a change on its way that must be completed first.
#[derive(Drop)]
pub struct Looked {
    /// The register's name.
    pub name: String,
    /// The set that it stands on.
    pub set: SetPlan,
    /// The greatest number of bytes of a lawful content of the register.
    pub longest: u64,
    /// What was read of each lane.
    pub rows: Vec<Row>,
    /// Why each lane was read or was not.
    pub whys: Whys,
    /// The greatest base. Where nothing is pending its content is the register's value.
    pub base: Base,
    /// The change that must be completed before anything else is done, if any.
    pub pending: Option<Next>,
    /// The lanes that were shown to have exactly the base, without a next.
    pub clean: DriveSet,
}

impl Looked {
    /// Whether as many lanes were good as a write needs: a pending change is proposed again only then.
    pub fn can_forward(&self) -> bool
        ensures { result ≡ nat_le (write_drives self.now.set.drives self.now.set.parity) (good_count self.now.whys) }
    {
        self.set.write_quorum() <= self.whys.good()
    }

    /// What is pending, under a fresh ballot and over the base: the change that `draft_change` takes to complete it.
    pub fn again(&self, alloc: Global, ballot: Ballot) -> Result<Next, NoMemory>
        requires pending { (found : Next) × (self.now.pending ≡ Some found) }
        ensures again { (found : Next) → self.now.pending ≡ Some found → IfOk result (λ next. next ≡ again_of self.now.base ballot found) }
    {
        let Some(found) = &self.pending else {
            unreachable!()
        };
        Ok(Next {
            ballot,
            change: found.change,
            parent: self.base.change,
            adds: found.adds,
            content: Bytes::from_slice(alloc, found.content.as_slice())?,
        })
    }
}

/// What the files of the lanes say.
#[derive(Drop)]
pub struct Concluded {
    /// The greatest base.
    pub base: Base,
    /// The change that is pending above it, if any.
    pub pending: Option<Next>,
}

/// Looks at a register: reads its file on every lane that isn't out, and concludes.
///
/// A lane whose file is longer than one of two lawful contents can be is damaged, and isn't read: `rule` says how long a
/// lawful content is at most. `ReadQuorum` comes where fewer lanes have a good file than a read needs, and where the content that is settled, or that a
/// forward would complete, breaks the rule: each lane that has it is then `Damaged` with the spelling's place. `Undecided`
/// comes where a change that adds data may have taken effect and its manifest verifies on fewer data drives than that: the
/// letters are those of the data drives. The rule keeps what it read of the content that was accepted. No lane is written, and a lane or a data drive that is out isn't called.
pub fn look<D: Drive, R: ContentRule>(
    alloc: Global,
    lanes: &mut [D],
    disks: &mut [D],
    out: DriveSet,
    set: SetPlan,
    name: &str,
    rule: &mut R,
) -> Result<Looked, QuorumFault>
    requires lanes { length lanes.old ≡ set.drives }
    requires disks { length disks.old ≡ set.drives }
    ensures outcome { Looks D.Drive set out name.now (R.fault_in rule.old) (R.most_bytes rule.old) result lanes.old lanes.new disks.old disks.new }
    ensures read { HasRead (R.has_read rule.new) result }
    ensures rule { R.fault_in rule.new ≡ R.fault_in rule.old }
    ensures most { R.most_bytes rule.new ≡ R.most_bytes rule.old }
    ensures lanes_read { AllOnlyRead (views D.Drive lanes.old) (views D.Drive lanes.new) }
    ensures disks_read { AllOnlyRead (views D.Drive disks.old) (views D.Drive disks.new) }
{
    // The laws for the proof that the look finds the value. The calls do nothing.
    verdict_laws();
    calm_laws();
    place_laws();
    file_laws();
    let longest = rule.longest();
    let most = longest_file(longest);
    let Found { files, whys } = read_lanes(alloc, lanes, out, name, most)?;
    let files = files.as_slice();
    let rows = rows_of(alloc, files)?;
    let said = conclude(alloc, set, files, rows.as_slice(), whys, disks)?;
    let content = content_of(&said.base, &said.pending);
    accept(alloc, rule, files, &whys, content)?;
    Ok(Looked {
        name: String::from_str(alloc, name)?,
        set,
        longest,
        clean: clean_of(files, &said.base),
        rows,
        whys,
        base: said.base,
        pending: said.pending,
    })
}

/// What the files that were read of the lanes say: the settled base, or the greatest base and the change that is pending
/// above it, where that may be completed.
fn conclude<D: Drive>(
    alloc: Global,
    set: SetPlan,
    files: &[Option<RegFile>],
    rows: &[Row],
    whys: Whys,
    disks: &mut [D],
) -> Result<Concluded, QuorumFault>
    requires disks { length disks.old ≡ set.drives }
    requires files { length files.now ≡ set.drives }
    requires rows { rows.now ≡ map row_of files.now }
    ensures outcome { IsConcluded D.Drive set files.now whys result disks.old disks.new }
    ensures disks_read { AllOnlyRead (views D.Drive disks.old) (views D.Drive disks.new) }
{
    match judge(&set, rows) {
        Verdict::TooFew { .. } => Err(QuorumFault::ReadQuorum(whys)),
        Verdict::Settled { lane } => Ok(Concluded {
            base: base_on(alloc, files, lane)?,
            pending: None,
        }),
        Verdict::Pending {
            base_lane,
            lane,
            k,
            u,
        } => {
            let next = next_on(alloc, files, lane)?;
            may_forward(alloc, set, &next, k, u, disks)?;
            Ok(Concluded {
                base: base_on(alloc, files, base_lane)?,
                pending: Some(next),
            })
        }
    }
}

/// Whether a pending change may be completed: it adds no data, or its manifest verifies on enough data drives. `k` good
/// files have it, and `u` lanes have no good file.
fn may_forward<D: Drive>(
    alloc: Global,
    set: SetPlan,
    next: &Next,
    k: u8,
    u: u8,
    disks: &mut [D],
) -> Result<(), QuorumFault>
    requires { length disks.old ≡ set.drives }
    ensures outcome { Forwards D.Drive set next.now k u result disks.old disks.new }
    ensures disks_read { AllOnlyRead (views D.Drive disks.old) (views D.Drive disks.new) }
{
    let Some(adds) = &next.adds else {
        return Ok(());
    };
    let whys = look_for_data(alloc, set, adds, disks)?;
    match onward(&set, adds, whys.good()) {
        Onward::Forward => Ok(()),
        Onward::Undecided => Err(QuorumFault::Undecided { k, u, whys }),
    }
}

/// Whether a pending change that adds this data is completed, where so many data drives have a manifest of it that verifies.
fn onward(set: &SetPlan, adds: &Adds, there: u8) -> Onward
    ensures { OnwardRule (data_drives (data_plan set.now adds.now.id).drives (data_plan set.now adds.now.id).parity) true there result }
{
    let body_plan = data_plan(*set, adds.id);
    decide(&body_plan, true, there)
}

/// The base that was read of a lane.
fn base_on(alloc: Global, files: &[Option<RegFile>], lane: u8) -> Result<Base, QuorumFault>
    requires { (base : Base) × FindsBase files.now lane base }
    ensures base { IfOk result (λ base. FindsBase files.now lane base) }
    ensures refused { IfErr result (λ fault. fault ≡ TheNoMemory) }
{
    match &files[lane as usize] {
        Some(file) => Ok(copy_base(alloc, &file.base)?),
        None => unreachable!(),
    }
}

/// What was read of a lane to be on its way.
fn next_on(alloc: Global, files: &[Option<RegFile>], lane: u8) -> Result<Next, QuorumFault>
    requires { (next : Next) × FindsNext files.now lane next }
    ensures next { IfOk result (λ next. FindsNext files.now lane next) }
    ensures refused { IfErr result (λ fault. fault ≡ TheNoMemory) }
{
    let Some(file) = &files[lane as usize] else {
        unreachable!()
    };
    match &file.next {
        Some(next) => Ok(copy_next(alloc, next)?),
        None => unreachable!(),
    }
}

/// The content that is looked at: the settled one, or the one that a forward would complete.
fn content_of<'a>(base: &'a Base, pending: &'a Option<Next>) -> &'a [u8]
    ensures { result.now ≡ content_of base.now pending.now }
{
    match pending {
        Some(next) => next.content.as_slice(),
        None => base.content.as_slice(),
    }
}

/// The lanes that were shown to have exactly a base, without a next.
fn clean_of(files: &[Option<RegFile>], base: &Base) -> DriveSet
    requires { length files.now ≤ 16 }
    ensures bits { (k : ℕ) → k < length files.now → IsBitSet result k ↔ (found_at files.now k ≡ Some (settled_file base.now)) }
    ensures none_else { result < 2 ^ length files.now }
{
    let mut mask = 0u16;
    for k in 0..files.len() {
        if is_settled(&files[k], base) {
            mask |= 1 << k;
        }
    }
    DriveSet::from_mask(mask)
}

/// Whether a lane was read to have exactly a base, without a next.
fn is_settled(file: &Option<RegFile>, base: &Base) -> bool
    ensures { IsTrue result ↔ (file.now ≡ Some (settled_file base.now)) }
{
    match file {
        Some(file) => file.next.is_none() && file.base == *base,
        None => false,
    }
}

/// Checks a content, and refuses it with the letters of the lanes: each lane that has it is damaged at the place where it
/// breaks the rule.
fn accept<R: ContentRule>(
    alloc: Global,
    rule: &mut R,
    files: &[Option<RegFile>],
    whys: &Whys,
    content: &[u8],
) -> Result<(), QuorumFault>
    requires { length whys.now ≡ length files.now }
    ensures answer { Accepts (R.fault_in rule.old content.now) files.now content.now whys.now result }
    ensures within { IfOk result (λ _. length content.now ≤ R.most_bytes rule.old) }
    ensures read { IfOk result (λ _. R.has_read rule.new content.now) }
    ensures rule { R.fault_in rule.new ≡ R.fault_in rule.old }
    ensures most { R.most_bytes rule.new ≡ R.most_bytes rule.old }
{
    match rule.check(alloc, content) {
        Ok(()) => Ok(()),
        Err(ContentFault::At(place)) => {
            let refused = refuse(files, *whys, content, place);
            Err(QuorumFault::ReadQuorum(refused))
        }
        Err(ContentFault::NoMemory) => Err(QuorumFault::NoMemory),
    }
}

/// The letters of the lanes where a content is refused at a place.
fn refuse(files: &[Option<RegFile>], whys: Whys, content: &[u8], place: u64) -> Whys
    requires { length whys ≡ length files.now }
    ensures { LettersAreRefused files.now content.now place whys result }
{
    let mut refused = whys;
    for k in 0..files.len() {
        if has_content(&files[k], content) {
            refused.set(k, Why::Damaged(Damage::Spelling(place)));
        }
    }
    refused
}

/// Whether a lane's file has a content, in its base or its next.
fn has_content(file: &Option<RegFile>, content: &[u8]) -> bool
    ensures { IsTrue result ↔ ((found : RegFile) × (file.now ≡ Some found) × HasContent found content.now) }
{
    let Some(file) = file else {
        return false;
    };
    if file.base.content.as_slice() == content {
        return true;
    }
    match &file.next {
        Some(next) => next.content.as_slice() == content,
        None => false,
    }
}
