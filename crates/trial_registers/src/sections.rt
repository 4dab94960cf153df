//! Sections of a register: a look, what is pending completed, and a change of one's own, by the calls that the store makes.

ghost use Rattle.std.specs.Prelude.{◌≡◌, ◌<◌, ◌≤◌, None, Some, IfOk, bytes_eq, codes, if◌then◌else◌, length};
ghost use Rattle.register_file.specs.Record.{IsCanonicalNext, IsContent};
ghost use Rattle.register_core.specs.Found.{IsLawfulPending, content_of};

use crate::words::{fault, letters, quoted};
use crate::world::World;
use body_print::name_of_manifest;
use call_types::{FileKind, Whys};
use drive_base::{DriveSet, SetPlan};
use file_access::write_file;
use manifest_file::{KIND, print_of, read};
use register_caller::{draft_again, write_both};
use register_core::{
    ContentFault, ContentRule, Draft, Looked, QuorumFault, draft_after, draft_change, look,
};
use register_file::{Adds, Base, Next};
use seal_file::{Bytes, seal};
use stamp_id::{Ballot, ChangeId, VersionId};
use std::alloc::Global;
use trial_base::NoAnswer;

/// The name of the register.
pub const NAME: &str = "k/pic/k";

/// A rule that every content meets, but for `hello` where that is refused.
#[derive(Clone, Copy, Drop)]
struct Rule {
    refuses: bool,
}

impl ContentRule for Rule {
    ghost fault_in = { λ rule content. if rule.refuses then (if bytes_eq content (codes "hello") then Some 2 else None) else None };

    ghost most_bytes = { λ _. 18446744073709551615 };

    ghost has_read = { λ _ _. Unit {0} };

    fn longest(&self) -> u64 {
        u64::MAX
    }

    fn check(&mut self, _alloc: Global, content: &[u8]) -> Result<(), ContentFault> {
        if !self.refuses {
            return Ok(());
        }
        if content == b"hello".as_slice() {
            return Err(ContentFault::At(2));
        }
        Ok(())
    }
}

/// What a look found, and the draft of what is pending.
#[derive(Drop)]
pub struct Ready {
    pub looked: Looked,
    pub first: Option<Draft>,
}

/// The file of the manifest of data of one byte, whose shards have some root.
fn manifest_of(alloc: Global, id: VersionId, set: &SetPlan) -> Result<Vec<u8>, NoAnswer> {
    let mut body = Vec::new(alloc);
    body.extend_from_slice(&[1, 0, 7])?;
    body.extend_from_slice(NAME.as_bytes())?;
    body.extend_from_slice(&[set.drives, set.parity, 0, 1])?;
    body.extend_from_slice(&id.bytes())?;
    body.extend_from_slice(&[0, 0, 0, 0, 0, 0, 0, 1])?;
    for _ in 0..set.drives {
        body.extend_from_slice(&[7; 32])?;
    }
    Ok(seal(alloc, KIND, body.as_slice())?)
}

/// A change over a base.
fn next_over(
    alloc: Global,
    base: &Base,
    change: ChangeId,
    ballot: Ballot,
    adds: Option<Adds>,
    content: &[u8],
) -> Result<Next, NoAnswer>
    requires { length content.now < 100 }
    ensures next { IfOk result (λ next. IsCanonicalNext base.now.change next) }
    ensures few { IfOk result (λ next. length next.content < 100) }
{
    Ok(Next {
        ballot,
        change,
        parent: base.change,
        adds,
        content: Bytes::from_slice(alloc, content)?,
    })
}

impl World {
    /// Draws a change, writes the manifest of its data on the data drives, and says which took it.
    pub fn begin(&mut self, alloc: Global) -> Result<Whys, NoAnswer> {
        let id = VersionId::from_parts(ChangeId(self.draw()), 38);
        let file = manifest_of(alloc, id, &self.set)?;
        let Ok(manifest) = read(alloc, file.as_slice()) else {
            return Err(NoAnswer);
        };
        self.adds = Some(Adds {
            id,
            print: print_of(&manifest),
        });
        let name = name_of_manifest(alloc, id)?;
        if name.len() > 1129 {
            return Err(NoAnswer);
        }
        let mut whys = Whys::all_good(self.set.drives);
        for (index, disk) in self.disks.iter_mut().enumerate() {
            let why = write_file(
                disk,
                FileKind::Manifest,
                "t",
                name.as_str(),
                file.as_slice(),
            );
            if index < whys.len() {
                whys.set(index, why);
            }
        }
        Ok(whys)
    }

    /// Looks at the register.
    pub fn look(&mut self, alloc: Global) -> Result<Result<Looked, QuorumFault>, NoAnswer>
        ensures base { IfOk result (λ answer. IfOk answer (λ looked. IsContent looked.base.content)) }
        ensures lawful { IfOk result (λ answer. IfOk answer (λ looked. IsLawfulPending looked.pending)) }
        ensures within { IfOk result (λ answer. IfOk answer (λ looked. length (content_of looked.base looked.pending) ≤ looked.longest)) }
    {
        let drives = self.set.drives as usize;
        if self.lanes.len() != drives || self.disks.len() != drives {
            return Err(NoAnswer);
        }
        let mut rule = Rule {
            refuses: self.refuses,
        };
        let (lanes, disks) = (self.lanes.as_mut_slice(), self.disks.as_mut_slice());
        Ok(look(
            alloc,
            lanes,
            disks,
            DriveSet::none(),
            self.set,
            NAME,
            &mut rule,
        ))
    }

    /// Looks at the register, and drafts what is pending under a fresh ballot. What fewer lanes than a write needs could take
    /// is refused.
    pub fn ready(&mut self, alloc: Global) -> Result<Result<Ready, QuorumFault>, NoAnswer> {
        let looked = match self.look(alloc)? {
            Ok(looked) => looked,
            Err(fault) => return Ok(Err(fault)),
        };
        match &looked.pending {
            None => Ok(Ok(Ready {
                looked,
                first: None,
            })),
            Some(_) => {
                if !looked.can_forward() {
                    return Ok(Err(QuorumFault::WriteQuorum(looked.whys)));
                }
                let ballot = self.draw();
                let draft = draft_again(alloc, &looked, ballot)?;
                Ok(Ok(Ready {
                    looked,
                    first: Some(draft),
                }))
            }
        }
    }

    /// The change whose body is staged, with its data, or a fresh one that adds none.
    fn change(&mut self) -> (ChangeId, Option<Adds>) {
        let Some(adds) = self.adds else {
            return (ChangeId(self.draw()), None);
        };
        self.adds = None;
        (adds.id.change, Some(adds))
    }

    /// The draft of a change of one's own over what a look settled, or over what is completed first.
    pub fn own(&mut self, alloc: Global, ready: &Ready, content: &[u8]) -> Result<Draft, NoAnswer> {
        if content.len() >= 100 {
            return Err(NoAnswer);
        }
        let (change, adds) = self.change();
        let ballot = self.draw();
        let looked = &ready.looked;
        let Some(first) = &ready.first else {
            if looked.base.content.len() >= 100 || looked.longest < 100 {
                return Err(NoAnswer);
            }
            let next = next_over(alloc, &looked.base, change, ballot, adds, content)?;
            return Ok(draft_change(alloc, looked, &next)?);
        };
        if first.value.content.len() >= 100 || first.longest < 100 {
            return Err(NoAnswer);
        }
        let next = next_over(alloc, &first.value, change, ballot, adds, content)?;
        Ok(draft_after(alloc, first, &next)?)
    }

    /// Writes both files of a draft.
    fn write(&mut self, draft: &mut Draft) -> Result<Result<Whys, QuorumFault>, NoAnswer> {
        let drives = draft.set.drives as usize;
        if self.lanes.len() != drives
            || draft.letters.len() != drives
            || draft.name.len() > 1129
            || self.count > 1_000_000
        {
            return Err(NoAnswer);
        }
        let lanes = self.lanes.as_mut_slice();
        Ok(write_both(lanes, DriveSet::none(), draft, 1, &mut self.count))
    }

    /// Why a call was refused, behind these words. The letters are kept.
    pub fn refused(
        &mut self,
        alloc: Global,
        words: &str,
        of: QuorumFault,
    ) -> Result<String, NoAnswer> {
        match of {
            QuorumFault::ReadQuorum(whys)
            | QuorumFault::WriteQuorum(whys)
            | QuorumFault::Undecided { whys, .. } => self.whys = Some(whys),
            QuorumFault::NoMemory => {}
        }
        let why = fault(alloc, of)?;
        Ok(format!(in alloc; "{words}{why}")?)
    }

    /// Reads the register's value, and completes first what is pending, whose draft is kept.
    pub fn get(&mut self, alloc: Global) -> Result<String, NoAnswer> {
        let ready = match self.ready(alloc)? {
            Ok(ready) => ready,
            Err(of) => return self.refused(alloc, "", of),
        };
        let Ready { looked, first } = ready;
        let Some(mut draft) = first else {
            return quoted(alloc, looked.base.content.as_slice());
        };
        match self.write(&mut draft)? {
            Ok(_) => {
                let value = quoted(alloc, draft.value.content.as_slice());
                self.draft = Some(draft);
                value
            }
            Err(of) => self.refused(alloc, "", of),
        }
    }

    /// Puts a content, and completes first what is pending. All memory is taken before the first write.
    pub fn put(&mut self, alloc: Global, content: &[u8]) -> Result<String, NoAnswer> {
        let mut ready = match self.ready(alloc)? {
            Ok(ready) => ready,
            Err(of) => return self.refused(alloc, "not begun: ", of),
        };
        let mut own = self.own(alloc, &ready, content)?;
        if let Some(first) = &mut ready.first {
            if let Err(of) = self.write(first)? {
                return self.refused(alloc, "not begun: ", of);
            }
        }
        match self.write(&mut own)? {
            Ok(whys) => letters(alloc, "done ", &whys),
            Err(of) => self.refused(alloc, "not marked: ", of),
        }
    }
}
