//! A stage's answer: what it tells of a body that is staged, and why one wasn't.

ghost use Rattle.std.specs.Prelude.{◌≡◌, false, IsTrue, length};
ghost use Rattle.put_stage.specs.declared.answers.StageFault.TheVariants.{NoMemory};
ghost use Rattle.put_stage.specs.StagedBodies.{Concludes, PutsNothing, StagesBody, StagesManifestAlone, Succeeds};
ghost use Rattle.put_stage.specs.Steps.{MayFinish};
ghost use Rattle.put_stage.specs.Outcomes.{Answers, Compares};

use crate::stage::Stage;
use call_types::Whys;
use drive_base::{DriveSet, SetPlan};
use std::alloc::{AllocError, AllocFailed};

/// A body that is staged.
#[derive(Clone, Copy, PartialEq, Eq)]
pub struct Staged {
    /// The print of the body.
    pub print: [u8; 32],
    /// Its length in bytes.
    pub length: u64,
    /// Its MD5 (RFC 1321), or the ETag handed in with a manifest.
    pub etag: [u8; 16],
    /// The drives that took all its files.
    pub took: DriveSet,
}

/// Why a body wasn't staged.
#[derive(Clone, Copy, PartialEq, Eq)]
pub enum StageFault {
    /// Fewer drives than a write needs did all calls: why, for each drive.
    WriteQuorum(Whys),
    /// The MD5 that was stated isn't the body's. Nothing was put in place.
    BadDigest {
        /// The MD5 that was stated.
        stated: [u8; 16],
        /// The body's.
        computed: [u8; 16],
    },
    /// The body ended before its stated length.
    BodyCut,
    /// The source of the body failed.
    ReadFault,
    /// There was not enough memory. Nothing was put in place.
    NoMemory,
}

impl From<AllocError> for StageFault {
    ghost from_gives = { λ _ error. error ≡ NoMemory };

    fn from(_error: AllocError) -> StageFault {
        StageFault::NoMemory
    }
}

impl From<fault_base::NoMemory> for StageFault {
    ghost from_gives = { λ _ error. error ≡ NoMemory };

    fn from(_error: fault_base::NoMemory) -> StageFault {
        StageFault::NoMemory
    }
}

impl<T: Drop> From<AllocFailed<T>> for StageFault {
    ghost from_gives = { λ _ error. error ≡ NoMemory };

    fn from(_refused: AllocFailed<T>) -> StageFault {
        StageFault::NoMemory
    }
}

impl Stage {
    /// Whether all is staged: the body is whole, its MD5 is the one that was stated, if any, and as many drives as a write needs
    /// did all calls so far. Once no call is due `finish` answers so. It takes no memory.
    pub fn succeeds(&self) -> bool
        ensures yes { IsTrue result → Succeeds self.now }
        ensures no { result ≡ false → Succeeds self.now → ⊥ }
    {
        if self.load.left > 0 || self.disagrees() {
            return false;
        }
        self.whys.good() >= self.load.set.write_quorum()
    }

    /// The answer, once no call is due and the body is whole: where enough drives took all, the print, the length and the MD5
    /// of the body, and which drives. `BadDigest` where the body has another MD5 than stated, and then nothing was put in
    /// place; `WriteQuorum` where fewer drives than a write needs took all, and what they took stays. It takes no memory.
    pub fn finish(self) -> Result<Staged, StageFault>
        requires { MayFinish self }
        ensures answer { Concludes self result }
        ensures body { StagesBody self result }
        ensures manifest { StagesManifestAlone self result }
        ensures unplaced { PutsNothing self result }
    {
        compare(self.load.stated, self.load.made.etag)?;
        let made = &self.load.made;
        answer(
            &self.load.set,
            self.whys,
            made.print,
            self.load.long,
            made.etag,
        )
    }
}

/// The answer of a stage of which the drives answered so.
pub fn answer(
    set: &SetPlan,
    whys: Whys,
    print: [u8; 32],
    size: u64,
    etag: [u8; 16],
) -> Result<Staged, StageFault>
    requires { length whys ≡ set.now.drives }
    ensures { Answers set.now whys print size etag result }
{
    if whys.good() < set.write_quorum() {
        return Err(StageFault::WriteQuorum(whys));
    }
    Ok(Staged {
        print,
        length: size,
        etag,
        took: DriveSet::from_mask(whys.good_mask()),
    })
}

/// Whether the MD5 that was stated, if any, is the body's.
pub fn compare(stated: Option<[u8; 16]>, computed: [u8; 16]) -> Result<(), StageFault>
    ensures { Compares stated computed result }
{
    let Some(stated) = stated else {
        return Ok(());
    };
    if stated != computed {
        return Err(StageFault::BadDigest { stated, computed });
    }
    Ok(())
}
