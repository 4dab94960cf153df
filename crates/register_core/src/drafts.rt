//! The files of a change or of a mend, made before anything is written.

ghost use Rattle.std.specs.Prelude.{◌≡◌, ◌≤◌, IfOk, None, length, string_bytes};
ghost use Rattle.register_file.specs.Record.{IsContent, IsCanonicalNext};
ghost use Rattle.register_core.specs.Drafts.{IsDraftAfterDraft, IsDraftAfterLook, IsDraftOf, IsMendOfLook, letters_for};

use crate::content::{base_of_next, copy_base, copy_next};
use crate::looks::Looked;
use call_types::Whys;
use drive_base::{DriveSet, SetPlan};
use fault_base::NoMemory;
use register_file::{Base, Next, RegFile, write};
use std::alloc::Global;

/// The files that a change, or a mend, writes.
#[derive(Drop)]
pub struct Draft {
    /// The register's name.
    pub name: String,
    /// The set that it stands on.
    pub set: SetPlan,
    /// The greatest number of bytes of a lawful content of the register.
    pub longest: u64,
    /// The file that proposing writes: the base with the change as its next. A mend's draft has none.
    pub first: Vec<u8>,
    /// The file that is left in the end: the change as the base, or the base that a mend writes.
    pub last: Vec<u8>,
    /// The base that the last file has.
    pub value: Base,
    /// The change is proposed on the lanes whose letter is good, and the others keep their letter.
    pub letters: Whys,
    /// The lanes that were shown to have exactly the last file, by the look or by the draft's mark.
    pub passed: DriveSet,
}

/// Takes the memory of both files of a change over the base of a look.
///
/// Where a change is pending, the change must be that one under a fresh ballot, and it is proposed on the lanes whose file
/// was good; else it is one's own, and is proposed on every lane that isn't out. Its content must not have more bytes than a
/// lawful one has, since a look takes a lane with a longer file for damaged.
pub fn draft_change(alloc: Global, looked: &Looked, change: &Next) -> Result<Draft, NoMemory>
    requires base { IsContent looked.now.base.content }
    requires next { IsCanonicalNext looked.now.base.change change.now }
    requires within { length change.now.content ≤ looked.now.longest }
    ensures { IfOk result (λ draft. IsDraftAfterLook looked.now change.now draft) }
{
    let letters = letters_of(looked);
    let of = Register {
        name: &looked.name,
        set: looked.set,
        longest: looked.longest,
    };
    draft_over(alloc, &of, &looked.base, change, letters)
}

/// Takes the memory of both files of a change over the change of another draft, which is proposed only after that one was
/// marked. Its content must not have more bytes than a lawful one has.
pub fn draft_after(alloc: Global, first: &Draft, change: &Next) -> Result<Draft, NoMemory>
    requires base { IsContent first.now.value.content }
    requires next { IsCanonicalNext first.now.value.change change.now }
    requires within { length change.now.content ≤ first.now.longest }
    ensures { IfOk result (λ draft. IsDraftAfterDraft first.now change.now draft) }
{
    let letters = Whys::all_good(first.set.drives);
    let of = Register {
        name: &first.name,
        set: first.set,
        longest: first.longest,
    };
    draft_over(alloc, &of, &first.value, change, letters)
}

/// Takes the memory of the settled base of a look, without a next, for a mend. Nothing may be pending.
pub fn draft_mend(alloc: Global, looked: &Looked) -> Result<Draft, NoMemory>
    requires base { IsContent looked.now.base.content }
    requires settled { looked.now.pending ≡ None }
    ensures { IfOk result (λ draft. IsMendOfLook looked.now draft) }
{
    let file = RegFile {
        base: copy_base(alloc, &looked.base)?,
        next: None,
    };
    let last = write(alloc, &file)?;
    Ok(Draft {
        name: String::from_str(alloc, looked.name.as_str())?,
        set: looked.set,
        longest: looked.longest,
        first: Vec::new(alloc),
        last,
        value: file.base,
        letters: Whys::all_good(looked.set.drives),
        passed: looked.clean,
    })
}

/// The letters of the lanes that a change is proposed on.
fn letters_of(looked: &Looked) -> Whys
    ensures { result ≡ letters_for looked.now.pending looked.now.whys looked.now.set.drives }
{
    match &looked.pending {
        Some(_) => looked.whys,
        None => Whys::all_good(looked.set.drives),
    }
}

/// A register: its name, the set that it stands on, and the greatest number of bytes of a lawful content.
#[derive(Clone, Copy)]
struct Register<'a> {
    name: &'a String,
    set: SetPlan,
    longest: u64,
}

/// Both files of a change over a base.
fn draft_over(
    alloc: Global,
    of: &Register,
    base: &Base,
    change: &Next,
    letters: Whys,
) -> Result<Draft, NoMemory>
    requires base { IsContent base.now.content }
    requires next { IsCanonicalNext base.now.change change.now }
    ensures of_change { IfOk result (λ draft. IsDraftOf draft base.now change.now) }
    ensures name { IfOk result (λ draft. string_bytes draft.name ≡ string_bytes of.now.name.now) }
    ensures set { IfOk result (λ draft. draft.set ≡ of.now.set) }
    ensures longest { IfOk result (λ draft. draft.longest ≡ of.now.longest) }
    ensures letters { IfOk result (λ draft. draft.letters ≡ letters) }
    ensures passed { IfOk result (λ draft. draft.passed ≡ 0) }
{
    let first = RegFile {
        base: copy_base(alloc, base)?,
        next: Some(copy_next(alloc, change)?),
    };
    let last = RegFile {
        base: base_of_next(alloc, change)?,
        next: None,
    };
    Ok(Draft {
        name: String::from_str(alloc, of.name.as_str())?,
        set: of.set,
        longest: of.longest,
        first: write(alloc, &first)?,
        last: write(alloc, &last)?,
        value: last.base,
        letters,
        passed: DriveSet::none(),
    })
}
