//! The contents of a register: the rule that they must meet, and copies of the parts of a record that hold them.

ghost use Rattle.std.specs.Prelude.{◌≡◌, ◌≤◌, ℕ, List, Option, IfOk, length};
ghost use Rattle.register_core.specs.Records.{marked_base};

use fault_base::NoMemory;
use register_file::{Base, Next};
use seal_file::Bytes;
use std::alloc::Global;

/// Why a content was refused.
#[derive(Clone, Copy, PartialEq, Eq)]
pub enum ContentFault {
    /// It breaks the rule at this place, counted from 0.
    At(u64),
    /// There was not enough memory.
    NoMemory,
}

/// What the contents of a register must be: those of its name's kind, without the id that a change would make.
pub trait ContentRule {
    ghost use Rattle.register_core.specs.Contents.{IsChecked};

    /// The place where a content first breaks the rule, if it does.
    ghost fault_in: { Self → List ℕ → Option ℕ };

    /// The greatest number of bytes of a content that meets the rule.
    ghost most_bytes: { Self → ℕ };

    /// What the rule keeps of the content that it checked last, where it accepted it.
    ghost has_read: { Self → List ℕ → Type 0 };

    /// The greatest number of bytes of a content that meets the rule: a lane's file that is too long for two such
    /// contents is damaged, and isn't read.
    fn longest(&self) -> u64
        ensures { result ≡ most_bytes self.now };

    /// Checks a content. The rule stays, and may keep what it read.
    fn check(&mut self, alloc: Global, content: &[u8]) -> Result<(), ContentFault>
        ensures answer { IsChecked (fault_in self.old content.now) result }
        ensures within { IfOk result (λ _. length content.now ≤ most_bytes self.old) }
        ensures read { IfOk result (λ _. has_read self.new content.now) }
        ensures same { fault_in self.new ≡ fault_in self.old }
        ensures same_most { most_bytes self.new ≡ most_bytes self.old };
}

/// A copy of a base.
pub fn copy_base(alloc: Global, base: &Base) -> Result<Base, NoMemory>
    ensures { IfOk result (λ copy. copy ≡ base.now) }
{
    Ok(Base {
        ballot: base.ballot,
        change: base.change,
        content: Bytes::from_slice(alloc, base.content.as_slice())?,
    })
}

/// A copy of a next.
pub fn copy_next(alloc: Global, next: &Next) -> Result<Next, NoMemory>
    ensures { IfOk result (λ copy. copy ≡ next.now) }
{
    Ok(Next {
        ballot: next.ballot,
        change: next.change,
        parent: next.parent,
        adds: next.adds,
        content: Bytes::from_slice(alloc, next.content.as_slice())?,
    })
}

/// The base that a mark makes of a next.
pub fn base_of_next(alloc: Global, next: &Next) -> Result<Base, NoMemory>
    ensures { IfOk result (λ base. base ≡ marked_base next.now) }
{
    Ok(Base {
        ballot: next.ballot,
        change: next.change,
        content: Bytes::from_slice(alloc, next.content.as_slice())?,
    })
}
