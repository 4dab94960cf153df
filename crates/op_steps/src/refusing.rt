//! The refusal of a call by that of a section.

ghost use Rattle.std.specs.Prelude.{◌≡◌, MatchOption, Some};
ghost use Rattle.receipts.specs.Looks.{IsOfSection};
ghost use Rattle.op_steps.specs.Notes.{refusal_by};

use call_types::Refusal;
use register_core::QuorumFault;
use slot_core::SlotFault;

/// The refusal of the call that a register's is: want of memory is none.
fn quorum_refusal(fault: &QuorumFault) -> Option<Refusal>
    ensures by { result ≡ refusal_by (SlotFault.Quorum fault.now) }
    ensures of_section { MatchOption result (Unit {0}) IsOfSection }
{
    match fault {
        QuorumFault::ReadQuorum(whys) => Some(Refusal::ReadQuorum(*whys)),
        QuorumFault::WriteQuorum(whys) => Some(Refusal::WriteQuorum(*whys)),
        QuorumFault::Undecided { k, u, whys } => Some(Refusal::Undecided {
            k: *k,
            u: *u,
            whys: *whys,
        }),
        QuorumFault::NoMemory => None,
    }
}

/// The refusal of the call that a section's is, where it is one of its register, its slot or its audit. Want of memory is none, nor is that of the state of
/// a key, which is a reply.
pub fn section_refusal(fault: &SlotFault) -> Option<Refusal>
    ensures { MatchOption result (Unit {0}) (λ why. (refusal_by fault.now ≡ Some why) × IsOfSection why) }
{
    match fault {
        SlotFault::Quorum(fault) => quorum_refusal(fault),
        SlotFault::SeqSpent => Some(Refusal::SeqSpent),
        SlotFault::AuditFailed { before, after } => Some(Refusal::AuditFailed {
            before: *before,
            after: *after,
        }),
        SlotFault::NotInFlight(id) => Some(Refusal::NotInFlight(*id)),
        SlotFault::Key(_) | SlotFault::NoMemory => None,
    }
}

/// The refusal of the call that a section's is: want of memory is none.
pub fn call_refusal(fault: &SlotFault) -> Option<Refusal>
    ensures { result ≡ refusal_by fault.now }
{
    match fault {
        SlotFault::Quorum(fault) => quorum_refusal(fault),
        SlotFault::Key(why) => Some(Refusal::from(*why)),
        SlotFault::SeqSpent => Some(Refusal::SeqSpent),
        SlotFault::AuditFailed { before, after } => Some(Refusal::AuditFailed {
            before: *before,
            after: *after,
        }),
        SlotFault::NoMemory => None,
        SlotFault::NotInFlight(id) => Some(Refusal::NotInFlight(*id)),
    }
}
