//! One type for the ops of several calls, so that who holds many of them needs one type alone.

ghost use Rattle.trial_ops.specs.declared.any_op.AnyOp.TheVariants.{Deed, Get, Put};

use audit_trail::Audit;
use call_types::{Cut, Feed};
use desk_base::Teller;
use drive_base::Drive;
use object_ops::{DeedOp, PutOp, ReadOp};
use op_steps::{Op, OpNext};
use receipts::Barred;
use slot_core::{Slot, Stub};
use std::alloc::Global;

/// The op of a PutObject, a GetObject, or a call that is a deed.
#[derive(Drop)]
pub enum AnyOp {
    /// Of a PutObject.
    Put(PutOp),
    /// Of a GetObject.
    Get(ReadOp),
    /// Of a DeleteObject, a CreateMultipartUpload or an AbortMultipartUpload.
    Deed(DeedOp),
}

impl Op for AnyOp {
    ghost use Rattle.desk_base.specs.Answering.{Task};
    ghost use Rattle.desk_base.specs.Calls.{stated_length};
    ghost use Rattle.receipts.specs.Paying.{Pays};

    ghost set = { elim [ Put op ↦ ⟦<PutOp as Op>⟧.set op | Get op ↦ ⟦<ReadOp as Op>⟧.set op | Deed op ↦ ⟦<DeedOp as Op>⟧.set op ] };

    ghost Asked = { Task };

    ghost asked = { elim [ Put op ↦ ⟦<PutOp as Op>⟧.asked op | Get op ↦ ⟦<ReadOp as Op>⟧.asked op | Deed op ↦ ⟦<DeedOp as Op>⟧.asked op ] };

    ghost owed = { λ set task cut log. Pays set task cut log };

    ghost stated = { λ task. stated_length task.call };

    ghost step = { elim [ Put op ↦ ⟦<PutOp as Op>⟧.step op | Get op ↦ ⟦<ReadOp as Op>⟧.step op | Deed op ↦ ⟦<DeedOp as Op>⟧.step op ] };

    ghost left = { elim [ Put op ↦ ⟦<PutOp as Op>⟧.left op | Get op ↦ ⟦<ReadOp as Op>⟧.left op | Deed op ↦ ⟦<DeedOp as Op>⟧.left op ] };

    ghost taken = { elim [ Put op ↦ ⟦<PutOp as Op>⟧.taken op | Get op ↦ ⟦<ReadOp as Op>⟧.taken op | Deed op ↦ ⟦<DeedOp as Op>⟧.taken op ] };

    ghost stands = { elim [ Put op ↦ ⟦<PutOp as Op>⟧.stands op | Get op ↦ ⟦<ReadOp as Op>⟧.stands op | Deed op ↦ ⟦<DeedOp as Op>⟧.stands op ] };

    ghost cut_at = { elim [ Put op ↦ ⟦<PutOp as Op>⟧.cut_at op | Get op ↦ ⟦<ReadOp as Op>⟧.cut_at op | Deed op ↦ ⟦<DeedOp as Op>⟧.cut_at op ] };

    fn next(&self) -> OpNext {
        match self {
            AnyOp::Put(op) => op.next(),
            AnyOp::Get(op) => op.next(),
            AnyOp::Deed(op) => op.next(),
        }
    }

    fn section<D: Drive, A: Audit>(
        &mut self,
        alloc: Global,
        slot: &mut Slot<D, A>,
        disks: &mut [D],
    ) -> Option<Stub> {
        match self {
            AnyOp::Put(op) => op.section(alloc, slot, disks),
            AnyOp::Get(op) => op.section(alloc, slot, disks),
            AnyOp::Deed(op) => op.section(alloc, slot, disks),
        }
    }

    fn barred(&mut self, why: Barred) {
        match self {
            AnyOp::Put(op) => op.barred(why),
            AnyOp::Get(op) => op.barred(why),
            AnyOp::Deed(op) => op.barred(why),
        }
    }

    fn data<D: Drive>(&mut self, alloc: Global, disks: &mut [D]) {
        match self {
            AnyOp::Put(op) => op.data(alloc, disks),
            AnyOp::Get(op) => op.data(alloc, disks),
            AnyOp::Deed(op) => op.data(alloc, disks),
        }
    }

    fn feed<F: Feed>(&mut self, alloc: Global, feed: &mut F) {
        match self {
            AnyOp::Put(op) => op.feed(alloc, feed),
            AnyOp::Get(op) => op.feed(alloc, feed),
            AnyOp::Deed(op) => op.feed(alloc, feed),
        }
    }

    fn tell<T: Teller>(&mut self, alloc: Global, teller: &mut T) {
        match self {
            AnyOp::Put(op) => op.tell(alloc, teller),
            AnyOp::Get(op) => op.tell(alloc, teller),
            AnyOp::Deed(op) => op.tell(alloc, teller),
        }
    }

    fn cut(&self) -> Option<Cut> {
        match self {
            AnyOp::Put(op) => op.cut(),
            AnyOp::Get(op) => op.cut(),
            AnyOp::Deed(op) => op.cut(),
        }
    }
}
