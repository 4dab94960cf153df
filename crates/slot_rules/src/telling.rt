//! What a section tells of a deed.

ghost use Rattle.std.specs.Prelude.{◌≡◌, IfOk};
ghost use Rattle.slot_rules.specs.Deeds.{call_of};
ghost use Rattle.slot_rules.specs.Plans.{IsTale};

use crate::commit::Commit;
use call_types::{Brief, KeyRefusal, Reply};
use fault_base::NoMemory;
use stamp_id::ChangeId;
use std::alloc::Global;

/// A call, and what it is replied.
#[derive(Drop)]
pub struct Told {
    /// The call.
    pub call: Brief,
    /// Its reply, as `Brief::Answer`.
    pub reply: Brief,
}

/// What a section tells of a deed, in the copies that it needs.
#[derive(Drop)]
pub struct Tale {
    /// What it tells its audit.
    pub audit: Told,
    /// What its stub has.
    pub stub: Told,
    /// What the call is replied.
    pub reply: Reply,
    /// Why the state of the key refuses it, where it does.
    pub refused: Option<KeyRefusal>,
}

/// What is told of a deed that drew this change, if it drew one.
pub(crate) fn tale_of(
    alloc: Global,
    deed: &Commit,
    change: Option<ChangeId>,
    now: u64,
    reply: Reply,
    refused: Option<KeyRefusal>,
) -> Result<Tale, NoMemory>
    ensures tale { IfOk result (λ tale. IsTale deed.now change now tale) }
    ensures reply { IfOk result (λ tale. tale.reply ≡ reply) }
    ensures refused { IfOk result (λ tale. tale.refused ≡ refused) }
{
    let audit = match told_of(alloc, deed, change, now, &reply) {
        Ok(audit) => audit,
        Err(why) => {
            drop(reply);
            return Err(why);
        }
    };
    match told_of(alloc, deed, change, now, &reply) {
        Ok(stub) => Ok(Tale {
            audit,
            stub,
            reply,
            refused,
        }),
        Err(why) => {
            drop(audit);
            drop(reply);
            Err(why)
        }
    }
}

/// The call of a deed, and this reply.
fn told_of(
    alloc: Global,
    deed: &Commit,
    change: Option<ChangeId>,
    now: u64,
    reply: &Reply,
) -> Result<Told, NoMemory>
    ensures call { IfOk result (λ told. told.call ≡ call_of deed.now change now) }
    ensures reply { IfOk result (λ told. told.reply ≡ Brief.Answer reply.now) }
{
    let reply = reply.clone()?;
    match call_of(alloc, deed, change, now) {
        Ok(call) => Ok(Told {
            call,
            reply: Brief::Answer(reply),
        }),
        Err(why) => {
            drop(reply);
            Err(why)
        }
    }
}

/// The call of a deed, with the change that it drew.
fn call_of(
    alloc: Global,
    deed: &Commit,
    change: Option<ChangeId>,
    now: u64,
) -> Result<Brief, NoMemory>
    ensures { IfOk result (λ call. call ≡ call_of deed.now change now) }
{
    match deed {
        Commit::Key { at, mode, act } => {
            let at = at.clone()?;
            let act = act.clone()?;
            Ok(Brief::Change {
                at,
                mode: *mode,
                act,
                change,
                now,
            })
        }
        Commit::Part {
            at,
            upload,
            number,
            part,
        } => {
            let at = at.clone()?;
            Ok(Brief::Part {
                at,
                upload: *upload,
                number: *number,
                part: *part,
                change,
                now,
            })
        }
        Commit::MakeBucket(bucket) => {
            let bucket = bucket.clone()?;
            Ok(Brief::MakeBucket {
                bucket,
                change,
                now,
            })
        }
        Commit::SetMode(bucket, mode) => {
            let bucket = bucket.clone()?;
            Ok(Brief::SetMode {
                bucket,
                mode: *mode,
                change,
                now,
            })
        }
    }
}
