//! The plan of a deed: all that it needs memory for, before anything is written.

ghost use Rattle.std.specs.Prelude.{◌≡◌, ◌+◌, ◌<◌, ◌≤◌, ◌^◌, IfOk};
ghost use Rattle.register_core.specs.Found.{content_of};
ghost use Rattle.slot_rules.specs.Owning.{IsDraftable, IsOwnId, life_at};
ghost use Rattle.slot_rules.specs.Planning.{IsPlanned, most_for};
ghost use Rattle.slot_rules.specs.Plans.{IsPlan};

use crate::commit::Commit;
use crate::owning::{Own, own_of};
use crate::planning::Planned;
use crate::ready::Ready;
use crate::site::Ask;
use crate::telling::{Tale, tale_of};
use fault_base::NoMemory;
use stamp_id::VersionId;
use std::alloc::Global;

/// What a section does after its look, once what is pending is completed.
#[derive(Drop)]
pub struct Plan {
    /// What it tells.
    pub tale: Tale,
    /// Its own change, where it leaves another content.
    pub own: Option<Own>,
    /// The data that is gone then.
    pub gone: Vec<VersionId>,
}

/// The plan of a deed that does this under this id, where the last number drawn is this one.
pub fn plan_of(
    alloc: Global,
    ask: &Ask,
    last: u64,
    ready: &Ready,
    deed: &Commit,
    id: VersionId,
    planned: Planned,
) -> Result<Plan, NoMemory>
    requires seq { last + 2 < 2 ^ 62 }
    requires draftable { IsDraftable ready.now.looked ready.now.first }
    requires id { IsOwnId (life_at ask.now.site) last ask.now.put id }
    requires within { most_for deed.now ≤ ready.now.looked.longest }
    requires planned { IsPlanned deed.now ask.now.moment id (content_of ready.now.looked.base ready.now.looked.pending) planned }
    ensures { IfOk result (λ plan. IsPlan ask.now.site last ready.now deed.now ask.now.put ask.now.moment plan) }
{
    let Planned {
        reply,
        refused,
        content,
        gone,
    } = planned;
    match content {
        None => {
            let tale = tale_of(alloc, deed, None, ask.moment, reply, refused)?;
            Ok(Plan {
                tale,
                own: None,
                gone,
            })
        }
        Some(content) => {
            let own = match own_of(alloc, &ask.site, last, ready, deed, ask.put, id, content) {
                Ok(own) => own,
                Err(why) => {
                    drop(reply);
                    return Err(why);
                }
            };
            match tale_of(alloc, deed, Some(id.change), ask.moment, reply, refused) {
                Ok(tale) => Ok(Plan {
                    tale,
                    own: Some(own),
                    gone,
                }),
                Err(why) => {
                    drop(own);
                    Err(why)
                }
            }
        }
    }
}
