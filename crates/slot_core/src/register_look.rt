//! A look at a register, and the completion of what it finds pending.

ghost use Rattle.std.specs.Prelude.{◌≡◌, ◌+◌, ◌*◌, ◌<◌, ◌≤◌, ◌^◌, IfOk, Option, None, Some, length};
ghost use Rattle.slot_core.specs.Numbers.{Draws};
ghost use Rattle.slot_core.specs.RegisterLook.{CallsForward, FirstFits, GoesOnReading, LooksAt, late_of};
ghost use Rattle.slot_core.specs.Settlement.{SettlesAfter};
ghost use Rattle.drive_base.specs.View.{AllGoOn, AllOnlyRead, views};
ghost use Rattle.drive_base.specs.declared.drive.TheConstants.{LONGEST_NAME};

use drive_base::Drive;
use register_caller::{draft_again, write_both};
use register_core::{ContentRule, QuorumFault, look};
use slot_rules::{Drawn, Ready, Site, next_ballot};
use stamp_id::ChangeId;
use std::alloc::Global;
use vote_core::{calm_laws, fresh_laws, value_laws};

/// Looks at a register, and drafts what is pending. A pending change that fewer lanes than a write needs could take is refused with the letters of the
/// look. Nothing is written, and no number is drawn.
pub(crate) fn look_at<D: Drive, R: ContentRule>(
    alloc: Global,
    lanes: &mut [D],
    disks: &mut [D],
    site: &Site,
    name: &str,
    rule: &mut R,
    drawn: &Drawn,
) -> Result<Ready, QuorumFault>
    requires lanes { length lanes.old ≡ site.now.set.drives }
    requires disks { length disks.old ≡ site.now.set.drives }
    requires named { length name.now ≤ LONGEST_NAME }
    requires seq { drawn.now.seq + 1 < 2 ^ 62 }
    ensures looks { LooksAt D.Drive site.now drawn.now name.now (R.fault_in rule.old) (R.most_bytes rule.old) result lanes.old lanes.new disks.old disks.new }
    ensures fits { IfOk result (λ ready. FirstFits site.now.set ready.first) }
    ensures read { GoesOnReading (R.has_read rule.new) result }
    ensures rule { R.fault_in rule.new ≡ R.fault_in rule.old }
    ensures most { R.most_bytes rule.new ≡ R.most_bytes rule.old }
    ensures lanes_read { AllOnlyRead (views D.Drive lanes.old) (views D.Drive lanes.new) }
    ensures disks_read { AllOnlyRead (views D.Drive disks.old) (views D.Drive disks.new) }
{
    let looked = match look(alloc, lanes, disks, site.set.out, site.set, name, rule) {
        Ok(looked) => looked,
        Err(fault) => return Err(fault),
    };
    match &looked.pending {
        None => Ok(Ready {
            looked,
            first: None,
        }),
        Some(_) => {
            if !looked.can_forward() {
                let whys = looked.whys;
                drop(looked);
                return Err(QuorumFault::WriteQuorum(whys));
            }
            match draft_again(alloc, &looked, next_ballot(site.term, drawn.seq)) {
                Ok(draft) => Ok(Ready {
                    looked,
                    first: Some(draft),
                }),
                Err(_) => {
                    drop(looked);
                    Err(QuorumFault::NoMemory)
                }
            }
        }
    }
}

/// Completes what was found pending, and answers its change; None where nothing was pending. It takes no memory.
pub(crate) fn forward<D: Drive>(
    lanes: &mut [D],
    site: &Site,
    name: &str,
    ready: &mut Ready,
    drawn: &mut Drawn,
) -> Result<Option<ChangeId>, QuorumFault>
    requires lanes { length lanes.old ≡ site.now.set.drives }
    requires fits { FirstFits site.now.set ready.old.first }
    requires seq { drawn.old.seq + 1 < 2 ^ 64 }
    requires room { drawn.old.count + 2 * site.now.set.drives < 2 ^ 64 }
    ensures settles { SettlesAfter D.Drive site.now drawn.old drawn.new name.now ready.old result lanes.old lanes.new }
    ensures late { IfOk result (λ late. late ≡ late_of ready.old.first) }
    ensures calls { CallsForward D.Drive site.now drawn.old drawn.new ready.old.first result lanes.old lanes.new }
    ensures lanes { AllGoOn (views D.Drive lanes.old) (views D.Drive lanes.new) }
    ensures looked { ready.new.looked ≡ ready.old.looked }
    ensures draws { Draws 1 (2 * site.now.set.drives) drawn.old drawn.new }
{
    value_laws();
    calm_laws();
    fresh_laws();
    match &mut ready.first {
        None => Ok(None),
        Some(draft) => {
            drawn.seq += 1;
            let change = draft.value.change;
            match write_both(lanes, site.set.out, draft, site.term, &mut drawn.count) {
                Ok(_) => Ok(Some(change)),
                Err(fault) => Err(fault),
            }
        }
    }
}
