//! The command `pipe`.

ghost use Rattle.std.specs.Prelude.{◌≡◌, Some, None};
ghost use Rattle.ostore.specs.Logs.{desk_answers};
ghost use Rattle.ostore.specs.Rigs.{IsRigOf};
ghost use Rattle.ostore.specs.Running.{Pipes};
ghost use Rattle.ostore.specs.Statuses.{refusal_status};
ghost use Rattle.serve_loop.specs.Seen.{wires_of};
ghost use Rattle.serve_loop.specs.Session.{Session};
ghost use Rattle.store_shared.specs.Passes.{disks_of, set_of, slots_of};

use crate::laws::connection_law;
use crate::notices::tell_opened;
use crate::opening::{Shop, Shut, close, open};
use crate::rig::{Ended, Rig};
use crate::statuses::{status_of, status_of_refusal};
use audit_trail::Audit;
use drive_base::Drive;
use io_base::{Clock, Sink, Source};
use serve_loop::{Served, serve_connection};
use std::alloc::Global;
use std::io::Eprint;
use store_shared::{PlainDesk, PlainPass};

/// A run that has ended, with its source.
#[derive(Drop)]
pub struct Finished<D, A, S> {
    /// How it ended.
    pub ended: Ended<D, A, ()>,
    /// The source, behind all that was taken from it.
    pub source: S,
}

/// Serves one connection over the store of a rig, from the source to the sink. The opening is said on standard error.
pub fn pipe<R: Eprint, S: Source + Drop, K: Sink, D: Drive, A: Audit, C: Clock>(
    rt: &R,
    alloc: Global,
    source: S,
    sink: &mut K,
    rig: Rig<D, A>,
    clock: &C,
) -> Finished<D, A, S>
    requires fits { IsRigOf rig.set rig }
    ensures { Pipes D.Drive A.entries A.count (C.moment clock.now) rig result.ended
        (wires_of S.Source K.Sink source sink.old)
        (wires_of S.Source K.Sink result.source sink.new) }
{
    connection_law::<D, A>();
    match open(alloc, rig) {
        Ok(shop) => {
            let Shop { pass, away } = shop;
            let mut pass = announce(rt, pass);
            let served = connection(rt, alloc, &mut pass, source, sink, clock);
            Finished {
                ended: Ended::with(status_of(&served.end), close(pass, away)),
                source: served.source,
            }
        }
        Err(back) => Finished {
            ended: shut(back),
            source,
        },
    }
}

/// Says that a store was opened, and hands it on.
fn announce<R: Eprint, D: Drive, A: Audit>(rt: &R, pass: PlainPass<D, A>) -> PlainPass<D, A>
    ensures set { set_of result ≡ set_of pass }
    ensures slots { slots_of result ≡ slots_of pass }
    ensures disks { disks_of result ≡ disks_of pass }
{
    let parts = pass.into_parts();
    tell_opened(rt, &parts);
    PlainPass::new(parts)
}

/// The end of a run for which the store was not opened.
fn shut<D: Drive, A: Audit>(back: Shut<D, A>) -> Ended<D, A, ()>
    ensures status { result.status ≡ refusal_status back.why }
    ensures rig { result.rig ≡ Some back.rig }
    ensures opening { result.opening ≡ Some back.why }
    ensures line { result.line ≡ None }
    ensures starved { result.starved ≡ 0 }
{
    Ended {
        status: status_of_refusal(&back.why),
        rig: Some(back.rig),
        opening: Some(back.why),
        line: None,
        starved: 0,
        door: (),
    }
}

/// Serves one connection over an open store.
fn connection<R: Eprint, S: Source + Drop, K: Sink, D: Drive, A: Audit, C: Clock>(
    rt: &R,
    alloc: Global,
    pass: &mut PlainPass<D, A>,
    source: S,
    sink: &mut K,
    clock: &C,
) -> Served<S>
    ensures { Session (desk_answers D.Drive A.entries A.count) (C.moment clock.now) pass.old pass.new result.end
        (wires_of S.Source K.Sink source sink.old)
        (wires_of S.Source K.Sink result.source sink.new) }
{
    let desk: PlainDesk<D, A> = PlainDesk::new();
    serve_connection(rt, alloc, &desk, pass, source, sink, clock)
}
