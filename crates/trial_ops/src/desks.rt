//! The desks of a store over memory drives: for one caller, and for two in turn.

ghost use Rattle.std.specs.Prelude.{◌≡◌, ◌<◌, ◌↔◌, IfSome, IsTrue, length};
ghost use Rattle.std.specs.List.{All};
ghost use Rattle.desk_base.specs.Calls.{IsLawful, stated_length};
ghost use Rattle.slot_core.specs.declared.slot.SlotParts.{SlotParts};
ghost use Rattle.store_shared.specs.Passes.{set_of};

use crate::asks;
use crate::callers::NOW;
use crate::sharing::two;
use desk_base::{Call, Desk};
use drive_base::{SetPlan, Trouble};
use drive_memory::{Back, Lose, MemDrive};
use object_ops::DeedOp;
use op_steps::Served;
use slot_core::{SlotParts, Turn};
use std::alloc::Global;
use std::sync::Wait;
use store_shared::{PassParts, PlainDesk, PlainPass, StoreParts, open_all};
use term_gate::OpenRefusal;
use trial_base::{Names, NoAnswer, first, number, said, yes};
use trial_rig::{FrailAudit, Line, RecordingTeller, Source, say_cut, say_whys};

/// The way to a store over memory drives.
pub type MemPass = PlainPass<MemDrive, FrailAudit>;

/// What a store over memory drives is opened over.
type MemStore = StoreParts<MemDrive, FrailAudit>;

/// The lanes and the audit of a slot.
type MemParts = SlotParts<MemDrive, FrailAudit>;

/// Four fresh drives, of which the first ones are lost, so many.
pub fn drives(alloc: Global, lost: u64) -> Result<Vec<MemDrive>, NoAnswer> {
    let mut drives = Vec::new(alloc);
    for drive in 0..4u64 {
        let mut fresh = MemDrive::new(alloc);
        if drive < lost {
            fresh.lose();
        }
        drives.push(fresh)?;
    }
    Ok(drives)
}

/// What a fresh store is opened over, of whose data drives the first ones are lost, so many.
fn fresh(alloc: Global, lost: u64) -> Result<MemStore, NoAnswer> {
    let disks = drives(alloc, lost)?;
    let mut slots = Vec::new(alloc);
    for _ in 0..64u8 {
        let lanes = drives(alloc, 0)?;
        let audit = FrailAudit::new(None);
        slots.push(SlotParts { lanes, audit })?;
    }
    Ok(StoreParts { disks, slots })
}

/// What the next life of a store is opened over.
fn closed(alloc: Global, pass: MemPass) -> Result<MemStore, NoAnswer> {
    let home = Vec::with_capacity(alloc, 64)?;
    Ok(pass.shut(home))
}

/// Whether a slot has four lanes.
fn has_four(parts: &MemParts) -> bool
    ensures { IsTrue result ↔ (length parts.now.lanes.items ≡ 4) }
{
    parts.lanes.len() == 4
}

/// Whether each slot has.
fn have_four(parts: &[MemParts]) -> bool
    ensures { IsTrue result ↔ All (λ (one : SlotParts MemDrive FrailAudit). length one.lanes.items ≡ 4) parts.now }
{
    parts.iter().all(|one| has_four(one))
}

/// Why a store was not opened, in words.
fn refusal(alloc: Global, why: OpenRefusal) -> Result<String, NoAnswer> {
    let OpenRefusal::OpenQuorum(whys) = why else {
        return said(alloc, "another refusal");
    };
    let mut line = Line::new(alloc);
    line.say("OpenQuorum ");
    say_whys(&mut line, &whys);
    line.into_answer()
}

/// The way to a store over these parts, or why it was not opened.
fn opened(alloc: Global, parts: MemStore) -> Result<Result<MemPass, OpenRefusal>, NoAnswer> {
    if parts.disks.len() != 4 || parts.slots.len() != 64 {
        return Err(NoAnswer);
    }
    if !have_four(parts.slots.as_slice()) {
        return Err(NoAnswer);
    }
    match open_all(alloc, SetPlan::new([7; 16], 4, 2), parts) {
        Ok(pass) => Ok(Ok(pass)),
        Err(back) => Ok(Err(back.why)),
    }
}

/// What a lawful call is told.
fn tells<K: Desk>(
    alloc: Global,
    desk: &K,
    pass: &mut K::Pass,
    call: &Call,
    source: Source,
) -> Result<String, NoAnswer>
    requires fits { K.fits desk.now (K.holds pass.old) }
    requires lawful { IsLawful call.now }
    requires stated { source.stated ≡ stated_length call.now }
    requires given { source.given ≡ 0 }
    ensures holds { K.holds pass.new ≡ K.holds pass.old }
{
    let mut source = source;
    let mut teller = RecordingTeller {
        told: Line::new(alloc),
    };
    let answer = desk.call(alloc, pass, call, NOW, &mut source, &mut teller);
    let mut line = Line::new(alloc);
    line.say_line(&teller.told);
    if let Err(cut) = &answer {
        say_cut(&mut line, cut);
    }
    drop(answer);
    line.into_answer()
}

/// What the call of these words is told.
pub fn hear<K: Desk>(
    alloc: Global,
    names: &Names,
    desk: &K,
    pass: &mut K::Pass,
    words: &str,
) -> Result<String, NoAnswer>
    requires fits { K.fits desk.now (K.holds pass.old) }
    ensures holds { K.holds pass.new ≡ K.holds pass.old }
{
    let call = asks::call(alloc, names, words)?;
    let told = match asks::source(alloc, names, &call, words) {
        Ok(source) => tells(alloc, desk, pass, &call, source),
        Err(why) => Err(why),
    };
    drop(call);
    told
}

/// How many names of registers each slot lists that has some.
fn names_in(alloc: Global, pass: &mut MemPass) -> Result<String, NoAnswer> {
    let mut out = said(alloc, "lists")?;
    for slot in 0..64u8 {
        let Turn { answer, stub } = PlainDesk::new().page(alloc, pass, slot, "", 9);
        drop(stub);
        let Ok(names) = answer else {
            return said(alloc, "refused");
        };
        for name in names.as_slice().iter() {
            let words = format!(in alloc; " {slot} {name}")?;
            out.push_str(words.as_str())?;
        }
    }
    Ok(out)
}

/// The index of a drive of a store's set.
fn index_of(pass: &MemPass, words: &str) -> Option<u8>
    ensures { IfSome result (λ index. index < (set_of pass.now).drives) }
{
    let index = number(words);
    let drives = pass.set().drives;
    if index < u64::from(drives) {
        return Some(index as u8);
    }
    None
}

/// Has trouble befall the lanes and the data drive of an index, and tells whether it befell that drive.
fn struck<T: Trouble<MemDrive>>(
    alloc: Global,
    pass: &mut MemPass,
    words: &str,
    trouble: &mut T,
) -> Result<String, NoAnswer> {
    match index_of(pass, words) {
        Some(index) => yes(alloc, pass.strike(index, trouble)),
        None => Err(NoAnswer),
    }
}

/// `delete KEY`: how many stubs the op gives that nobody waits for, and whether it was cut, as it is where its reply is told.
fn finished(
    alloc: Global,
    names: &Names,
    pass: &mut MemPass,
    words: &str,
) -> Result<String, NoAnswer> {
    let call = asks::call(alloc, names, words)?;
    let op = match &call {
        Call::Delete { .. } => DeedOp::new(alloc, pass.set(), &call, NOW),
        _ => return Err(NoAnswer),
    };
    let mut op = op?;
    let Served { stubs, cut } = PlainDesk::new().finish(alloc, pass, &mut op);
    let count = stubs.len();
    let end = if cut.is_some() { "cut" } else { "whole" };
    Ok(format!(in alloc; "{count} stubs, {end}")?)
}

/// A store that callers do calls on.
#[derive(Drop)]
pub struct Desks<R: Wait> {
    pub rt: R,
    pub pass: Option<MemPass>,
}

impl<R: Wait + Copy + Drop + Sync> Desks<R> {
    /// Opens the store over these parts, and tells what came of it.
    fn open(&mut self, alloc: Global, parts: MemStore) -> Result<String, NoAnswer> {
        match opened(alloc, parts)? {
            Ok(pass) => {
                self.pass = Some(pass);
                said(alloc, "opened")
            }
            Err(why) => refusal(alloc, why),
        }
    }

    /// Closes the store, and opens it in its next life.
    fn reopen(&mut self, alloc: Global) -> Result<String, NoAnswer> {
        let Some(pass) = self.pass.take() else {
            return said(alloc, "no store");
        };
        let parts = closed(alloc, pass)?;
        self.open(alloc, parts)
    }

    /// `CALL | CALL | CALL | CALL`: what two callers are told in turn, the second one first.
    fn share(&mut self, alloc: Global, names: &Names, words: &str) -> Result<String, NoAnswer> {
        let Some(pass) = self.pass.take() else {
            return said(alloc, "no store");
        };
        let (told, pass) = two(self.rt, alloc, names, pass, words)?;
        self.pass = Some(pass);
        Ok(told)
    }

    /// A row on the store of one caller.
    fn alone(&mut self, alloc: Global, names: &Names, row: &str) -> Result<String, NoAnswer> {
        let Some(pass) = &mut self.pass else {
            return said(alloc, "no store");
        };
        match first(row) {
            ("call", words) => hear(alloc, names, &PlainDesk::new(), pass, words),
            ("names", _) => names_in(alloc, pass),
            ("lose", words) => struck(alloc, pass, words, &mut Lose),
            ("back", words) => struck(alloc, pass, words, &mut Back),
            ("finish", words) => finished(alloc, names, pass, words),
            _ => said(alloc, "no such call"),
        }
    }

    /// Rows over `store_shared`.
    pub fn answer(&mut self, alloc: Global, names: &Names, row: &str) -> Result<String, NoAnswer> {
        let (call, words) = first(row);
        match call {
            "open" => {
                let parts = fresh(alloc, number(words))?;
                self.open(alloc, parts)
            }
            "reopen" => self.reopen(alloc),
            "share" => self.share(alloc, names, words),
            _ => self.alone(alloc, names, row),
        }
    }
}
