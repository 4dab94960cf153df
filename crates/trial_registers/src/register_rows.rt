//! Rows over `register_core` and `register_caller`: the steps of one register over the drives of a set.

use crate::words::{amount, cause, letters, quoted, small};
use crate::world::{World, is_late};
use drive_base::DriveSet;
use register_core::{Looked, draft_mend, is_out, lane_laws, mark, mend, propose};
use register_file::Base;
use std::alloc::Global;
use trial_base::{Names, NoAnswer, bytes, first, said, word, yes};

/// The numbers of a ballot and a change of term 1, and a content: `BALLOT/CHANGE 'CONTENT'`.
fn told_base(alloc: Global, base: &Base) -> Result<String, NoAnswer> {
    let content = quoted(alloc, base.content.as_slice())?;
    Ok(format!(in alloc; "{}/{} {content}", base.ballot.seq, base.change.0.seq)?)
}

/// What a look found.
fn told_look(alloc: Global, looked: &Looked) -> Result<String, NoAnswer> {
    let base = told_base(alloc, &looked.base)?;
    let whys = letters(alloc, "", &looked.whys)?;
    let clean = looked.clean.mask();
    let Some(found) = &looked.pending else {
        return Ok(format!(in alloc; "settled {base}, {whys}, clean {clean}")?);
    };
    let content = quoted(alloc, found.content.as_slice())?;
    let (ballot, change) = (found.ballot.seq, found.change.0.seq);
    Ok(format!(in alloc; "pending {ballot}/{change} {content} over {base}, {whys}")?)
}

/// The steps that only `register_core` does.
impl World {
    /// `look`
    fn looked(&mut self, alloc: Global) -> Result<String, NoAnswer> {
        match self.look(alloc)? {
            Ok(looked) => {
                self.whys = Some(looked.whys);
                told_look(alloc, &looked)
            }
            Err(of) => self.refused(alloc, "", of),
        }
    }

    /// `draft CONTENT`: makes the draft of a change of one's own over a settled register, and keeps it.
    fn drafted(&mut self, alloc: Global, content: &[u8]) -> Result<String, NoAnswer> {
        let ready = match self.ready(alloc)? {
            Ok(ready) => ready,
            Err(of) => return self.refused(alloc, "", of),
        };
        let draft = self.own(alloc, &ready, content)?;
        let told = told_base(alloc, &draft.value);
        self.draft = Some(draft);
        told
    }

    /// `propose`: writes the first file of the draft that was kept.
    fn proposed(&mut self, alloc: Global) -> Result<String, NoAnswer> {
        let Some(draft) = &self.draft else {
            return Err(NoAnswer);
        };
        let drives = draft.set.drives as usize;
        if self.lanes.len() != drives
            || draft.letters.len() != drives
            || draft.name.len() > 1129
            || self.count > 1_000_000
        {
            return Err(NoAnswer);
        }
        let lanes = self.lanes.as_mut_slice();
        match propose(lanes, DriveSet::none(), draft, 1, &mut self.count) {
            Ok(prepared) => {
                self.prepared = Some(prepared);
                letters(alloc, "took ", &prepared.whys)
            }
            Err(of) => self.refused(alloc, "", of),
        }
    }

    /// `mark`: writes the last file of the draft on the lanes that took the first.
    fn marked(&mut self, alloc: Global) -> Result<String, NoAnswer> {
        let (Some(draft), Some(prepared)) = (&mut self.draft, self.prepared) else {
            return Err(NoAnswer);
        };
        let drives = draft.set.drives as usize;
        if self.lanes.len() != drives
            || prepared.whys.len() != drives
            || draft.name.len() > 1129
            || self.count > 1_000_000
        {
            return Err(NoAnswer);
        }
        let lanes = self.lanes.as_mut_slice();
        match mark(lanes, draft, prepared, 1, &mut self.count) {
            Ok(whys) => letters(alloc, "marked ", &whys),
            Err(of) => self.refused(alloc, "", of),
        }
    }

    /// `draft_mend`: makes the draft of a mend of a settled register, and keeps it.
    fn drafted_mend(&mut self, alloc: Global) -> Result<String, NoAnswer> {
        let looked = match self.look(alloc)? {
            Ok(looked) => looked,
            Err(of) => return self.refused(alloc, "", of),
        };
        match &looked.pending {
            Some(_) => Err(NoAnswer),
            None => {
                let draft = draft_mend(alloc, &looked)?;
                let told = told_base(alloc, &draft.value);
                self.draft = Some(draft);
                told
            }
        }
    }

    /// `mend OUT`: writes the draft's last file on each lane that isn't out and wasn't shown to have it.
    fn mended(&mut self, alloc: Global, out: DriveSet) -> Result<String, NoAnswer> {
        let Some(draft) = &self.draft else {
            return Err(NoAnswer);
        };
        if self.lanes.len() != draft.set.drives as usize
            || draft.name.len() > 1129
            || self.count > 1_000_000
        {
            return Err(NoAnswer);
        }
        let lanes = self.lanes.as_mut_slice();
        let done = mend(lanes, out, draft, 1, &mut self.count);
        self.whys = Some(done.whys);
        let whys = letters(alloc, "", &done.whys)?;
        Ok(format!(in alloc; "{} written, {whys}", done.lanes)?)
    }

    /// `why LANE`: the cause of a letter that was told last.
    fn why(&self, alloc: Global, lane: usize) -> Result<String, NoAnswer> {
        let Some(whys) = self.whys else {
            return Err(NoAnswer);
        };
        if lane >= whys.len() {
            return Err(NoAnswer);
        }
        cause(alloc, whys.get(lane))
    }

    /// The rows of `register_core`.
    pub fn step(&mut self, alloc: Global, names: &Names, asked: &str) -> Result<String, NoAnswer> {
        let (call, words) = first(asked);
        match call {
            "look" => self.looked(alloc),
            "draft" => {
                let content = bytes(alloc, names, words)?;
                self.drafted(alloc, content.as_slice())
            }
            "propose" => self.proposed(alloc),
            "mark" => self.marked(alloc),
            "draft_mend" => self.drafted_mend(alloc),
            "mend" => self.mended(alloc, DriveSet::from_mask(amount(words)?)),
            "why" => self.why(alloc, small(words)? as usize),
            "is_out" => {
                let set = DriveSet::from_mask(amount(word(words, 0))?);
                let index = small(word(words, 1))? as usize;
                if index >= 16 {
                    return Err(NoAnswer);
                }
                yes(alloc, is_out(set, index))
            }
            "laws" => {
                lane_laws();
                said(alloc, "done")
            }
            _ => said(alloc, "no such call"),
        }
    }

    /// Puts `new` over `old` while lanes have a fuse of so many calls, stops, and reads twice.
    fn fused(
        &mut self,
        alloc: Global,
        lane: usize,
        alone: bool,
        calls: u64,
        late: bool,
    ) -> Result<String, NoAnswer> {
        self.start(alloc, 4, 2)?;
        self.begin(alloc)?;
        self.put(alloc, b"old")?;
        self.begin(alloc)?;
        for (index, drive) in self.lanes.iter_mut().enumerate() {
            if (index == lane) == alone {
                drive.fuse(calls, late);
            }
        }
        let told = self.put(alloc, b"new")?;
        self.stop();
        let once = self.get(alloc)?;
        let again = self.get(alloc)?;
        Ok(format!(in alloc; "{told} {once} {again}")?)
    }

    /// `fuses LANE alone|others early|late`: that under each fuse of 0 to 8 calls.
    fn fuses(&mut self, alloc: Global, words: &str) -> Result<String, NoAnswer> {
        let lane = small(word(words, 0))? as usize;
        let alone = match word(words, 1) {
            "alone" => true,
            "others" => false,
            _ => return Err(NoAnswer),
        };
        let late = is_late(word(words, 2))?;
        let mut all = String::new(alloc);
        for calls in 0..9u64 {
            let told = self.fused(alloc, lane, alone, calls, late)?;
            if calls > 0 {
                all.push_str("; ")?;
            }
            all.push_str(told.as_str())?;
        }
        Ok(all)
    }

    /// The rows of `register_caller`.
    pub fn section(
        &mut self,
        alloc: Global,
        names: &Names,
        asked: &str,
    ) -> Result<String, NoAnswer> {
        let (call, words) = first(asked);
        match call {
            "begin" => {
                let whys = self.begin(alloc)?;
                letters(alloc, "", &whys)
            }
            "put" => {
                let content = bytes(alloc, names, words)?;
                self.put(alloc, content.as_slice())
            }
            "get" => self.get(alloc),
            "fuses" => self.fuses(alloc, words),
            _ => said(alloc, "no such call"),
        }
    }
}
