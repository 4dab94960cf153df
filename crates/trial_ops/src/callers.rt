//! The ops that are under way, one of each kind, and their steps.

ghost use Rattle.std.specs.Prelude.{◌≡◌};
ghost use Rattle.desk_base.specs.Calls.{IsLawful, stated_length};

use crate::any_op::AnyOp;
use crate::asks;
use desk_base::Call;
use drive_base::SetPlan;
use object_ops::{DeedOp, PutOp, ReadOp};
use op_steps::{Op, OpNext};
use receipts::Barred;
use std::alloc::Global;
use trial_base::{Names, NoAnswer, first, number, said, yes};
use trial_rig::{Caller, Line, Source, Store};

/// The second of all calls.
pub const NOW: u64 = 784_111_777;

/// The ops that are under way, one of each kind.
#[derive(Drop)]
pub struct Callers {
    pub head: Option<Caller<ReadOp>>,
    pub get: Option<Caller<AnyOp>>,
    pub put: Option<Caller<AnyOp>>,
    pub deed: Option<Caller<AnyOp>>,
}

impl Callers {
    /// No op.
    pub fn none() -> Callers {
        Callers {
            head: None,
            get: None,
            put: None,
            deed: None,
        }
    }

    /// Begins the op of a call, in the place of that of its kind.
    fn take(
        &mut self,
        alloc: Global,
        set: &SetPlan,
        call: &Call,
        source: Source,
    ) -> Result<(), NoAnswer>
        requires lawful { IsLawful call.now }
        requires stated { source.stated ≡ stated_length call.now }
        requires given { source.given ≡ 0 }
    {
        match call {
            Call::Head { .. } => {
                let op = ReadOp::new(alloc, *set, call, NOW)?;
                self.head = Some(Caller::new(alloc, op, *set, source));
            }
            Call::Get { .. } => {
                let op = AnyOp::Get(ReadOp::new(alloc, *set, call, NOW)?);
                self.get = Some(Caller::new(alloc, op, *set, source));
            }
            Call::Put { .. } => {
                let op = AnyOp::Put(PutOp::new(alloc, *set, call, NOW)?);
                self.put = Some(Caller::new(alloc, op, *set, source));
            }
            Call::Delete { .. } | Call::Create { .. } | Call::Abort { .. } => {
                let op = AnyOp::Deed(DeedOp::new(alloc, *set, call, NOW)?);
                self.deed = Some(Caller::new(alloc, op, *set, source));
            }
            _ => return Err(NoAnswer),
        }
        Ok(())
    }

    /// Begins the op of these words on a store over this set, in the place of that of its kind.
    pub fn begin(
        &mut self,
        alloc: Global,
        names: &Names,
        set: SetPlan,
        words: &str,
    ) -> Result<(), NoAnswer> {
        let call = asks::call(alloc, names, words)?;
        let begun = match asks::source(alloc, names, &call, words) {
            Ok(source) => self.take(alloc, &set, &call, source),
            Err(why) => Err(why),
        };
        drop(call);
        begun
    }

    /// `STEP KIND COUNT`: what the op of a kind does.
    pub fn go(
        &mut self,
        alloc: Global,
        store: &mut Store,
        step: &str,
        kind: &str,
        count: u64,
    ) -> Result<String, NoAnswer> {
        match kind {
            "head" => go(alloc, store, &mut self.head, step, count),
            "get" => go(alloc, store, &mut self.get, step, count),
            "put" => go(alloc, store, &mut self.put, step, count),
            "delete" | "create" | "abort" => go(alloc, store, &mut self.deed, step, count),
            _ => said(alloc, "no such kind"),
        }
    }

    /// Rows over `object_ops`.
    pub fn answer(
        &mut self,
        alloc: Global,
        names: &Names,
        store: &mut Store,
        row: &str,
    ) -> Result<String, NoAnswer> {
        let (step, words) = first(row);
        let (kind, rest) = first(words);
        match step {
            "start" => {
                self.begin(alloc, names, store.set, words)?;
                said(alloc, "begun")
            }
            "call" => {
                self.begin(alloc, names, store.set, words)?;
                self.go(alloc, store, "end", kind, 0)
            }
            "commits" => match &self.put {
                Some(caller) => yes(alloc, at_commit(&caller.op)),
                None => said(alloc, "no such op"),
            },
            _ => self.go(alloc, store, step, kind, number(rest)),
        }
    }
}

/// Whether the section comes next that commits a put.
fn at_commit(op: &AnyOp) -> bool {
    match op {
        AnyOp::Put(op) => op.at_commit(),
        AnyOp::Get(_) | AnyOp::Deed(_) => false,
    }
}

/// The letter of what comes next: `s` a section, `d` a call of a data drive, `f` bytes of the body, `t` a telling, and `.` nothing.
fn letter(next: OpNext) -> char {
    match next {
        OpNext::Section(_) => 's',
        OpNext::Data => 'd',
        OpNext::Feed => 'f',
        OpNext::Tell => 't',
        OpNext::Done => '.',
    }
}

/// Does the steps of a call up to its end, and so many at most, and gives their letters.
fn letters<O: Op>(
    alloc: Global,
    store: &mut Store,
    caller: &mut Caller<O>,
    most: u64,
) -> Result<String, NoAnswer> {
    let mut letters = String::new(alloc);
    for _ in 0..most {
        let next = letter(caller.op.next());
        if next == '.' {
            break;
        }
        let mut line = Line::new(alloc);
        caller.step(alloc, store, &mut line)?;
        drop(line);
        letters.push(next)?;
    }
    Ok(letters)
}

/// What a call was told so far, and why it was cut, if it was.
fn told<O: Op>(alloc: Global, caller: &Caller<O>) -> Result<String, NoAnswer> {
    let mut line = Line::new(alloc);
    caller.say_told(&mut line);
    let told = line.into_answer()?;
    match told.as_str().trim() {
        "" => said(alloc, "nothing"),
        told => said(alloc, told),
    }
}

/// The bytes of the body that a call was told, or all that it was told where there are none.
fn body<O: Op>(alloc: Global, caller: &Caller<O>) -> Result<String, NoAnswer> {
    let told = told(alloc, caller)?;
    match told.as_str().split_once(" | ") {
        Some((_, body)) => said(alloc, body),
        None => Ok(told),
    }
}

/// Tells an op whose section comes next that the turns of its slot are spent, and says whether it did.
fn bar<O: Op>(alloc: Global, caller: &mut Caller<O>) -> Result<String, NoAnswer> {
    let OpNext::Section(_) = caller.op.next() else {
        return said(alloc, "no section is next");
    };
    caller.op.barred(Barred::Spent);
    said(alloc, "barred")
}

/// `step KIND COUNT`, `turn KIND`, `run KIND`, `end KIND`, `told KIND`, `stored KIND`, `body KIND`, or `bar KIND`.
///
/// They tell the letters of so many steps; what one step is, with the stub of a section; the letters of all steps to the end, and what was told; that alone;
/// what was told so far; whether it is that an object is stored; the body of it alone; and they tell the op that the turns of its slot are spent.
fn go<O: Op>(
    alloc: Global,
    store: &mut Store,
    caller: &mut Option<Caller<O>>,
    step: &str,
    count: u64,
) -> Result<String, NoAnswer> {
    let Some(caller) = caller else {
        return said(alloc, "no such op");
    };
    match step {
        "step" => letters(alloc, store, caller, count),
        "turn" => {
            let mut line = Line::new(alloc);
            caller.step(alloc, store, &mut line)?;
            line.into_answer()
        }
        "run" => {
            let letters = letters(alloc, store, caller, 1000)?;
            let told = told(alloc, caller)?;
            Ok(format!(in alloc; "{letters}, {told}")?)
        }
        "end" => {
            let letters = letters(alloc, store, caller, 1000)?;
            drop(letters);
            told(alloc, caller)
        }
        "told" => told(alloc, caller),
        "stored" => {
            let told = told(alloc, caller)?;
            yes(alloc, told.as_str().starts_with("stored "))
        }
        "body" => body(alloc, caller),
        "bar" => bar(alloc, caller),
        _ => said(alloc, "no such call"),
    }
}
