//! Rows over `bucket_ops`: calls on buckets, step by step.

ghost use Rattle.std.specs.Prelude.{◌≡◌, IfOk};
ghost use Rattle.desk_base.specs.Calls.{stated_length};
ghost use Rattle.bucket_ops.specs.Looks.{IsLook};
ghost use Rattle.bucket_book.specs.Name.{IsBucketName};

use crate::callers::AnyCaller;
use crate::entries::count_of;
use bucket_book::check_name;
use bucket_ops::{ChangeOp, ListOp, LookOp};
use desk_base::Call;
use op_steps::{Op, OpNext};
use seal_file::Text;
use std::alloc::Global;
use trial_base::{Names, NoAnswer, bytes, first, said, word};
use trial_rig::{Caller, Line, Source, Store, moment_of, say_next};

/// A bucket that is named as buckets are.
fn bucket_of(alloc: Global, word: &str) -> Result<Text, NoAnswer>
    ensures { IfOk result IsBucketName }
{
    if !check_name(word) {
        return Err(NoAnswer);
    }
    Ok(Text::from_slice(alloc, word.as_bytes())?)
}

/// The call of a look at a bucket.
fn look_call(alloc: Global, words: &str) -> Result<Call, NoAnswer>
    ensures looks { IfOk result IsLook }
    ensures bodiless { IfOk result (λ call. stated_length call ≡ 0) }
{
    let bucket = bucket_of(alloc, word(words, 2))?;
    if word(words, 0) == "head" {
        return Ok(Call::HeadBucket { bucket });
    }
    Ok(Call::GetVersioning { bucket })
}

/// `head NOW BUCKET` or `get_mode NOW BUCKET`
fn look(alloc: Global, store: &Store, words: &str) -> Result<Caller<LookOp>, NoAnswer> {
    let now = moment_of(word(words, 1))?;
    let source = Source::new(0, Vec::new(alloc))?;
    let call = look_call(alloc, words)?;
    let op = LookOp::new(alloc, store.set, &call, now)?;
    Ok(Caller::new(alloc, op, store.set, source))
}

/// `make NOW BUCKET`
fn make(alloc: Global, store: &Store, words: &str) -> Result<Caller<ChangeOp>, NoAnswer> {
    let now = moment_of(word(words, 1))?;
    let bucket = bucket_of(alloc, word(words, 2))?;
    let source = Source::new(0, Vec::new(alloc))?;
    let call = Call::CreateBucket { bucket };
    let op = ChangeOp::new(alloc, store.set, &call, now)?;
    Ok(Caller::new(alloc, op, store.set, source))
}

/// `set_mode NOW BUCKET LENGTH DOCUMENT`
fn set_mode(
    alloc: Global,
    names: &Names,
    store: &Store,
    words: &str,
) -> Result<Caller<ChangeOp>, NoAnswer> {
    let now = moment_of(word(words, 1))?;
    let bucket = bucket_of(alloc, word(words, 2))?;
    let length = count_of(word(words, 3))?;
    let document = bytes(alloc, names, word(words, 4))?;
    if length > 2_097_152 {
        return Err(NoAnswer);
    }
    let source = Source::new(length, document)?;
    let call = Call::PutVersioning { bucket, length };
    let op = ChangeOp::new(alloc, store.set, &call, now)?;
    Ok(Caller::new(alloc, op, store.set, source))
}

/// `list NOW`
fn list(alloc: Global, store: &Store, words: &str) -> Result<Caller<ListOp>, NoAnswer> {
    let now = moment_of(word(words, 1))?;
    let source = Source::new(0, Vec::new(alloc))?;
    let op = ListOp::new(alloc, store.set, now)?;
    Ok(Caller::new(alloc, op, store.set, source))
}

/// `step`, `run MOST`, or `barred WHY`
fn go<O: Op>(
    alloc: Global,
    store: &mut Store,
    caller: &mut Caller<O>,
    words: &str,
) -> Result<String, NoAnswer> {
    match word(words, 0) {
        "run" => caller.run(alloc, store, count_of(word(words, 1))?),
        "step" => {
            let mut line = Line::new(alloc);
            caller.step(alloc, store, &mut line)?;
            line.into_answer()
        }
        "next" => {
            let mut line = Line::new(alloc);
            say_next(&mut line, caller.op.next());
            line.into_answer()
        }
        _ => said(alloc, "no such call"),
    }
}

/// The call that a row begins.
fn begun(
    alloc: Global,
    names: &Names,
    store: &Store,
    words: &str,
) -> Result<Option<AnyCaller>, NoAnswer> {
    match word(words, 0) {
        "head" | "get_mode" => Ok(Some(AnyCaller::Look(look(alloc, store, words)?))),
        "make" => Ok(Some(AnyCaller::Change(make(alloc, store, words)?))),
        "set_mode" => Ok(Some(AnyCaller::Change(set_mode(alloc, names, store, words)?))),
        "list" => Ok(Some(AnyCaller::List(list(alloc, store, words)?))),
        _ => Ok(None),
    }
}

/// What a row over `bucket_ops` is answered.
pub fn answer(
    alloc: Global,
    names: &Names,
    store: &mut Store,
    caller: &mut AnyCaller,
    words: &str,
) -> Result<String, NoAnswer> {
    if let Some(call) = begun(alloc, names, store, words)? {
        *caller = call;
        return said(alloc, "begun");
    }
    match caller {
        AnyCaller::Nothing => Err(NoAnswer),
        AnyCaller::Look(caller) => go(alloc, store, caller, words),
        AnyCaller::Change(caller) => go(alloc, store, caller, words),
        AnyCaller::List(caller) => go(alloc, store, caller, words),
    }
}
