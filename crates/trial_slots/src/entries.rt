//! Entries by their words.

ghost use Rattle.std.specs.Prelude.{◌<◌};

use audit_trail::{Deed, Entry};
use call_types::{Brief, Key, Mode, Pick, Reply};
use seal_file::Text;
use stamp_id::{Ballot, ChangeId};
use std::alloc::Global;
use trial_base::{Names, NoAnswer, bytes, word};

/// A number, which has to be one.
pub fn count_of(word: &str) -> Result<u64, NoAnswer> {
    match word.parse::<u64>() {
        Ok(number) => Ok(number),
        Err(_) => Err(NoAnswer),
    }
}

/// The read of the key `a` of the bucket `pic`, in which each write makes a version.
fn read_call(alloc: Global) -> Result<Brief, NoAnswer> {
    let bucket = Text::from_slice(alloc, b"pic")?;
    let key = Text::from_slice(alloc, b"a")?;
    Ok(Brief::Read {
        at: Key { bucket, key },
        mode: Mode::Enabled,
        pick: Pick::Current,
    })
}

/// A deed: `opened` in term 3, `kept`, or `refused` or `done`, both of that read.
fn deed_of(alloc: Global, kind: &str) -> Result<Deed, NoAnswer> {
    match kind {
        "opened" => Ok(Deed::Opened { term: 3 }),
        "kept" => Ok(Deed::Kept),
        "refused" => Ok(Deed::Refused {
            change: ChangeId(Ballot { term: 3, seq: 9 }),
            call: read_call(alloc)?,
        }),
        "done" => Ok(Deed::Done {
            call: read_call(alloc)?,
            reply: Brief::Answer(Reply::Plain),
        }),
        _ => Err(NoAnswer),
    }
}

/// The entry `TICKET DEED NAME` at this word of a row, which completed the change 1-7 for an earlier one.
pub fn entry_of(alloc: Global, names: &Names, words: &str, place: usize) -> Result<Entry, NoAnswer>
    requires { place < 1000 }
{
    let ticket = count_of(word(words, place))?;
    let name = bytes(alloc, names, word(words, place + 2))?;
    let name = Text::from_slice(alloc, name.as_slice())?;
    let deed = deed_of(alloc, word(words, place + 1))?;
    Ok(Entry {
        ticket,
        late: Some(ChangeId(Ballot { term: 1, seq: 7 })),
        name,
        deed,
    })
}
