//! Rows of sections, one step word each.

use crate::home::Home;
use crate::lives::small_of;
use crate::outcomes::{say_fault, say_id, say_stub};
use crate::replies::{say_reply, say_version};
use crate::{Line, Store, deed_of, is_ready, key_of, mode_of, moment_of, pick_of, register_name};
use drive_memory::MemDrive;
use slot_core::{Flight, Pin, ReadStart, SlotFault, Stub, Turn};
use std::alloc::Global;
use std::collections::BTreeMap;
use trial_base::{NoAnswer, word};

/// `peek INDEX REGISTER`
fn peek(
    alloc: Global,
    home: &mut Home,
    disks: &mut [MemDrive],
    words: &str,
) -> Result<String, NoAnswer> {
    let name = register_name(alloc, word(words, 2))?;
    if !is_ready(home, disks) {
        return Err(NoAnswer);
    }
    let mut line = Line::new(alloc);
    let turn = home.slot.peek(alloc, disks, name.as_str());
    match &turn.answer {
        Ok(content) => line.say_bytes(content.as_slice()),
        Err(fault) => say_fault(&mut line, fault),
    }
    say_stub(&mut line, &turn.stub);
    drop(turn);
    line.into_answer()
}

/// `list INDEX MOST FROM`
fn list(
    alloc: Global,
    home: &mut Home,
    disks: &[MemDrive],
    words: &str,
) -> Result<String, NoAnswer> {
    let Ok(most) = word(words, 2).parse::<u32>() else {
        return Err(NoAnswer);
    };
    if !is_ready(home, disks) {
        return Err(NoAnswer);
    }
    let mut line = Line::new(alloc);
    let turn = home.slot.list_names(alloc, word(words, 3), most);
    match &turn.answer {
        Ok(names) => {
            line.say_number(names.len() as u64);
            for name in names.as_slice() {
                line.say(" ");
                line.say(name.as_str());
            }
        }
        Err(fault) => say_fault(&mut line, fault),
    }
    say_stub(&mut line, &turn.stub);
    drop(turn);
    line.into_answer()
}

/// Begins a read, says what it finds, and gives the pin of its data.
fn find(
    alloc: Global,
    home: &mut Home,
    disks: &mut [MemDrive],
    line: &mut Line,
    words: &str,
) -> Result<Option<Pin>, NoAnswer> {
    let at = key_of(alloc, word(words, 3))?;
    let mode = mode_of(word(words, 4))?;
    let pick = pick_of(word(words, 5))?;
    if !is_ready(home, disks) {
        return Err(NoAnswer);
    }
    let Turn { answer, stub } = home.slot.begin_read(alloc, disks, &at, mode, &pick);
    let pin = match answer {
        Ok(start) => {
            let ReadStart { version, pin } = start;
            say_version(line, &version);
            drop(version);
            Some(pin)
        }
        Err(fault) => {
            say_fault(line, &fault);
            None
        }
    };
    say_stub(line, &stub);
    drop(stub);
    Ok(pin)
}

/// `read INDEX PIN BUCKET/KEY MODE PICK`: the pin of what it finds is kept under its name.
fn read(
    alloc: Global,
    home: &mut Home,
    disks: &mut [MemDrive],
    pins: &mut BTreeMap<String, Pin>,
    words: &str,
) -> Result<String, NoAnswer> {
    let name = String::from_str(alloc, word(words, 2))?;
    let mut line = Line::new(alloc);
    if let Some(pin) = find(alloc, home, disks, &mut line, words)? {
        pins.insert(name, pin)?;
    }
    line.into_answer()
}

/// `end INDEX PIN`
fn end(
    alloc: Global,
    home: &mut Home,
    disks: &[MemDrive],
    pins: &mut BTreeMap<String, Pin>,
    words: &str,
) -> Result<String, NoAnswer> {
    let Some(pin) = pins.remove(word(words, 2)) else {
        return Err(NoAnswer);
    };
    if !is_ready(home, disks) {
        return Err(NoAnswer);
    }
    let mut line = Line::new(alloc);
    let turn = home.slot.end_read(pin);
    say_done(&mut line, &turn);
    drop(turn);
    line.into_answer()
}

/// What a section gives that answers nothing.
fn say_done(line: &mut Line, turn: &Turn<()>) {
    match &turn.answer {
        Ok(()) => line.say("done"),
        Err(fault) => say_fault(line, fault),
    }
    say_stub(line, &turn.stub);
}

/// `begin INDEX FLIGHT BUCKET/KEY`: the flight is kept under its name.
fn begin(
    alloc: Global,
    home: &mut Home,
    disks: &[MemDrive],
    flights: &mut BTreeMap<String, Flight>,
    words: &str,
) -> Result<String, NoAnswer> {
    let name = String::from_str(alloc, word(words, 2))?;
    let at = key_of(alloc, word(words, 3))?;
    if !is_ready(home, disks) {
        return Err(NoAnswer);
    }
    let mut line = Line::new(alloc);
    let Turn { answer, stub } = home.slot.begin_put(alloc, &at);
    say_begun(&mut line, &answer, &stub);
    drop(stub);
    if let Ok(flight) = answer {
        flights.insert(name, flight)?;
    }
    line.into_answer()
}

/// What the begin of a put gives.
fn say_begun(line: &mut Line, answer: &Result<Flight, SlotFault>, stub: &Option<Stub>) {
    match answer {
        Ok(flight) => say_id(line, flight.id()),
        Err(fault) => say_fault(line, fault),
    }
    say_stub(line, stub);
}

/// `drop INDEX FLIGHT`
fn give_up(
    alloc: Global,
    home: &mut Home,
    disks: &[MemDrive],
    flights: &mut BTreeMap<String, Flight>,
    words: &str,
) -> Result<String, NoAnswer> {
    let Some(flight) = flights.remove(word(words, 2)) else {
        return Err(NoAnswer);
    };
    if !is_ready(home, disks) {
        return Err(NoAnswer);
    }
    let mut line = Line::new(alloc);
    let turn = home.slot.drop_put(flight);
    say_done(&mut line, &turn);
    drop(turn);
    line.into_answer()
}

/// `commit INDEX FLIGHT NOW DEED`, where the flight is `none` but for a put.
fn commit(
    alloc: Global,
    home: &mut Home,
    disks: &mut [MemDrive],
    flights: &mut BTreeMap<String, Flight>,
    words: &str,
) -> Result<String, NoAnswer> {
    let flight = flights.remove(word(words, 2));
    let now = moment_of(word(words, 3))?;
    if !is_ready(home, disks) {
        return Err(NoAnswer);
    }
    let mut line = Line::new(alloc);
    let deed = deed_of(alloc, &flight, words)?;
    let turn = home.slot.commit(alloc, disks, &deed, flight, now);
    drop(deed);
    match &turn.answer {
        Ok(made) => say_reply(&mut line, &made.done),
        Err(fault) => say_fault(&mut line, fault),
    }
    say_stub(&mut line, &turn.stub);
    drop(turn);
    line.into_answer()
}

/// `trash INDEX MOST`
fn take_trash(
    alloc: Global,
    home: &mut Home,
    disks: &[MemDrive],
    words: &str,
) -> Result<String, NoAnswer> {
    let Ok(most) = word(words, 2).parse::<u32>() else {
        return Err(NoAnswer);
    };
    if !is_ready(home, disks) {
        return Err(NoAnswer);
    }
    let mut line = Line::new(alloc);
    let turn = home.slot.take_trash(alloc, most);
    match &turn.answer {
        Ok(ids) => {
            line.say_number(ids.len() as u64);
            for id in ids.as_slice() {
                line.say(" ");
                say_id(&mut line, *id);
            }
        }
        Err(fault) => say_fault(&mut line, fault),
    }
    say_stub(&mut line, &turn.stub);
    drop(turn);
    line.into_answer()
}

impl Store {
    /// What a row is answered that is a section of a slot: `STEP INDEX ..`
    pub(crate) fn section(
        &mut self,
        alloc: Global,
        step: &str,
        words: &str,
    ) -> Result<String, NoAnswer> {
        let Some(place) = self.place_of(small_of(word(words, 1))?) else {
            return Err(NoAnswer);
        };
        let home = &mut self.homes[place];
        let disks = self.disks.as_mut_slice();
        match step {
            "peek" => peek(alloc, home, disks, words),
            "list" => list(alloc, home, disks, words),
            "read" => read(alloc, home, disks, &mut self.pins, words),
            "end" => end(alloc, home, disks, &mut self.pins, words),
            "begin" => begin(alloc, home, disks, &mut self.flights, words),
            "drop" => give_up(alloc, home, disks, &mut self.flights, words),
            "commit" => commit(alloc, home, disks, &mut self.flights, words),
            "trash" => take_trash(alloc, home, disks, words),
            _ => Err(NoAnswer),
        }
    }
}
