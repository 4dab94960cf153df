//! Rows over the drives and over what bytes come from and go to: `drive_base`, `drive_memory`, `drive_file`, `file_access`
//! and `io_base`.
//!
//! A row is `CRATE CALL WORDS = ANSWER`. The program does the call with the words, and prints the row with what it
//! answered, so that `stdout` is `stdin` again where each answer is the one that the row wants. A row is one step: what
//! it leaves, the next one finds.
#![tactic(auto)]

mod access_rows;
mod base_rows;
mod door_rows;
mod faulty;
mod folder_rows;
mod liar;
mod memory_rows;
mod outside;
mod scripted_rows;
mod shared_rows;
mod steps;
mod stream_rows;
mod tcp_rows;

use door_rows::Doors;
use drive_memory::{MemDrive, Script, ScriptedDrive, Voice};
use folder_rows::Folders;
use liar::Liar;
use shared_rows::Ways;
use std::alloc::Global;
use std::io;
use std::sync::Wait;
use stream_rows::Streams;
use tcp_rows::TcpDoors;
use trial_base::{Names, NoAnswer, Rows, first, number, print_rows, said};

/// The drives that rows are about.
#[derive(Drop)]
struct Drives<R> {
    memory: MemDrive,
    scripted: ScriptedDrive,
    liar: Liar,
    folders: Folders,
    ways: Ways<R>,
    streams: Streams,
    doors: Doors,
    tcp: TcpDoors,
}

impl<R: Wait + Copy + Drop> Rows for Drives<R> {
    fn answer(&mut self, alloc: Global, names: &Names, asked: &str) -> Result<String, NoAnswer> {
        let (crate_name, words) = first(asked);
        match crate_name {
            "drive_memory" => match words.strip_prefix("scripted ") {
                Some(words) => scripted_rows::answer(alloc, names, &mut self.scripted, words),
                None => memory_rows::answer(alloc, names, &mut self.memory, words),
            },
            "drive_base" => base_rows::answer(alloc, names, &mut self.liar, words),
            "file_access" => access_rows::answer(alloc, names, &mut self.memory, words),
            "drive_file" => match words.strip_prefix("ways ") {
                Some(words) => self.ways.answer(alloc, names, &mut self.memory, words),
                None => self.folders.answer(alloc, names, words),
            },
            "io_base" => {
                let (call, rest) = first(words);
                match call {
                    "door" => self.doors.door(alloc, names, rest),
                    "works" => self.doors.works(alloc, number(rest)),
                    "tcp" => self.tcp.answer(alloc, rest),
                    _ => self.streams.answer(alloc, names, words),
                }
            }
            _ => said(alloc, "no such crate"),
        }
    }
}

fn main(rt: HostRuntime) -> io::Result<()> {
    let alloc = rt.alloc();
    let (Ok(streams), Ok(doors), Ok(mut ways)) = (
        Streams::new(rt),
        Doors::new(alloc, &rt),
        Ways::new(rt, alloc),
    ) else {
        return println!(rt; "no memory");
    };
    ways.append_by_two();
    let mut drives = Drives {
        memory: MemDrive::new(alloc),
        scripted: ScriptedDrive::new(alloc, Voice::Silent, Script::Pass),
        liar: Liar::new(),
        folders: Folders::new(rt),
        ways,
        streams,
        doors,
        tcp: TcpDoors::new(rt),
    };
    print_rows(rt, &mut drives)
}
