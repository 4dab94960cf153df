//! What the program says on standard error of its words, its store and its address; what it says of refusals is in `serve_loop`.

ghost use Rattle.std.specs.Prelude.{◌≡◌, length};

use audit_trail::Audit;
use drive_base::Drive;
use io_base::TcpDoor;
use std::io::Eprint;
use std::rt::Clock;
use store_shared::PassParts;
use uuid::Uuid;

/// How the program is called.
const USAGE_TEXT: &str = "usage: ostore [OPTION..] COMMAND

commands:
  serve    opens the store, and serves S3 over TCP until a signal ends it
  pipe     opens the store, and serves one connection: standard input and output
  status   prints what each drive has for a format, as a line of JSON

options, each at most once, as --NAME VALUE or --NAME=VALUE:
  --root DIR         the folder that has the drives; without it they are in memory
  --drives N         how many drives the set has, 4 to 16; 4 without it
  --parity P         how many of them are parity, 1 to half of N;
                     without it 2 of 4 or 5 drives, 3 of 6 or 7, 4 of 8 to 16
  --set UUID         the id of the set; all zeros without it
  --listen ADDRESS   where serve listens; 127.0.0.1:9000 without it
  --workers N        how many connections serve has at once, 1 to 64; 16 without it
";

/// Says how the program is called.
pub fn tell_usage<R: Eprint>(rt: &R) {
    let _ = eprint!(rt; "{USAGE_TEXT}");
}

/// Says that what is stored ends with the process.
pub fn tell_in_memory<R: Eprint>(rt: &R) {
    let _ = eprintln!(rt; "ostore: no --root: the store is in memory, and ends with this process");
}

/// Says that a store was opened, under which term, and which of its drives are out. The first term is that of a store which was made now.
pub fn tell_opened<R: Eprint, D: Drive, A: Audit>(rt: &R, parts: &PassParts<D, A>)
    requires slots { length parts.now.slots.items ≡ 64 }
{
    let set = &parts.set;
    let id = Uuid::from_bytes(set.id);
    let term = parts.slots[0].term();
    if term == 1 {
        let _ = eprintln!(rt; "ostore: the drives were new, and are a new store now");
    }
    let _ = eprintln!(rt;
        "ostore: opened set {id}, term {term}, {} drives, parity {}",
        set.drives, set.parity
    );
    for index in 0..set.drives {
        if set.is_out(index) {
            let _ = eprintln!(rt; "ostore: drive {index} is out");
        }
    }
}

/// Says where a door listens, or that it can't.
pub fn tell_listening<R: Clock + Eprint + Copy + Send>(rt: &R, door: &TcpDoor<R>, listen: &str) {
    let _ = match door.local_addr() {
        Some(address) => eprintln!(rt; "ostore: listening on {address}"),
        None => eprintln!(rt; "ostore: can't listen on {listen}"),
    };
}

/// Says how many connections ended for want of memory, where some did.
pub fn tell_starved<R: Eprint>(rt: &R, starved: u64) {
    if starved == 0 {
        return;
    }
    let noun = if starved == 1 {
        "connection"
    } else {
        "connections"
    };
    let _ = eprintln!(rt; "ostore: {starved} {noun} ended for want of memory");
}
