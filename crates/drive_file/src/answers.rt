//! What the system's answers are to a drive over a folder: which of its errors is which fault, and how much a read fills.

ghost use Rattle.std.specs.Prelude.{◌≡◌, ◌≤◌, IfOk, length};
ghost use Rattle.drive_file.specs.System.{fault_of, told};

use drive_base::DriveFault;
use std::io::{self, ErrorKind, Read, Seek, SeekFrom};

/// What a call of the system told a drive: its value, or the fault that its error stands for.
pub(crate) fn told<T>(answer: io::Result<T>) -> Result<T, DriveFault>
    ensures { result ≡ told answer }
{
    match answer {
        Ok(value) => Ok(value),
        Err(error) => match error.kind() {
            ErrorKind::NotFound => Err(DriveFault::Absent),
            ErrorKind::OutOfMemory => Err(DriveFault::NoMemory),
            _ => Err(DriveFault::Failed),
        },
    }
}

/// Reads a file from a place on, until the buffer is full or the file ends. A place that the system can't seek is past every end.
pub(crate) fn read_at<F: Read + Seek>(file: &mut F, at: u64, into: &mut [u8]) -> io::Result<usize>
    ensures { IfOk result (λ n. n ≤ length into.old) }
{
    match file.seek(SeekFrom::Start(at)) {
        Ok(_) => fill(file, into),
        Err(error) if error.kind() == ErrorKind::InvalidInput => Ok(0),
        Err(error) => Err(error),
    }
}

/// Reads until the buffer is full or the file ends. A read that a signal interrupts is tried again.
fn fill<F: Read>(file: &mut F, into: &mut [u8]) -> io::Result<usize>
    ensures { IfOk result (λ n. n ≤ length into.old) }
{
    let mut count = 0;
    for _ in 0..u64::MAX {
        if count == into.len() {
            return Ok(count);
        }
        let got = match file.read(&mut into[count..]) {
            Ok(got) => got,
            Err(error) if error.kind() == ErrorKind::Interrupted => continue,
            Err(error) => return Err(error),
        };
        if got == 0 {
            return Ok(count);
        }
        count += got;
    }
    Ok(count)
}
