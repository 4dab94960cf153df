//! Counts of faults, by the answers of calls.

ghost use Rattle.drive_file.specs.Faults.{FaultsAfter};

use drive_base::DriveFault;
use fault_base::count_after;

/// The count of faults after one more call, which answered so.
pub(crate) fn faults_after<T>(faults: u64, answer: &Result<T, DriveFault>) -> u64
    ensures { FaultsAfter answer.now faults result }
{
    match answer {
        Err(DriveFault::Failed) => count_after(faults),
        _ => faults,
    }
}
