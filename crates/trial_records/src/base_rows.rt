//! Rows over `fault_base`.

use fault_base::{NoMemory, count_after, count_laws};
use std::alloc::Global;
use trial_base::{NoAnswer, number, said, said_number, word};

pub fn answer(alloc: Global, row: &str) -> Result<String, NoAnswer> {
    match word(row, 0) {
        "count_after" => said_number(alloc, "", count_after(number(word(row, 1)))),
        "no_memory" => Ok(format!(in alloc; "{NoMemory}")?),
        "laws" => {
            count_laws();
            said(alloc, "done")
        }
        _ => said(alloc, "no such call"),
    }
}
