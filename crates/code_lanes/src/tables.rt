//! The tables by which products are looked up.

ghost use Rattle.std.specs.Prelude.{◌≤◌, length};
ghost use Rattle.code_lanes.specs.Sums.{IsTotal};
ghost use Rattle.code_lanes.specs.Tables.{AreSumTables, AreTables, IsTable};

use gf256::mul;

/// The table of an element.
pub(crate) fn table_of(element: u8) -> [u8; 32]
    ensures { IsTable element result }
{
    let mut table = [0; 32];
    for n in 0..16u8 {
        table[n as usize] = mul(element, n);
        table[16 + n as usize] = mul(element, 16 * n);
    }
    table
}

/// The tables of up to 16 weights. The rest of them says nothing.
pub(crate) fn tables_of(weights: &[u8]) -> [[u8; 32]; 16]
    requires { length weights.now ≤ 16 }
    ensures { AreTables weights.now result }
{
    let mut tables = [[0; 32]; 16];
    for index in 0..weights.len() {
        tables[index] = table_of(weights[index]);
    }
    tables
}

/// What a sum over blocks needs of its weights: the sum of these with its table, and a table for each.
#[derive(Drop)]
pub(crate) struct SumTables {
    pub(crate) total: u8,
    pub(crate) whole: [u8; 32],
    pub(crate) each: [[u8; 32]; 16],
}

pub(crate) fn sum_tables_of(weights: &[u8]) -> SumTables
    requires { length weights.now ≤ 16 }
    ensures { AreSumTables weights.now result.total result.whole result.each }
{
    let total = total_of(weights);
    SumTables {
        total,
        whole: table_of(total),
        each: tables_of(weights),
    }
}

/// The sum of the weights.
fn total_of(weights: &[u8]) -> u8
    ensures { IsTotal weights.now result }
{
    let mut total = 0;
    for weight in weights {
        total ^= *weight;
    }
    total
}
