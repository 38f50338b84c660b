// The table row by row: each is the one above and the running sum of its own cells. The table stays flat, 66 numbers a row: by rows of arrays
// each clause would name rows beside the flat numbers that it is about.
ghost use Rattle.std.specs.Prelude.{◌+◌, ◌<◌};
ghost use Rattle.boxes.specs.Tables.{RowsTo, Accumulated};

// The row without cells: zeros.
pub(crate) fn put_first_row(cells: &[u32; 4225], table: &mut [u64; 4356])
    ensures { RowsTo cells.now table.new 0 }
{
    table[..66].fill(0);
}

// Row a + 1 by row a and the cells of strip a.
#[tactic(auto, using(crate::proofs::CumulativeFilling::row_begins))]
pub(crate) fn put_table_row(cells: &[u32; 4225], a: usize, table: &mut [u64; 4356])
    requires above { RowsTo cells.now table.old a }
    requires more { a < 65 }
    ensures { RowsTo cells.now table.new (a + 1) }
{
    table[66 * (a + 1)] = 0;
    let mut row = 0;
    for b in 0..65 {
        row += cells[65 * a + b] as u64;
        table[66 * (a + 1) + b + 1] = table[66 * a + b + 1] + row;
    }
}

// All rows.
pub(crate) fn put_table_rows(cells: &[u32; 4225], table: &mut [u64; 4356])
    ensures { Accumulated cells.now table.new }
{
    put_first_row(cells, table);
    for a in 0..65 {
        put_table_row(cells, a, table);
    }
}
