// A table of cumulative sums over a list of cells. The function that another crate can reach takes every input.

mod rows;

ghost use Rattle.boxes.specs.Tables.{Tried};

// Fills a table of 66 × 66 numbers with the sums over the first cells of the first minute strips; lists of other lengths stay as they are.
pub(crate) fn accumulate(cells: &[u32], table: &mut [u64])
    ensures { Tried cells.now table.old table.new }
{
    if let Some(cells) = cells.as_array()
        && let Some(table) = table.as_mut_array()
    {
        rows::put_table_rows(cells, table);
    }
}
