// Rows of passes, made of the passes of each host, and cut into them again.
ghost use Rattle.std.specs.Prelude.{◌≡◌, [], length, IfOk, OnOk};
ghost use Rattle.dc_host.specs.Hosts.{rows_of, new_rows, widened, IsColumnOf, HasRow};

use dc_centre::Centre;
use host_lock::Pass;
use ids_core::NoMemory;
use std::alloc::Global;

/// The first pass of each row, and what is left of the rows.
#[derive(Drop)]
pub struct Column {
    pub first: Vec<Pass<Centre>>,
    pub rest: Vec<Vec<Pass<Centre>>>,
}

// One row more.
fn add_row(column: &mut Column, mut row: Vec<Pass<Centre>>) -> Result<(), NoMemory>
    ensures { OnOk result (HasRow column.old row.items column.new) }
{
    if !row.is_empty() {
        let pass = row.remove(0);
        column.first.push(pass)?;
    }
    column.rest.push(row)?;
    Ok(())
}

/// Cuts the first pass off each row.
pub fn cut(alloc: Global, rows: Vec<Vec<Pass<Centre>>>) -> Result<Column, NoMemory>
    ensures { IfOk result (λ c. IsColumnOf (rows_of rows.items) c) }
{
    let mut column = Column {
        first: Vec::new(alloc),
        rest: Vec::new(alloc),
    };
    'rows: for row in rows {
        add_row(&mut column, row)?;
    }
    Ok(column)
}

/// A row without a pass for each of so many callers, with room for so many passes.
pub fn empty_rows(
    alloc: Global,
    callers: u32,
    width: usize,
) -> Result<Vec<Vec<Pass<Centre>>>, NoMemory>
    ensures { IfOk result (λ rows. rows_of rows.items ≡ new_rows [] 1 callers) }
{
    let mut rows = Vec::with_capacity(alloc, callers as usize)?;
    'callers: for _caller in 0..callers {
        rows.push(Vec::with_capacity(alloc, width)?)?;
    }
    Ok(rows)
}

/// Puts a pass of a column behind each row, in order.
pub fn add_column(
    rows: &mut Vec<Vec<Pass<Centre>>>,
    column: Vec<Pass<Centre>>,
) -> Result<(), NoMemory>
    requires { length column.items ≡ length rows.old.items }
    ensures { OnOk result (rows_of rows.new.items ≡ widened (rows_of rows.old.items) column.items) }
{
    let mut place = 0;
    'passes: for pass in column {
        let row = &mut rows[place];
        row.push(pass)?;
        place += 1;
    }
    Ok(())
}
