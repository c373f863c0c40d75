ghost use Rattle.std.specs.Prelude.{◌≡◌, ◌++◌, OnOk, codes, decimal, flat_map, length};
ghost use Rattle.gr_report.specs.Queries.{row_text};
ghost use Rattle.gr_durable.specs.Texts.{table_text, tables_text};

use crate::table::{Table, TableList};
use gr_history::Row;
use gr_report::{put_number, put_text};
use gr_value::{Key, Memory};
use std::alloc::Global;

fn put_key(out: &mut Vec<u8>, key: &Key) -> Result<(), Memory>
    ensures { OnOk result (out.new.items ≡ out.old.items ++ key.now) }
{
    out.extend_from_slice(key.bytes())?;
    Ok(())
}

#[tactic(auto, unfolding(gr_report::specs::Queries::row_text))]
fn put_row(alloc: Global, out: &mut Vec<u8>, row: &Row) -> Result<(), Memory>
    ensures { OnOk result (out.new.items ≡ out.old.items ++ row_text row.now) }
{
    put_text(out, "\n ")?;
    put_key(out, &row.key)?;
    put_text(out, " ")?;
    row.value.print_to(alloc, out)
}

fn put_rows(alloc: Global, out: &mut Vec<u8>, rows: &[Row]) -> Result<(), Memory>
    ensures { OnOk result (out.new.items ≡ out.old.items ++ flat_map row_text rows.now) }
{
    for row in rows {
        put_row(alloc, out, row)?;
    }
    Ok(())
}

// The first line of a table.
fn put_head(out: &mut Vec<u8>, table: &Table) -> Result<(), Memory>
    ensures { OnOk result (out.new.items
        ≡ out.old.items ++ codes "table " ++ decimal table.now.client ++ codes " " ++ table.now.name ++ codes " rows "
        ++ decimal (length table.now.rows)) }
{
    put_text(out, "table ")?;
    put_number(out, u128::from(table.client))?;
    put_text(out, " ")?;
    put_key(out, &table.name)?;
    put_text(out, " rows ")?;
    put_number(out, table.rows.len() as u128)
}

fn put_table(alloc: Global, out: &mut Vec<u8>, table: &Table) -> Result<(), Memory>
    ensures { OnOk result (out.new.items ≡ out.old.items ++ table_text table.now) }
{
    put_head(out, table)?;
    put_rows(alloc, out, table.rows())?;
    put_text(out, "\n")
}

/// Puts the text of tables last.
pub fn print_tables(alloc: Global, tables: &TableList, out: &mut Vec<u8>) -> Result<(), Memory>
    ensures { OnOk result (out.new.items ≡ out.old.items ++ tables_text tables.now) }
{
    put_text(out, "tables\n")?;
    for table in tables.as_slice() {
        put_table(alloc, out, table)?;
    }
    Ok(())
}
