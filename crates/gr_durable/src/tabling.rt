ghost use Rattle.std.specs.Prelude.{◌≡◌, ◌++◌, IfOk, OnOk, map};
ghost use Rattle.gr_durable.specs.Tables.{names_held, shards_of, table_of, tables_by, tables_held, tables_of};

use crate::gathered::rows_over;
use crate::held::{Held, held_by_all};
use crate::table::{Table, TableList};
use gr_history::{ClientRecord, MemberRecord, Record, ShardRecord};
use gr_value::{Copied, Key, KeyList, Memory};
use std::alloc::Global;

// The shards of a member.
fn shards_of(members: &[MemberRecord], member: u8) -> &[ShardRecord]
    ensures { result.now ≡ shards_of member members.now }
{
    for one in members {
        if one.member == member {
            return one.shards.as_slice();
        }
    }
    &[]
}

// The names of the queries that are open, in order.
fn names_held(alloc: Global, all: &[Held]) -> Result<KeyList, Memory>
    ensures { IfOk result (λ names. names ≡ names_held all.now) }
{
    match all.first() {
        None => Ok(KeyList::new(alloc)?),
        Some(first) => Ok(first.keys(alloc)?),
    }
}

fn table_of(alloc: Global, client: u8, all: &[Held], name: &Key) -> Result<Table, Memory>
    ensures { IfOk result (λ table. table ≡ table_of client all.now name.now) }
{
    Ok(Table {
        client,
        name: name.copy(alloc)?,
        rows: rows_over(alloc, all, name)?,
    })
}

// Puts the tables of one client last.
fn add_tables(alloc: Global, tables: &mut TableList, client: u8, all: &[Held]) -> Result<(), Memory>
    ensures { OnOk result (tables.new ≡ tables.old ++ tables_held client all.now) }
{
    let names = names_held(alloc, all)?;
    for name in names.as_slice() {
        tables.push(table_of(alloc, client, all, name)?)?;
    }
    Ok(())
}

fn add_client(
    alloc: Global,
    tables: &mut TableList,
    members: &[MemberRecord],
    client: &ClientRecord,
) -> Result<(), Memory>
    ensures { OnOk result (tables.new ≡ tables.old ++ tables_by members.now client.now) }
{
    let all = held_by_all(alloc, client.client, shards_of(members, client.member))?;
    add_tables(alloc, tables, client.client, all.as_slice())
}

/// The tables that clients hold by the histories of a record: one of each query that a client has open,
/// clients in the order of the record and names in order.
pub fn tables(alloc: Global, record_of: &Record) -> Result<TableList, Memory>
    ensures { IfOk result (λ tables. tables ≡ tables_of record_of.now) }
{
    let mut tables = TableList::new(alloc)?;
    for client in record_of.clients.as_slice() {
        add_client(alloc, &mut tables, record_of.members.as_slice(), client)?;
    }
    Ok(tables)
}
