//! What stays the same while a message is read.

ghost use Rattle.std.proofs.Props.{props};
ghost use Rattle.pb_json_read.specs.NameTables.{AreFieldTables, AreValueTables};

use crate::rules::JsonRules;
use crate::tables::Tables;
use pb_json::JsonNames;
use pb_schema::Pool;
use std::alloc::Global;

/// The types of a message, the names that their fields are given, tables of these, and what is
/// read beyond what a strict reader takes.
#[derive(Clone, Copy)]
pub(crate) struct Context<'a> {
    pub alloc: Global,
    pub pool: &'a Pool,
    pub names: &'a JsonNames,
    pub tables: &'a Tables,
    pub rules: JsonRules,
    ghost fields_known: { AreFieldTables pool.now names.now tables.now.fields } by { Prim.hlevel props },
    ghost values_known: { AreValueTables pool.now tables.now.values } by { Prim.hlevel props },
}
