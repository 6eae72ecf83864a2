// The link table of a store.
use link_table::LinkTable;
use std::marker::Model;

// The link table of a store, with the calls of the store as its methods. List and records are lent to the
// calls that look at them.
#[derive(Drop)]
pub struct RelationTable {
    pub(super) links: LinkTable,
}

// Its value is the link table.
impl Model for RelationTable {
    ghost use Rattle.link_table.specs.declared.table.LinkTable.{LinkTable as Table};

    ghost Value = { Table };

    ghost view = { λ t. t.links };
}
