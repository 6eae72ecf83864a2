// Linking a triple of word numbers.
ghost use Rattle.std.specs.Prelude.{◌≡◌, ◌-◌, ◌≤◌, slice_set};
ghost use Rattle.store.specs.Links.{Joins};

use super::table::RelationTable;
use history::Link;
use link_table::Triple;
use record::Record;
use refusal::Refusal;

// Writes the record of a link number, where the array reaches it.
pub(super) fn write_record<R: Record>(records: &mut [R], link: u32, record: R)
    requires { 1 ≤ link }
    ensures { records.new ≡ slice_set records.old (link - 1) «record» }
{
    let place = link as usize - 1;
    if place < records.len() {
        records[place] = record;
    }
}

impl RelationTable {
    // Enters a triple with a new link number and its record. Refused, in this order: the triple is
    // present, all numbers are held, its code has no place.
    pub(super) fn join<R: Record>(
        &mut self,
        records: &mut [R],
        triple: Triple,
        record: R,
    ) -> Result<Link, Refusal>
        ensures { Joins self.old records.old triple «record» result self.new records.new }
    {
        let number = self.links.put(triple)?;
        write_record(records, number, record);
        Ok(Link {
            x: triple.x,
            y: triple.y,
            number,
        })
    }
}
