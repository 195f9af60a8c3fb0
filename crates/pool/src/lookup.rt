// A table whose records are chained, for finding the one that equals a given record.
ghost use Rattle.submission.specs.Record.{terms};
ghost use Rattle.submission.specs.Code.{RecordsChained, RecordFound};

use submission::{RecordChains, Table, Term};

// Chains all records of a table.
pub fn chain_records(table: Table, chains: &mut RecordChains)
    requires { RecordsChained table.bytes.now 0 chains.old }
    ensures { RecordsChained table.entry.bytes.now (terms table.entry.bytes.now) chains.new }
{
    for i in 0..table.terms() {
        chains.add(table.term(i), i);
    }
}

#[derive(Clone, Copy)]
pub struct Lookup<'a> {
    pub table: Table<'a>,
    pub chains: &'a RecordChains,
    pub ghost chained: { RecordsChained table.bytes.now (terms table.bytes.now) chains.now },
}

impl Lookup<'_> {
    // The number of the record that equals t, where there is one.
    pub fn find(self, t: Term) -> Option<u8>
        ensures { RecordFound self.entry.table.bytes.now (terms self.entry.table.bytes.now) t result }
    {
        self.chains.find(self.table.bytes, t)
    }
}
