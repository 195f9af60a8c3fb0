// The records that wait for each term, in chains: by the term's number.
ghost use Rattle.std.specs.Prelude.{◌≡◌, replicate};
ghost use Rattle.base.specs.Code.{Chaining};
ghost use Rattle.submission.specs.Record.{terms};
ghost use Rattle.deduction.specs.declared.opening.Role.{Role};
ghost use Rattle.deduction.specs.Code.{linked};

use crate::opening::{Openings, Role};
use base::ByteChains;

// What opens the records, and those that wait for each term as the key that opens them.
#[derive(Clone, Copy)]
pub struct KeyChains<'a> {
    pub openings: &'a Openings<'a>,
    pub keys: &'a ByteChains,
    pub ghost keys_chained: { Chaining (linked openings.now.table.bytes.now Role.Key) (terms openings.now.table.bytes.now) keys.now.before keys.now.latest },
}

// The same, and the records that wait for each term as the first or the second part that they are built from.
#[derive(Clone, Copy)]
pub struct PartChains<'a> {
    pub keys: &'a KeyChains<'a>,
    pub firsts: &'a ByteChains,
    pub seconds: &'a ByteChains,
    pub ghost firsts_chained: { Chaining (linked keys.now.openings.now.table.bytes.now Role.First) (terms keys.now.openings.now.table.bytes.now) firsts.now.before firsts.now.latest },
    pub ghost seconds_chained: { Chaining (linked keys.now.openings.now.table.bytes.now Role.Second) (terms keys.now.openings.now.table.bytes.now) seconds.now.before seconds.now.latest },
}

// Chains the records that wait in this role, by the term that they wait for.
pub fn chain_records(openings: &Openings, role: Role, chains: &mut ByteChains)
    requires before { chains.old.before ≡ replicate 256 255 }
    requires latest { chains.old.latest ≡ replicate 256 255 }
    ensures { Chaining (linked openings.now.table.bytes.now role) (terms openings.now.table.bytes.now) chains.new.before chains.new.latest }
{
    let n = openings.table.terms();
    for i in 0..n {
        let Some(clause) = openings.clause_of(role, i) else {
            continue;
        };
        chains.chain(clause.term, i);
    }
}
