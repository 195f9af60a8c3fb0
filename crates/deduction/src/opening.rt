// The parts that a term is built from, what opens a record, and what waits for a term.
ghost use Rattle.std.specs.Prelude.{◌≡◌, ◌<◌};
ghost use Rattle.submission.specs.Record.{terms, record_at};
ghost use Rattle.inverse.specs.Code.{Inverses};
ghost use Rattle.deduction.specs.Code.{parts_of, opening_of, key_clause, clause_of};

use submission::Table;
use term::Kind;

// The two parts that term t is built from: an atom has none.
#[tactic(auto, using(crate::proofs::BuildMemo::parts_nothing, crate::proofs::BuildMemo::parts_both))]
pub fn parts_of(table: Table, t: u8) -> Option<(u8, u8)>
    requires { t < terms table.bytes.now }
    ensures { result ≡ parts_of (record_at table.entry.bytes.now t) }
{
    let term = table.term(t);
    if term.is_atom() {
        return None;
    }
    Some((term.x, term.second_part()))
}

// What opens a record: a pair gives both parts freely, an encryption its body where the key can be built.
#[derive(Clone, Copy, PartialEq, Eq)]
pub enum Opening {
    Freely { x: u8, y: u8 },
    With { body: u8, key: u8 },
}

// As what a record waits for a term: as the key that opens it, or as its first or its second part, to be built from.
// A choice and no closure: it is data, the column of a record's clauses, and the facts that the chains and the firing keep are about one role.
#[derive(Clone, Copy, PartialEq, Eq)]
pub enum Role {
    Key,
    First,
    Second,
}

// Where `term` and `other` are had, `result` is.
#[derive(Clone, Copy, PartialEq, Eq)]
pub struct Clause {
    pub term: u8,
    pub other: u8,
    pub result: u8,
}

// The table with the number of each term's inverse, where one is listed.
// Its functions ask for a number below T, each in a line: a value of number and table would be made at each number read, and ask the same there.
#[derive(Clone, Copy)]
pub struct Openings<'a> {
    pub table: Table<'a>,
    pub inverses: &'a [Option<u8>; 256],
    pub ghost found: { Inverses table.bytes.now inverses.now },
}

impl<'a> Openings<'a> {
    // The inverses are found in the array that is lent.
    pub fn of(table: Table<'a>, inverses: &'a mut [Option<u8>; 256]) -> Self
        ensures { result.table.bytes.now ≡ table.entry.bytes.now }
    {
        inverse::find(table, inverses);
        Openings { table, inverses }
    }

    // None for a record of another kind, and for an asymmetric encryption whose key has no inverse listed.
    #[tactic(auto, using(crate::proofs::RecordOpening::opens_none, crate::proofs::RecordOpening::opens_freely, crate::proofs::RecordOpening::opens_symmetric, crate::proofs::RecordOpening::opens_asymmetric, crate::proofs::RecordOpening::opens_unlisted))]
    pub fn opening_of(&self, t: u8) -> Option<Opening>
        requires { t < terms self.now.table.bytes.now }
        ensures { result ≡ opening_of self.now.table.bytes.now t }
    {
        let term = self.table.term(t);
        match term.kind()? {
            Kind::Pair => Some(Opening::Freely {
                x: term.x,
                y: term.y,
            }),
            Kind::Enc => Some(Opening::With {
                body: term.x,
                key: term.y,
            }),
            Kind::Enca => {
                let key = self.inverses[usize::from(term.y)]?;
                Some(Opening::With { body: term.x, key })
            }
            _ => None,
        }
    }

    // An encryption and the key that opens it give its body.
    fn clause_of_key(&self, t: u8) -> Option<Clause>
        requires { t < terms self.now.table.bytes.now }
        ensures { result ≡ key_clause t (opening_of self.now.table.bytes.now t) }
    {
        let Some(Opening::With { body, key }) = self.opening_of(t) else {
            return None;
        };
        Some(Clause {
            term: key,
            other: t,
            result: body,
        })
    }

    // What record t gives, in its role. Its two parts give its own term.
    pub fn clause_of(&self, role: Role, t: u8) -> Option<Clause>
        requires { t < terms self.now.table.bytes.now }
        ensures { result ≡ clause_of self.now.table.bytes.now role t }
    {
        match role {
            Role::Key => self.clause_of_key(t),
            Role::First => {
                let (x, y) = parts_of(self.table, t)?;
                Some(Clause {
                    term: x,
                    other: y,
                    result: t,
                })
            }
            Role::Second => {
                let (x, y) = parts_of(self.table, t)?;
                Some(Clause {
                    term: y,
                    other: x,
                    result: t,
                })
            }
        }
    }
}
