// How each listed term is reached from any marked terms: they are taken apart, and where a compound term is a key, built too.
ghost use Rattle.std.specs.Prelude.{◌≡◌, ◌<◌, ◌≤◌, replicate, None};
ghost use Rattle.base.specs.Computed.{any};
ghost use Rattle.base.specs.Code.{Chaining};
ghost use Rattle.submission.specs.Record.{terms};
ghost use Rattle.deduction.specs.Code.{Reached, linked, has_hash_key};
ghost use Rattle.deduction.specs.Saturation.{Holds, Turns, Queue, Ready, FiredOne, Fired, TakenApart, Grown, OpenTo, Composed, ComposedTo, Entered, Worked, BuiltOne, BuiltAll, AllReached};

use crate::chains::{KeyChains, PartChains, chain_records};
use crate::opening::{Opening, Openings, Role, parts_of};
use crate::worklist::{Origin, Worklist};
use base::ByteChains;
use submission::Table;
use term::Kind;

// Below, that u is a term and that it is reached stand in a line each: most goals need one alone, and a record of the two would be taken apart in each.

// What the clause of record t gives, in the role in which t waited for a term that is marked by now. It comes from record t: as its body, or as its
// own term.
fn fire_one(openings: &Openings, role: Role, work: &mut Worklist, t: u8)
    requires t_bound { t < terms openings.now.table.bytes.now }
    requires queue { Holds (Queue openings.now.table.bytes.now) work.old }
    requires ready { Ready openings.now.table.bytes.now role work.old.marks t }
    ensures { Turns (FiredOne openings.now.table.bytes.now role t) work.old work.new }
{
    let Some(clause) = openings.clause_of(role, t) else {
        return;
    };
    work.push_with(clause.result, Origin::Record(t), clause.other);
}

// What the clauses give of all records that wait for term u in this role. Its three arguments are no struct: that would need a further fact, which
// role it holds, since `open_all` is of `Role::Key` alone.
fn fire(openings: &Openings, role: Role, chains: &ByteChains, work: &mut Worklist, u: u8)
    requires chaining { Chaining (linked openings.now.table.bytes.now role) (terms openings.now.table.bytes.now) chains.now.before chains.now.latest }
    requires queue { Holds (Queue openings.now.table.bytes.now) work.old }
    requires u_bound { u < terms openings.now.table.bytes.now }
    requires reached { Reached work.old.marks u }
    ensures { Turns (Fired openings.now.table.bytes.now role u) work.old work.new }
{
    let mut next = chains.latest(u);
    // A loop: std's `successors` promises no end, and an iterator of our own would be a struct with a ghost field and laws of its `next`, for this walk
    // and that of `ByteChains::find`.
    while let Some(j) = next {
        fire_one(openings, role, work, j);
        next = chains.before(j);
    }
}

// What the marked record u gives: a pair both parts, an encryption its body, where the key is marked.
fn take_apart(openings: &Openings, work: &mut Worklist, u: u8)
    requires u_bound { u < terms openings.now.table.bytes.now }
    requires queue { Holds (Queue openings.now.table.bytes.now) work.old }
    requires reached { Reached work.old.marks u }
    ensures { Turns (TakenApart openings.now.table.bytes.now u) work.old work.new }
{
    let origin = Origin::Record(u);
    let Some(opening) = openings.opening_of(u) else {
        return;
    };
    match opening {
        Opening::Freely { x, y } => {
            work.push(x, origin);
            work.push(y, origin);
        }
        Opening::With { body, key } => work.push_with(body, origin, key),
    }
}

// The terms that `start` marks, where none is marked yet.
fn enter(table: Table, start: &[bool; 256], work: &mut Worklist)
    requires marks { work.old.marks ≡ replicate 256 None }
    requires end { work.old.end ≡ 0 }
    ensures queue { Holds (Queue table.entry.bytes.now) work.new }
    ensures entered { Entered table.entry.bytes.now start.now work.new.marks }
{
    let n = table.terms();
    // By number, as `push` and the contract name a term: a zip with `start` would give number and flag apart.
    for t in 0..n {
        if start[usize::from(t)] {
            work.push(t, Origin::Start);
        }
    }
}

// Whether record t is an encryption under a hash.
fn is_under_hash(s: &[u8], t: u8) -> bool
    ensures { result ≡ has_hash_key s.now t }
{
    let term = submission::term_at(s, t);
    if term.kind() != Some(Kind::Enc) {
        return false;
    }
    let key = submission::term_at(s, term.y);
    key.kind() == Some(Kind::Hash)
}

// Whether a compound term is the key of an encryption: a hash is, and nothing else.
pub fn has_compound_key(s: &[u8]) -> bool
    ensures { result ≡ any (has_hash_key s.now) (terms s.now) }
{
    (0..submission::terms(s)).any(|i| is_under_hash(s, i))
}

impl KeyChains<'_> {
    // Takes apart the terms of the order from `from` on, and those that this marks. Each is treated once, and so is each encryption that it
    // opens as a key.
    // `compose_all` has a loop of its own: the two keep different facts, which one function for both would take as parameters of its contract.
    fn open_all(&self, work: &mut Worklist, from: usize)
        requires queue { Holds (Queue self.now.openings.now.table.bytes.now) work.old }
        requires from_le_end { from ≤ work.old.end }
        requires open_to { OpenTo self.now.openings.now.table.bytes.now work.old.marks work.old.order from }
        ensures grown { Turns (Grown self.now.openings.now.table.bytes.now) work.old work.new }
        ensures open_to_2 { Holds (OpenTo self.now.openings.now.table.bytes.now) work.new }
    {
        let mut head = from;
        // The order grows while it is gone through, so no range gives it.
        while head < work.end {
            let u = work.order[head];
            take_apart(self.openings, work, u);
            fire(self.openings, Role::Key, self.keys, work, u);
            head += 1;
        }
    }

    // Builds terms of the parts that are marked, and takes apart what that opens. Each term is treated once, and so is each record that waits
    // for it as a part.
    fn compose_all(&self, work: &mut Worklist)
        requires queue { Holds (Queue self.now.openings.now.table.bytes.now) work.old }
        requires open_to { Holds (OpenTo self.now.openings.now.table.bytes.now) work.old }
        ensures grown { Turns (Grown self.now.openings.now.table.bytes.now) work.old work.new }
        ensures open_to_2 { Holds (OpenTo self.now.openings.now.table.bytes.now) work.new }
        ensures composed_to { Holds (ComposedTo self.now.openings.now.table.bytes.now) work.new }
    {
        let mut firsts = ByteChains::new();
        chain_records(self.openings, Role::First, &mut firsts);
        let mut seconds = ByteChains::new();
        chain_records(self.openings, Role::Second, &mut seconds);
        let parts = PartChains {
            keys: self,
            firsts: &firsts,
            seconds: &seconds,
        };
        let mut head = 0;
        // The order grows while it is gone through, so no range gives it.
        while head < work.end {
            let u = work.order[head];
            parts.compose(work, u);
            head += 1;
        }
    }
}

impl PartChains<'_> {
    // What is built of term u and of terms that are marked, and what taking that apart reaches.
    fn compose(&self, work: &mut Worklist, u: u8)
        requires queue { Holds (Queue self.now.keys.now.openings.now.table.bytes.now) work.old }
        requires open_to { Holds (OpenTo self.now.keys.now.openings.now.table.bytes.now) work.old }
        requires u_bound { u < terms self.now.keys.now.openings.now.table.bytes.now }
        requires reached { Reached work.old.marks u }
        ensures { Turns (Composed self.now.keys.now.openings.now.table.bytes.now u) work.old work.new }
    {
        let end = work.end;
        let openings = self.keys.openings;
        fire(openings, Role::First, self.firsts, work, u);
        fire(openings, Role::Second, self.seconds, work, u);
        self.keys.open_all(work, end);
    }
}

// ---- The working.

// Marks, from those of `start`, all terms that taking apart reaches; where a compound term is a key, those that can be built too. The terms that
// are deducible from those that `start` marks are those that can be built over the marks.
pub(crate) fn saturate(openings: &Openings, start: &[bool; 256], work: &mut Worklist)
    requires marks { work.old.marks ≡ replicate 256 None }
    requires end { work.old.end ≡ 0 }
    ensures { Holds (Worked openings.now.table.bytes.now start.now) work.new }
{
    let mut waiting = ByteChains::new();
    chain_records(openings, Role::Key, &mut waiting);
    let keys = KeyChains {
        openings,
        keys: &waiting,
    };
    enter(openings.table, start, work);
    keys.open_all(work, 0);
    if has_compound_key(openings.table.bytes) {
        keys.compose_all(work);
    }
}

// ---- Every term that can be built.

// Term t is built of its parts, where they are marked.
fn build_one(table: Table, work: &mut Worklist, t: u8)
    requires t_bound { t < terms table.bytes.now }
    requires queue { Holds (Queue table.bytes.now) work.old }
    ensures { Turns (BuiltOne table.entry.bytes.now t) work.old work.new }
{
    let Some((x, y)) = parts_of(table, t) else {
        return;
    };
    let mark = work.marks[usize::from(x)];
    if mark.is_none() {
        return;
    }
    work.push_with(t, Origin::Record(t), y);
}

// Every term that can be built is marked. Parts are earlier records, so one pass is enough.
fn build_all(table: Table, work: &mut Worklist)
    requires { Holds (Queue table.bytes.now) work.old }
    ensures { Turns (BuiltAll table.entry.bytes.now) work.old work.new }
{
    let n = table.terms();
    for i in 0..n {
        build_one(table, work, i);
    }
}

// Marks every listed term that is deducible from those that `start` marks, with how it was reached, and puts them in an order in which each
// comes after those that it was reached from.
pub fn reach_all(openings: &Openings, start: &[bool; 256], work: &mut Worklist)
    requires marks { work.old.marks ≡ replicate 256 None }
    requires end { work.old.end ≡ 0 }
    ensures { Holds (AllReached openings.now.table.bytes.now start.now) work.new }
{
    saturate(openings, start, work);
    build_all(openings.table, work);
}
