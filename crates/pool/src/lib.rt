// Two submissions joined, as by two eavesdroppers who share what they heard: document 02, A8.
// Promises: the call is total, for all bytes, and its answer and the page's later bytes are what the definitions of specs/ give.
// Cost: one pass over the terms of each. A record of the second is compared with those of the first that are in its chains, and with nothing else.
#![tactic(auto)]

ghost use Rattle.std.specs.Prelude.{◌≡◌, ◌≤◌, ◌<◌, ◌+◌, ◌++◌, IfOk, take, cond, length, []};
ghost use Rattle.base.specs.Code.{check_of, Wrote};
ghost use Rattle.submission.specs.Record.{terms as term_count, entries as entry_count};
ghost use Rattle.submission.specs.Body.{body_at};
ghost use Rattle.pool.specs.Pool.{is_missing, renumbered, new_entries};
ghost use Rattle.pool.specs.Code.{terms_to, missing_records, entries_to, check_most, Noted};
ghost use Rattle.pool.specs.Calls.{PoolWritten};

mod lookup;
mod numbers;

use base::{Fault, Refusal, Writer};
use form::Bodies;
use lookup::Lookup;
use numbers::Numbers;
use submission::{RecordChains, Submission, Table};

// The bytes of the most terms, and of the most entries of the knowledge.
const TERMS_SIZE: usize = 750;

const KNOWLEDGE_SIZE: usize = 64;

// ---- The pool's terms.

// Notes the pool's number of the second's term j, and puts its record where the first lacks it.
fn put_term(
    first: Lookup,
    second: Table,
    j: u8,
    numbers: &mut Numbers,
    page: &mut Writer,
) -> Result<(), Refusal>
    requires bound { j < term_count second.bytes.now }
    requires numbers { Noted first.table.bytes.now second.bytes.now j numbers.old }
    ensures answer { check_of result ≡ check_most 0 (terms_to first.entry.table.bytes.now second.entry.bytes.now (j + 1)) }
    ensures numbers { IfOk result (λ u. Noted first.entry.table.bytes.now second.entry.bytes.now (j + 1) numbers.new) }
    ensures same { page.new.buffer.ghost_name ≡ page.old.buffer.ghost_name }
    ensures page { IfOk result (λ u. Wrote page.old (cond (is_missing first.entry.table.bytes.now second.entry.bytes.now j) (renumbered first.entry.table.bytes.now second.entry.bytes.now j) []) page.new) }
{
    let t = numbers.renumbered(second.term(j));
    if let Some(n) = first.find(t) {
        numbers.of[usize::from(j)] = n;
        return Ok(());
    }
    numbers.add(j)?;
    page.put_array([t.kind, t.x, t.y]);
    Ok(())
}

// Puts the second's terms that the first lacks, renumbered.
fn put_missing(
    first: Lookup,
    second: Table,
    numbers: &mut Numbers,
    page: &mut Writer,
) -> Result<(), Refusal>
    requires { Noted first.table.bytes.now second.bytes.now 0 numbers.old }
    ensures answer { check_of result ≡ check_most 0 (terms_to first.entry.table.bytes.now second.entry.bytes.now (term_count second.entry.bytes.now)) }
    ensures numbers { IfOk result (λ u. Noted first.entry.table.bytes.now second.entry.bytes.now (term_count second.entry.bytes.now) numbers.new) }
    ensures same { page.new.buffer.ghost_name ≡ page.old.buffer.ghost_name }
    ensures page { IfOk result (λ u. Wrote page.old (missing_records first.entry.table.bytes.now second.entry.bytes.now (term_count second.entry.bytes.now)) page.new) }
{
    for j in 0..second.terms() {
        put_term(first, second, j, numbers, page)?;
    }
    Ok(())
}

// Fills the buffer with the pool's terms, and answers how many bytes they are.
fn pool_terms(
    first: Table,
    second: Table,
    numbers: &mut Numbers,
    buffer: &mut [u8; TERMS_SIZE],
) -> Result<usize, Refusal>
    requires { Noted first.bytes.now second.bytes.now 0 numbers.old }
    ensures answer { check_of result ≡ check_most 0 (terms_to first.entry.bytes.now second.entry.bytes.now (term_count second.entry.bytes.now)) }
    ensures numbers { IfOk result (λ n. Noted first.entry.bytes.now second.entry.bytes.now (term_count second.entry.bytes.now) numbers.new) }
    ensures bytes { IfOk result (λ n. (n ≤ 750) × (take n buffer.new ≡ body_at first.entry.bytes.now 0 ++ missing_records first.entry.bytes.now second.entry.bytes.now (term_count second.entry.bytes.now))) }
{
    let mut chains = RecordChains::new();
    lookup::chain_records(first, &mut chains);
    let lookup = Lookup {
        table: first,
        chains: &chains,
    };
    let mut page = Writer::new(buffer);
    page.put_all(Bodies::of(first).terms);
    put_missing(lookup, second, numbers, &mut page)?;
    Ok(page.at)
}

// ---- The pool's knowledge.

// Puts the second's entries that are not among the first's.
fn put_new_entries(
    first: Table,
    second: Table,
    numbers: &Numbers,
    page: &mut Writer,
) -> Result<(), Refusal>
    requires numbers { Noted first.bytes.now second.bytes.now (term_count second.bytes.now) numbers.now }
    requires at { page.old.at ≡ entry_count first.bytes.now }
    requires room { length page.old.buffer.now ≡ 64 }
    ensures answer { check_of result ≡ check_most 1 (entries_to first.entry.bytes.now second.entry.bytes.now (entry_count second.entry.bytes.now)) }
    ensures same { page.new.buffer.ghost_name ≡ page.old.buffer.ghost_name }
    ensures page { IfOk result (λ u. Wrote page.old (new_entries first.entry.bytes.now second.entry.bytes.now (entry_count second.entry.bytes.now)) page.new) }
{
    let known = Bodies::of(first).knowledge;
    for r in 0..second.entries() {
        let n = numbers.of[usize::from(second.entry(r))];
        if !known.contains(&n) {
            Fault::Overfull.at(0).when(page.at == KNOWLEDGE_SIZE)?;
            page.put(n);
        }
    }
    Ok(())
}

// Fills the buffer with the pool's knowledge, and answers how many entries it has.
fn pool_knowledge(
    first: Table,
    second: Table,
    numbers: &Numbers,
    buffer: &mut [u8; KNOWLEDGE_SIZE],
) -> Result<usize, Refusal>
    requires { Noted first.bytes.now second.bytes.now (term_count second.bytes.now) numbers.now }
    ensures answer { check_of result ≡ check_most 1 (entries_to first.entry.bytes.now second.entry.bytes.now (entry_count second.entry.bytes.now)) }
    ensures bytes { IfOk result (λ n. (n ≤ 64) × (take n buffer.new ≡ body_at first.entry.bytes.now 1 ++ new_entries first.entry.bytes.now second.entry.bytes.now (entry_count second.entry.bytes.now))) }
{
    let mut page = Writer::new(buffer);
    page.put_all(Bodies::of(first).knowledge);
    put_new_entries(first, second, numbers, &mut page)?;
    Ok(page.at)
}

// ---- The call.

// Writes the pool of two submissions, where it is within the limits, check 20, and the page has room for it, check 11.
fn write_pool(first: Submission, second: Submission, page: &mut [u8]) -> Result<u16, Refusal>
    ensures { PoolWritten first.entry.bytes.now second.entry.bytes.now page.old result page.new }
{
    let given = first.table();
    let added = second.table();
    let mut numbers = Numbers::new(given.terms());
    let mut terms = [0; TERMS_SIZE];
    let mut knowledge = [0; KNOWLEDGE_SIZE];
    let terms_end = pool_terms(given, added, &mut numbers, &mut terms)?;
    let knowledge_end = pool_knowledge(given, added, &numbers, &mut knowledge)?;
    let own = Bodies::of(given);
    form::write(
        &terms[..terms_end],
        &knowledge[..knowledge_end],
        own.derivation,
        own.claim,
        page,
    )
}

// Writes the pool of the two submissions to the page's start, and answers its length; or the refusal of the first that fails of the first's checks 1
// to 5, the second's, 20 and 11. Only an acceptance writes.
#[tactic(auto, unfolding(crate::specs::Computed::join_answer))]
pub fn join(first: &[u8], second: &[u8], page: &mut [u8]) -> Result<u16, Refusal>
    ensures { PoolWritten first.now second.now page.old result page.new }
{
    let given = Submission::read(first)?;
    let added = Submission::read(second)?;
    write_pool(given, added, page)
}
