// The inverse of each listed term, found in one pass: document 02, A4.
// Promises: every function is total, and its answer and the page's later bytes are what the definitions of specs/ give.
// Cost: one pass over the terms. A key is compared with the earlier keys of the other kind whose names have the same last byte, and with those of its
// own kind whose names have the opposite one; nothing else is compared.
#![tactic(auto)]

ghost use Rattle.std.specs.Prelude.{◌≡◌, ◌+◌, ◌<◌, ℕ, unwrap_or};
ghost use Rattle.term.specs.Number.{shape_of};
ghost use Rattle.base.specs.Code.{Chaining};
ghost use Rattle.submission.specs.Record.{terms};
ghost use Rattle.submission.specs.Code.{IsTerm};
ghost use Rattle.inverse.specs.Code.{chain_of, key_chain, EarlierInverse, Found, Inverses};
ghost use Rattle.inverse.specs.Calls.{InversesWritten};

use base::{ByteChains, Refusal, Writer};
use submission::{Table, Term};
use term::Kind;

// ---- The pass over the terms.
// `Chaining` stands in the contracts: it grows with each number, so as a ghost field it would hold between no two writes.

// The byte by which a key is chained: of a public one the last byte of its name, of a private one the byte opposite to it. So the inverse of a key is in
// the chain opposite to its own, which has no key of its kind whose name has the same last byte.
fn chain_of(key: Term) -> Option<u8>
    ensures { unwrap_or result 256 ≡ chain_of (shape_of key.kind) key.y }
{
    match key.kind()? {
        Kind::Public => Some(key.y),
        Kind::Private => Some(key.y.wrapping_add(128)),
        _ => None,
    }
}

// The inverse of a key among the terms whose keys are chained: the earlier ones, where it is term k. Only those of the chain opposite to its own are
// looked at.
fn earlier_inverse(table: Table, chains: &ByteChains, key: Term, chain: u8) -> Option<u8>
    requires { (k : ℕ) × Chaining (key_chain table.bytes.now) k chains.now.before chains.now.latest }
    ensures { (k : ℕ) → Chaining (key_chain table.entry.bytes.now) k chains.now.before chains.now.latest → IsTerm table.entry.bytes.now k key → chain ≡ key_chain table.entry.bytes.now k → EarlierInverse table.entry.bytes.now k result }
{
    chains.find(chain.wrapping_add(128), |j| {
        key.is_inverse_of(table.term(j))
    })
}

// Notes the inverse of term k among the earlier terms, for both of them, and chains it, where it is a key.
#[tactic(auto, using(crate::proofs::NotedInverses::found_alone, crate::proofs::NotedInverses::found_pair))]
fn note_inverse(table: Table, chains: &mut ByteChains, found: &mut [Option<u8>; 256], k: u8)
    requires k_bound { k < terms table.bytes.now }
    requires chaining { Chaining (key_chain table.bytes.now) k chains.old.before chains.old.latest }
    requires found { Found table.bytes.now k found.old }
    ensures chaining { Chaining (key_chain table.entry.bytes.now) (k + 1) chains.new.before chains.new.latest }
    ensures found { Found table.entry.bytes.now (k + 1) found.new }
{
    let key = table.term(k);
    let Some(chain) = chain_of(key) else {
        found[usize::from(k)] = None;
        return;
    };
    let earlier = earlier_inverse(table, chains, key, chain);
    chains.chain(chain, k);
    found[usize::from(k)] = earlier;
    if let Some(j) = earlier {
        found[usize::from(j)] = Some(k);
    }
}

// Stores the number of each term's inverse, where one is listed.
pub fn find(table: Table, found: &mut [Option<u8>; 256])
    ensures { Inverses table.entry.bytes.now found.new }
{
    let n = table.terms();
    let mut chains = ByteChains::new();
    for k in 0..n {
        note_inverse(table, &mut chains, found, k);
    }
}

// ---- The call.

// The inverses on the page, where it has room: check 11. A term that has none listed gets a byte 255.
fn write_found(table: Table, page: &mut [u8]) -> Result<u16, Refusal>
    ensures { InversesWritten table.entry.bytes.now page.old result page.new }
{
    let n = table.terms();
    let needed = u16::from(n);
    base::check_room(page.len(), needed)?;
    let mut found = [None; 256];
    find(table, &mut found);
    let mut writer = Writer::new(page);
    for inverse in &found[..usize::from(n)] {
        writer.put(inverse.unwrap_or(255));
    }
    Ok(needed)
}

// Writes a byte for each term to the page's start, the number of its inverse, or 255 where none is listed, and answers the count of terms.
// Only an acceptance writes.
#[tactic(auto, unfolding(crate::specs::Computed::inverses_answer))]
pub fn inverses(s: &[u8], page: &mut [u8]) -> Result<u16, Refusal>
    ensures { InversesWritten s.now page.old result page.new }
{
    let table = Table::read(s)?;
    write_found(table, page)
}
