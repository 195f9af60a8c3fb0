// The records of the first terms in chains, for finding the one that equals a given record.
ghost use Rattle.std.specs.Prelude.{◌≡◌, ◌+◌, ◌*◌, ◌%◌, ◌<◌, ℕ, List};
ghost use Rattle.submission.specs.Code.{IsTerm, RecordsChained, RecordFound};

use crate::Term;
use base::ByteChains;

// The factors of x in the two bytes by which a record is chained, the same for equal records: 21x + y and 42x + y. Each spreads records that have one x
// or one y, and those whose x and y rise or fall together: at most four of 256 such have the same byte. And the two bytes tell x and y, so
// records that are many in one chain by the one byte are in different chains by the other, but for those with one x and one y, of which each kind has one.
const FIRST_FACTOR: u8 = 21;

const SECOND_FACTOR: u8 = 42;

// The byte with this factor.
fn chain_of(factor: u8, t: Term) -> u8
    ensures { result ≡ (factor * t.x + t.y) % 256 }
{
    t.x.wrapping_mul(factor).wrapping_add(t.y)
}

#[derive(Drop)]
pub struct RecordChains {
    pub first: ByteChains,
    pub second: ByteChains,
}

// What is chained stands in the contracts and is no ghost field: it grows with each number, so a field would hold between no two writes.
impl RecordChains {
    pub fn new() -> Self
        ensures { (s : List ℕ) → RecordsChained s 0 result }
    {
        RecordChains {
            first: ByteChains::new(),
            second: ByteChains::new(),
        }
    }

    // Chains record i, which is t.
    pub fn add(&mut self, t: Term, i: u8)
        requires { i < 255 }
        ensures { (s : List ℕ) → RecordsChained s i self.old → IsTerm s i t → RecordsChained s (i + 1) self.new }
    {
        self.first.chain(chain_of(FIRST_FACTOR, t), i);
        self.second.chain(chain_of(SECOND_FACTOR, t), i);
    }

    // The number of the record that equals t, where one that is chained does. Only those of its two chains are compared, and no more than
    // twice as many as the shorter one has.
    pub fn find(&self, s: &[u8], t: Term) -> Option<u8>
        requires { (i : ℕ) × RecordsChained s.now i self.now }
        ensures { (i : ℕ) → RecordsChained s.now i self.now → RecordFound s.now i t result }
    {
        self.first.find_in_both(
            chain_of(FIRST_FACTOR, t),
            &self.second,
            chain_of(SECOND_FACTOR, t),
            |n| crate::term_at(s, n) == t,
        )
    }
}
