// The four bodies of a submission, as slices.
ghost use Rattle.std.specs.Prelude.{◌≡◌, ◌-◌, ◌≤◌, length, take, drop};
ghost use Rattle.base.specs.Words.{listed};
ghost use Rattle.base.specs.Code.{check_of};
ghost use Rattle.base.specs.Computed.{any, fails_if};
ghost use Rattle.submission.specs.Body.{records, bodies_of};
ghost use Rattle.form.specs.Computed.{ragged};
ghost use Rattle.form.specs.Code.{bodies_in};

use base::{Fault, Refusal};
use submission::{CLAIM_WIDTH, CONTENTS_SIZE, ENTRY_WIDTH, STEP_WIDTH, TERM_WIDTH, Table};

// The bytes from one place to another.
fn part(s: &[u8], from: usize, to: usize) -> &[u8]
    requires in_order { from ≤ to }
    requires in_bounds { to ≤ length s.now }
    ensures { result.now ≡ take (to - from) (drop from s.now) }
{
    &s[from..to]
}

#[derive(Clone, Copy)]
pub struct Bodies<'a> {
    pub terms: &'a [u8],
    pub knowledge: &'a [u8],
    pub derivation: &'a [u8],
    pub claim: &'a [u8],
}

impl<'a> Bodies<'a> {
    // The bodies of a submission that passed checks 1 to 4.
    pub fn of(table: Table<'a>) -> Self
        ensures { bodies_in result ≡ bodies_of table.entry.bytes.now }
    {
        let s = table.bytes;
        let knowledge = submission::knowledge_start(s);
        let derivation = submission::derivation_start(s);
        let claim = submission::claim_start(s);
        Bodies {
            terms: part(s, CONTENTS_SIZE, knowledge),
            knowledge: part(s, knowledge, derivation),
            derivation: part(s, derivation, claim),
            claim: part(s, claim, s.len()),
        }
    }
}

impl Bodies<'_> {
    // Whether a body is not whole records.
    #[tactic(auto, using(base::proofs::Says::any_four))]
    fn is_ragged(self) -> bool
        ensures { result ≡ any (ragged (bodies_in self.entry)) 4 }
    {
        self.terms.len() % TERM_WIDTH != 0
            || self.knowledge.len() % ENTRY_WIDTH != 0
            || self.derivation.len() % STEP_WIDTH != 0
            || self.claim.len() % CLAIM_WIDTH != 0
    }

    // Check 14, ragged.
    pub fn check_whole(self) -> Result<(), Refusal>
        ensures { check_of result ≡ fails_if (any (ragged (bodies_in self.entry)) 4) 14 0 }
    {
        Fault::Ragged.at(0).when(self.is_ragged())
    }

    // How many records each body has.
    #[tactic(auto, unfolding(base::specs::Words::grow))]
    pub fn counts(self) -> [usize; 4]
        ensures { result ≡ listed (records (bodies_in self.entry)) 4 }
    {
        [
            self.terms.len() / TERM_WIDTH,
            self.knowledge.len() / ENTRY_WIDTH,
            self.derivation.len() / STEP_WIDTH,
            self.claim.len() / CLAIM_WIDTH,
        ]
    }
}
