// A claim of a verifier: condition 3, which is check 8, and checks 8 to 10 in this order.
ghost use Rattle.std.specs.Prelude.{◌≡◌};
ghost use Rattle.base.specs.Code.{check_of};
ghost use Rattle.base.specs.Computed.{fails_if};
ghost use Rattle.submission.specs.Record.{verifying};
ghost use Rattle.submission.specs.Check.{verifier as verifier_claimed, claims};
ghost use Rattle.conditions.specs.Computed.{reachable, checks8to10};

use crate::conditions::Founded;
use base::{Fault, Refusal};
use submission::Table;

// A derivation that passed checks 6 and 7, whose claim is of a verifier.
#[derive(Clone, Copy)]
pub struct Verifier<'a> {
    pub founded: Founded<'a>,
    pub ghost verifier: { claims founded.derivation.bytes.now ≡ verifier_claimed },
}

impl<'a> Verifier<'a> {
    // Condition 3 broken: both premises of the verifying step are deducible from the knowledge, without the guess.
    #[tactic(auto, using(crate::proofs::PassedFacts::founded))]
    fn is_reachable(self) -> bool
        ensures { result ≡ reachable self.entry.founded.derivation.bytes.now }
    {
        let step = self.founded.verifying();
        let bytes = self.founded.derivation.bytes;
        let start = deduction::knowledge_marks(bytes);
        deduction::are_deducible(Table { bytes }, &start, step.p, step.second())
    }

    // Check 8.
    fn check_reachable(self) -> Result<(), Refusal>
        ensures { check_of result ≡ fails_if (reachable self.entry.founded.derivation.bytes.now) 8 (verifying self.entry.founded.derivation.bytes.now) }
    {
        Fault::Reachable
            .at(u16::from(self.founded.derivation.claim.step))
            .when(self.is_reachable())
    }

    // Checks 8 to 10. Document 01 names the form: each stage's answer is taken apart by `let .. else`, and a refusal goes straight out.
    pub fn check_conditions(self) -> Result<(), Refusal>
        ensures { check_of result ≡ checks8to10 self.entry.founded.derivation.bytes.now }
    {
        let reachable = self.check_reachable();
        let Ok(()) = reachable else {
            return reachable;
        };
        let second_way = self.founded.check_second_way();
        let Ok(()) = second_way else {
            return second_way;
        };
        self.founded.check_undone()
    }
}
