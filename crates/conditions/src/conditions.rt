// Conditions 4 and 5, which are checks 9 and 10; and what a claim asks for: checks 8 to 10, or 16.
ghost use Rattle.std.specs.Prelude.{◌≡◌, ◌&&◌, not};
ghost use Rattle.submission.specs.Record.{steps, p_at, way_at, verifying, second_at};
ghost use Rattle.submission.specs.Computed.{are_inverse};
ghost use Rattle.submission.specs.Check.{way_of, claims};
ghost use Rattle.base.specs.Computed.{fails_if, fails_at};
ghost use Rattle.base.specs.Code.{check_of};
ghost use Rattle.derivation.specs.Step.{written};
ghost use Rattle.derivation.specs.Computed.{is_known};
ghost use Rattle.derivation.specs.Code.{IsStep, Lowest};
ghost use Rattle.conditions.specs.Computed.{is_premise, same_premises, has_second_way, dismantles as dismantles_by, undoes_step, undone, check_met};
ghost use Rattle.conditions.specs.Code.{Founded as PassedSteps, other_way};
ghost use Rattle.base.specs.Words.{first};

use crate::given;
use crate::verifier::Verifier;
use base::{Fault, Refusal};
use derivation::{Derivation, Registers, Step};
use submission::{Claims, Way};
use term::rules;

// A derivation whose steps passed checks 6 and 7, and its registers.
#[derive(Clone, Copy)]
pub struct Founded<'a> {
    pub derivation: Derivation<'a>,
    pub registers: &'a Registers,
    pub ghost founded: { PassedSteps derivation.bytes.now },
    pub ghost lowest: { Lowest derivation.bytes.now (written derivation.bytes.now (steps derivation.bytes.now)) registers.now.first },
}

impl<'a> Founded<'a> {
    // The verifying step.
    pub fn verifying(self) -> Step
        ensures { IsStep self.entry.derivation.bytes.now self.entry.derivation.claim.step result }
    {
        self.derivation.step(self.derivation.claim.step)
    }

    // Whether t is a premise of step i.
    #[tactic(auto, unfolding(submission::specs::Record::second_for))]
    fn is_premise(self, i: u8, t: u8) -> bool
        ensures { result ≡ is_premise self.entry.derivation.bytes.now i t }
    {
        let step = self.derivation.step(i);
        t == step.p || t == step.second()
    }

    // Whether each premise of step i is one of step j.
    #[tactic(auto, unfolding(submission::specs::Record::second_for))]
    fn has_premises(self, j: u8, i: u8) -> bool
        ensures { result ≡ (is_premise self.entry.derivation.bytes.now j (p_at self.entry.derivation.bytes.now i) && is_premise self.entry.derivation.bytes.now j (second_at self.entry.derivation.bytes.now i)) }
    {
        let step = self.derivation.step(i);
        self.is_premise(j, step.p) && self.is_premise(j, step.second())
    }

    // Whether steps i and j have one premise set.
    #[tactic(auto, unfolding(crate::specs::Computed::same_premises))]
    fn same_premises(self, i: u8, j: u8) -> bool
        ensures { result ≡ same_premises self.entry.derivation.bytes.now i j }
    {
        self.has_premises(j, i) && self.has_premises(i, j)
    }

    // Way a: step j concludes what step i does, by another rule or from another premise set.
    fn is_other_way(self, i: u8, j: u8) -> bool
        ensures { result ≡ other_way self.entry.derivation.bytes.now i j }
    {
        let a = self.derivation.step(i);
        let b = self.derivation.step(j);
        b.conclusion == a.conclusion && (a.rule != b.rule || !self.same_premises(i, j))
    }

    // Way b: the lowest register of t is one of the knowledge, or the guess's.
    fn is_known_at_start(self, t: u8) -> bool
        ensures { result ≡ is_known self.entry.derivation.bytes.now 0 t }
    {
        let guess = self.derivation.entries();
        self.registers
            .lowest(t)
            .is_some_and(|register| register <= guess)
    }

    // Way c: t and j are inverse keys, and a register holds j.
    fn is_inverse_known(self, t: u8, j: u8) -> bool
        ensures { result ≡ (are_inverse self.entry.derivation.bytes.now t j && is_known self.entry.derivation.bytes.now (steps self.entry.derivation.bytes.now) j) }
    {
        submission::are_inverse(self.derivation.bytes, t, j) && self.registers.lowest(j).is_some()
    }

    // Condition 4. Ways k and j have no second way, and are not asked.
    fn has_second_way(self) -> bool
        ensures { result ≡ has_second_way self.entry.derivation.bytes.now (way_of (way_at self.entry.derivation.bytes.now)) }
    {
        let step = self.verifying();
        let claim = self.derivation.claim;
        match claim.way {
            Way::AnotherStep => self.is_other_way(claim.step, claim.companion),
            Way::AtStart => self.is_known_at_start(step.conclusion),
            Way::InverseKey => self.is_inverse_known(step.conclusion, claim.companion),
            Way::GuessDerived | Way::InverseDerived => false,
        }
    }

    // Check 9.
    pub fn check_second_way(self) -> Result<(), Refusal>
        ensures { check_of result ≡ fails_if (not (has_second_way self.entry.derivation.bytes.now (way_of (way_at self.entry.derivation.bytes.now)))) 9 (verifying self.entry.derivation.bytes.now) }
    {
        Fault::NoSecondWay
            .at(u16::from(self.derivation.claim.step))
            .when(!self.has_second_way())
    }

    // Whether step j undoes step i: one of them takes apart the very term that the other builds.
    #[tactic(auto, unfolding(crate::specs::Computed::undoes_step))]
    fn undoes_step(self, j: u8, i: u8) -> bool
        ensures { result ≡ undoes_step self.entry.derivation.bytes.now j i }
    {
        let a = self.derivation.step(j);
        let b = self.derivation.step(i);
        dismantles(a, b) || dismantles(b, a)
    }

    // Whether the verifying step undoes step i, or in way a the companion does.
    #[tactic(auto, unfolding(crate::specs::Computed::undone))]
    fn is_undone(self, i: u8) -> bool
        ensures { result ≡ undone self.entry.derivation.bytes.now i }
    {
        let claim = self.derivation.claim;
        self.undoes_step(claim.step, i)
            || (claim.way.row().kept && self.undoes_step(claim.companion, i))
    }

    // Check 10.
    pub fn check_undone(self) -> Result<(), Refusal>
        ensures { check_of result ≡ fails_at 10 (first (undone self.entry.derivation.bytes.now) (steps self.entry.derivation.bytes.now)) }
    {
        let undone = (0..self.derivation.steps()).find(|i| self.is_undone(*i));
        Fault::Undone.at_first(undone.map(u16::from))
    }

    // The checks of what the claim's way claims: 8 to 10 of a verifier, 16 of what is derived. The claims are words of the table and no functions, as
    // the derivation asks by the same words whether the guess counts.
    pub fn check_met(self) -> Result<(), Refusal>
        ensures { check_of result ≡ check_met self.entry.derivation.bytes.now (claims self.entry.derivation.bytes.now) }
    {
        match self.derivation.claim.way.row().claims {
            Claims::Verifier => Verifier { founded: self }.check_conditions(),
            Claims::Derived(target) => given::check_given(self.derivation, target),
        }
    }
}

// Whether a takes apart the very term that b concludes.
fn dismantles(a: Step, b: Step) -> bool
    ensures { result ≡ dismantles_by a.rule a.p b.rule b.conclusion }
{
    rules::takes_apart(a.rule, b.rule) && a.p == b.conclusion
}
