// The steps of a derivation: checks 6 and 7, and the registers that hold their terms.
// Promises: every function is total, and its answer is what the definitions of specs/ give.
#![tactic(auto)]

ghost use Rattle.std.specs.Prelude.{◌≡◌, ◌&&◌, ◌<◌, ◌+◌, eqb};
ghost use Rattle.std.specs.Option.{option_eq};
ghost use Rattle.term.specs.Term.{asymmetric, pair, encryption, compound};
ghost use Rattle.term.specs.Number.{shape_of, rules as rule_count, head_of};
ghost use Rattle.term.specs.Computed.{kind_of};
ghost use Rattle.term.specs.Code.{builder_of};
ghost use Rattle.submission.specs.Record.{second_for};
ghost use Rattle.submission.specs.Computed.{are_inverse};
ghost use Rattle.derivation.specs.Computed.{follows as follows_by, bad_step};
ghost use Rattle.derivation.specs.Code.{IsStep, Unused, Held, register_in};

pub mod steps;

pub use steps::Derivation;
use submission::Term;
use term::{Kind, rules};

// A step's record. The rule is a byte, as of a record that no check has passed, and stays one, as the machine matches on it.
#[derive(Clone, Copy, PartialEq, Eq)]
pub struct Step {
    pub rule: u8,
    pub p: u8,
    pub q: u8,
    pub conclusion: u8,
}

pub fn step_at(s: &[u8], i: u8) -> Step
    ensures { IsStep s.now i result }
{
    let at = submission::derivation_start(s) + submission::STEP_WIDTH * usize::from(i);
    let [rule, p, q, conclusion] = base::bytes_at::<{ submission::STEP_WIDTH }>(s, at);
    Step {
        rule,
        p,
        q,
        conclusion,
    }
}

impl Step {
    // The second premise; one premise counts as both.
    #[tactic(auto, unfolding(submission::specs::Record::second_for))]
    pub fn second(self) -> u8
        ensures { result ≡ second_for self.rule self.p self.q }
    {
        rules::second_operand(self.rule, self.p, self.q)
    }

    // Whether this part of the pair `from` is what the step concludes, from `from` alone.
    #[tactic(auto, using(crate::proofs::KindTests::is_pair))]
    fn is_part(self, from: Term, part: u8) -> bool
        ensures { result ≡ (eqb from.kind (kind_of (compound pair)) && (eqb part self.conclusion && eqb self.q 0)) }
    {
        from.kind() == Some(Kind::Pair) && part == self.conclusion && self.q == 0
    }

    // Whether the step opens `from`, an enca, with the inverse of its key.
    #[tactic(auto, using(crate::proofs::KindTests::is_enca))]
    fn is_opened(self, s: &[u8], from: Term) -> bool
        ensures { result ≡ (eqb from.kind (kind_of (compound (encryption asymmetric))) && (eqb from.x self.conclusion && are_inverse s.now from.y self.q)) }
    {
        from.kind() == Some(Kind::Enca)
            && from.x == self.conclusion
            && submission::are_inverse(s, from.y, self.q)
    }

    // Whether the conclusion follows from the premises by the rule.
    #[tactic(auto, using(crate::proofs::StepShapeTests::dec_built), unfolding(term::specs::Number::head_of))]
    fn follows(self, s: &[u8]) -> bool
        requires { self.rule < rule_count }
        ensures { result ≡ follows_by s.now (head_of self.rule) self.p self.q self.conclusion }
    {
        let from = submission::term_at(s, self.p);
        let to = submission::term_at(s, self.conclusion);
        match self.rule {
            rules::FST => self.is_part(from, from.x),
            rules::SND => self.is_part(from, from.y),
            rules::DEC => is_built(from, rules::ENC, self.conclusion, self.q),
            rules::DECA => self.is_opened(s, from),
            rule => is_built(to, rule, self.p, self.q),
        }
    }
}

// Whether t is the record that the rule builds from x and y.
fn is_built(t: Term, rule: u8, x: u8, y: u8) -> bool
    ensures { result ≡ (option_eq eqb (builder_of (shape_of t.kind)) (Some rule) && (eqb t.x x && eqb t.y y)) }
{
    t.rule() == Some(rule) && t.x == x && t.y == y
}

// Check 6 of step i: a rule, a number or the shape is wrong.
#[tactic(auto, unfolding(crate::specs::Computed::bad_step))]
fn is_step_bad(s: &[u8], i: u8) -> bool
    ensures { result ≡ bad_step s.now i }
{
    let step = step_at(s, i);
    let terms = submission::terms(s);
    !(rules::is_rule(step.rule)
        && step.p < terms
        && step.q < terms
        && step.conclusion < terms
        && step.follows(s))
}

// The lowest register of each term by its number, and the count of registers in use. Document 01 names this form.
#[derive(Drop)]
pub struct Registers {
    pub first: [Option<u8>; 256],
    pub used: u8,
}

impl Registers {
    pub fn new() -> Self
        ensures { Unused result }
    {
        Registers {
            first: [None; 256],
            used: 0,
        }
    }

    // The lowest register of t.
    pub fn lowest(&self, t: u8) -> Option<u8>
        ensures { result ≡ register_in self.now.first t }
    {
        self.first[usize::from(t)]
    }

    // The next register holds term t: it is the lowest where t had none.
    #[tactic(auto, unfolding(crate::specs::Code::holding))]
    fn hold(&mut self, t: u8)
        requires { self.old.used < 255 }
        ensures { Held self.old t self.new }
    {
        let i = usize::from(t);
        self.first[i] = self.first[i].or(Some(self.used));
        self.used += 1;
    }

    // The next register is in use, and holds nothing that counts.
    fn skip(&mut self)
        requires { self.old.used < 255 }
        ensures first { self.new.first ≡ self.old.first }
        ensures used { self.new.used ≡ self.old.used + 1 }
    {
        self.used += 1;
    }
}
