// A program that can be read back, and the bodies that are written from it.
ghost use Rattle.std.specs.Prelude.{◌≡◌, false, cond, eqb, ltb, ◌+◌, ◌<◌, IfOk, get_or};
ghost use Rattle.std.proofs.Math.Option.{some};
ghost use Rattle.base.specs.Code.{Wrote};
ghost use Rattle.base.specs.Words.{first, byte as byte_at};
ghost use Rattle.base.specs.Code.{check_of};
ghost use Rattle.base.specs.Computed.{fails_at, fails_if, and_then};
ghost use Rattle.term.specs.Number.{has_one};
ghost use Rattle.term.specs.Code.{relation_is};
ghost use Rattle.submission.specs.Check.{knowledge_step};
ghost use Rattle.submission.specs.Code.{way_is, range_is};
ghost use Rattle.submission.specs.Record.{entries};
ghost use Rattle.derivation.specs.Step.{written};
ghost use Rattle.program.specs.Program.{test_at};
ghost use Rattle.program.specs.Code.{test_in};
ghost use Rattle.machine.specs.Code.{RegisterNumbers};
ghost use Rattle.readback.specs.ReadBack.{step_of, step_read, derivation_read, way_from, verifying_read, companion_read, claim_read};
ghost use Rattle.readback.specs.Computed.{off_table, no_claim};
ghost use Rattle.readback.specs.Code.{Claimable};
ghost use Rattle.readback.specs.Calls.{BodiesWritten};

use base::{Refusal, Writer, byte};
use machine::CheckedProgram;
use program::{Instruction, Test};
use submission::{KNOWLEDGE_STEP, Range, Way};
use term::{Relation, rules};

// A program that passed checks 17 and 18, and the number of each register's term.
#[derive(Clone, Copy)]
pub struct Readable<'a> {
    pub checked: CheckedProgram<'a>,
    pub numbers: &'a [u16; 256],
    pub ghost claimable: { Claimable checked.submission.bytes.now checked.program.now numbers.now },
}

impl<'a> Readable<'a> {
    // Checks 17 and 18.
    pub fn read(checked: CheckedProgram<'a>, numbers: &'a [u16; 256]) -> Result<Self, Refusal>
        requires { RegisterNumbers checked.submission.bytes.now checked.program.now numbers.now }
        ensures answer { check_of result ≡ and_then (fails_at 17 (first (off_table checked.entry.submission.bytes.now checked.entry.program.now) (written checked.entry.submission.bytes.now (byte_at checked.entry.program.now 0)))) (fails_if (no_claim checked.entry.submission.bytes.now (test_at checked.entry.program.now)) 18 0) }
        ensures submission { IfOk result (λ r. r.checked.submission.bytes.now ≡ checked.entry.submission.bytes.now) }
        ensures program { IfOk result (λ r. r.checked.program.now ≡ checked.entry.program.now) }
    {
        crate::check_listed(checked, numbers)?;
        crate::check_claimed(checked)?;
        Ok(Readable { checked, numbers })
    }

    // The number of register r's term, which is listed.
    fn number(self, r: u8) -> u8
        requires { get_or self.numbers.now r 0 < 256 }
        ensures { result ≡ get_or self.entry.numbers.now r 0 }
    {
        u8::try_from(self.numbers[usize::from(r)]).unwrap()
    }

    // The number of the second premise; 0 where the rule has one.
    fn second_number(self, i: Instruction) -> u8
        requires { has_one i.rule ≡ false → get_or self.numbers.now i.right 0 < 256 }
        ensures { result ≡ cond (has_one i.rule) 0 (get_or self.entry.numbers.now i.right 0) }
    {
        if rules::has_one(i.rule) {
            return 0;
        }
        self.number(i.right)
    }

    // The record of instruction i.
    fn put_step(self, i: u8, page: &mut Writer)
        requires { i < byte_at self.checked.program.now 0 }
        ensures { Wrote page.old (step_read self.entry.checked.submission.bytes.now self.entry.checked.program.now i) page.new }
    {
        let x = program::instruction_at(self.checked.program, i);
        let result = submission::entries(self.checked.submission.bytes) + 1 + i;
        let p = self.number(x.left);
        let q = self.second_number(x);
        let conclusion = self.number(result);
        page.put_array([x.rule, p, q, conclusion]);
    }

    fn put_steps(self, page: &mut Writer)
        ensures { Wrote page.old (derivation_read self.entry.checked.submission.bytes.now self.entry.checked.program.now) page.new }
    {
        let n = byte(self.checked.program, 0);
        for i in 0..n {
            self.put_step(i, page);
        }
    }

    // The step whose result register r holds. Where it holds none this is 0, as the definition reads it.
    fn step_of(self, r: u8) -> u8
        ensures { result ≡ step_of self.entry.checked.submission.bytes.now r }
    {
        let known = submission::entries(self.checked.submission.bytes);
        r.saturating_sub(known).saturating_sub(1)
    }

    // The same, or KNOWLEDGE_STEP where r holds an entry of the knowledge: the number that the claim's record has for no step.
    fn step_or_knowledge(self, r: u8) -> u8
        ensures { result ≡ cond (ltb r (entries self.entry.checked.submission.bytes.now)) knowledge_step (step_of self.entry.checked.submission.bytes.now r) }
    {
        if r < submission::entries(self.checked.submission.bytes) {
            return KNOWLEDGE_STEP;
        }
        self.step_of(r)
    }

    // The way that the test is read as.
    fn way(self, t: Test) -> Way
        ensures { way_is result ≡ way_from (some (relation_is self.entry.checked.relation)) (eqb t.left (entries self.entry.checked.submission.bytes.now)) (ltb (entries self.entry.checked.submission.bytes.now) t.right) }
    {
        let known = submission::entries(self.checked.submission.bytes);
        match self.checked.relation {
            Relation::Equal if t.left == known => Way::GuessDerived,
            Relation::Equal if known < t.right => Way::AnotherStep,
            Relation::Equal => Way::AtStart,
            Relation::Inverse if t.left == known => Way::InverseDerived,
            Relation::Inverse => Way::InverseKey,
        }
    }

    // The claim's step, by its range, a word of the table of ways. It and `companion` are two: one function would take four numbers, one for each range.
    fn verifying(self, t: Test, range: Range) -> u8
        ensures { result ≡ verifying_read self.entry.checked.submission.bytes.now (test_in t) (range_is range) }
    {
        match range {
            Range::Step => self.step_of(t.left),
            Range::Term => 0,
            Range::Zero => 0,
            Range::StepOrKnowledge => self.step_or_knowledge(t.right),
        }
    }

    // The companion, by its range, likewise; n numbers the term of the second register r.
    fn companion(self, r: u8, n: u8, range: Range) -> u8
        ensures { result ≡ companion_read self.entry.checked.submission.bytes.now r n (range_is range) }
    {
        match range {
            Range::Step => self.step_of(r),
            Range::Term => n,
            Range::Zero => 0,
            Range::StepOrKnowledge => 0,
        }
    }

    // The claim's record.
    fn put_claim(self, page: &mut Writer)
        ensures { Wrote page.old (claim_read self.entry.checked.submission.bytes.now self.entry.checked.program.now) page.new }
    {
        let t = program::test_at(self.checked.program);
        let way = self.way(t);
        let row = way.row();
        let guess = self.checked.submission.claim.guess;
        let step = self.verifying(t, row.step);
        let n = self.number(t.right);
        let companion = self.companion(t.right, n, row.companion);
        page.put_array([guess, step, way.letter(), companion]);
    }

    // Writes the two bodies, where the page has room: check 11.
    #[tactic(auto, unfolding(crate::specs::Computed::read_back_answer))]
    pub fn write(self, page: &mut [u8]) -> Result<u16, Refusal>
        ensures { BodiesWritten self.entry.checked.submission.bytes.now self.entry.checked.program.now page.old result page.new }
    {
        let needed = crate::bodies_length(byte(self.checked.program, 0));
        base::check_room(page.len(), needed)?;
        let mut writer = Writer::new(page);
        self.put_steps(&mut writer);
        self.put_claim(&mut writer);
        Ok(needed)
    }
}
