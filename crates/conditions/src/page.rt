// The register program of a submission that passed all checks before 11, written on the page.
ghost use Rattle.std.specs.Prelude.{◌≡◌, ◌++◌, ◌≤◌, ◌<◌, length, drop, true};
ghost use Rattle.submission.specs.Code.{target_is, operand_is};
ghost use Rattle.submission.specs.Record.{steps, way_at};
ghost use Rattle.derivation.specs.Step.{written};
ghost use Rattle.derivation.specs.Computed.{is_known};
ghost use Rattle.program.specs.Program.{bytes_of, program_length};
ghost use Rattle.program.specs.Code.{instruction_in, test_in};
ghost use Rattle.conditions.specs.Calls.{instruction, lowest, named as named_by, program, test_for};
ghost use Rattle.conditions.specs.Code.{Acceptable as PassedAll, Held};
ghost use Rattle.submission.specs.Check.{way_of, given_register};

use crate::conditions::Founded;
use crate::given;
use program::{Instruction, Program, Test};
use submission::{Operand, Target};
use term::rules;

// A derivation that passed all checks before 11.
#[derive(Clone, Copy)]
pub struct Acceptable<'a> {
    pub founded: Founded<'a>,
    pub ghost acceptable: { PassedAll founded.derivation.bytes.now },
}

impl<'a> Acceptable<'a> {
    // The lowest register of a term that is known after the last step.
    #[tactic(auto, using(crate::proofs::ProgramValue::known))]
    fn lowest(self, t: u8) -> u8
        requires { is_known self.founded.derivation.bytes.now (steps self.founded.derivation.bytes.now) t ≡ true }
        ensures { result ≡ lowest self.entry.founded.derivation.bytes.now t }
    {
        self.founded.registers.lowest(t).unwrap()
    }

    // The instruction of step i: each premise is taken from its lowest register.
    #[tactic(auto, using(crate::proofs::ProgramValue::premises), unfolding(crate::specs::Calls::instruction))]
    fn instruction(self, i: u8) -> Instruction
        requires { i < steps self.founded.derivation.bytes.now }
        ensures { instruction_in result ≡ instruction self.entry.founded.derivation.bytes.now i }
    {
        let step = self.founded.derivation.step(i);
        let left = self.lowest(step.p);
        let right = if rules::has_one(step.rule) {
            0
        } else {
            self.lowest(step.q)
        };
        Instruction {
            rule: step.rule,
            left,
            right,
        }
    }

    // The register of the result of step i.
    fn result_register(self, i: u8) -> u8
        requires { i < 128 }
        ensures { result ≡ written self.entry.founded.derivation.bytes.now i }
    {
        self.founded.derivation.entries() + 1 + i
    }

    // The register of what gives the term claimed: the named step's, or where none is named the entry's.
    #[tactic(auto, using(crate::proofs::ProgramValue::given_registers))]
    fn given_register(self, target: Target) -> u8
        requires { Held self.founded.derivation.bytes.now (given_register (target_is target)) }
        ensures { result ≡ named_by self.entry.founded.derivation.bytes.now (given_register (target_is target)) }
    {
        let derivation = self.founded.derivation;
        match derivation.claim.named_step() {
            Some(step) => self.result_register(step),
            None => given::entry_given(derivation.claimed(), target).unwrap(),
        }
    }

    // The register that a test of the claim names. What a test names stands in the table of ways as data, one row for each way.
    fn named(self, operand: Operand) -> u8
        requires { Held self.founded.derivation.bytes.now (operand_is operand) }
        ensures { result ≡ named_by self.entry.founded.derivation.bytes.now (operand_is operand) }
    {
        let derivation = self.founded.derivation;
        let claim = derivation.claim;
        match operand {
            Operand::VerifyingResult => self.result_register(claim.step),
            Operand::CompanionResult => self.result_register(claim.companion),
            Operand::LowestConclusion => self.lowest(derivation.step(claim.step).conclusion),
            Operand::LowestCompanion => self.lowest(claim.companion),
            Operand::GuessRegister => derivation.entries(),
            Operand::GivenRegister(target) => self.given_register(target),
        }
    }

    // The test of the claim's way.
    #[tactic(auto, using(crate::proofs::ProgramValue::tested))]
    fn claim_test(self) -> Test
        ensures { test_in result ≡ test_for self.entry.founded.derivation.bytes.now (way_of (way_at self.entry.founded.derivation.bytes.now)) }
    {
        let row = self.founded.derivation.claim.way.row();
        Test {
            letter: program::letter_of(row.relation),
            left: self.named(row.tested),
            right: self.named(row.against),
        }
    }

    // Writes the program, an instruction for each step and the test, at the page's start.
    pub fn write_program(self, page: &mut [u8])
        requires { program_length (steps self.founded.derivation.bytes.now) ≤ length page.old }
        ensures { page.new ≡ bytes_of (program self.entry.founded.derivation.bytes.now) ++ drop (program_length (steps self.entry.founded.derivation.bytes.now)) page.old }
    {
        // There is no heap: an array that has room for the most steps.
        let mut instructions = [Instruction {
            rule: 0,
            left: 0,
            right: 0,
        }; 128];
        let count = self.founded.derivation.steps();
        // The instruction of step i stands at i: a `zip` of the array and the numbers would show this less.
        for i in 0..count {
            instructions[usize::from(i)] = self.instruction(i);
        }
        let program = Program {
            instructions: &instructions[..usize::from(count)],
            test: self.claim_test(),
        };
        program::write(program, page);
    }
}
