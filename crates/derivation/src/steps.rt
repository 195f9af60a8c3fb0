// A derivation with its claim: its records, the registers of the knowledge and of the guess, and checks 6 and 7, step by step.
ghost use Rattle.std.specs.Prelude.{◌≡◌};
ghost use Rattle.submission.specs.Record.{entries, steps, entry_at};
ghost use Rattle.submission.specs.Code.{Limited, way_is, IsClaim};
ghost use Rattle.submission.specs.Check.{row};
ghost use Rattle.base.specs.Code.{check_of};
ghost use Rattle.derivation.specs.Step.{guess_counts, written};
ghost use Rattle.derivation.specs.Computed.{unfounded};
ghost use Rattle.derivation.specs.Code.{IsStep, Lowest, Registered, check_step, StepsChecked};

use crate::{Registers, Step};
use base::{Fault, Refusal};
use submission::{Claim, Claimed, Claims, Submission};

// The bytes of a submission whose counts are within their limits, and its claim. A `Claimed` inside would make each path in the contracts longer
// by one name.
#[derive(Clone, Copy)]
pub struct Derivation<'a> {
    pub bytes: &'a [u8],
    pub claim: Claim,
    pub ghost limited: { Limited bytes.now },
    pub ghost claimed: { IsClaim bytes.now claim },
}

impl<'a> From<Submission<'a>> for Derivation<'a> {
    ghost from_gives = { λ s d. d.bytes.now ≡ s.bytes.now };

    fn from(submission: Submission<'a>) -> Self {
        Derivation {
            bytes: submission.bytes,
            claim: submission.claim,
        }
    }
}

impl<'a> Derivation<'a> {
    // The bytes and their claim.
    pub fn claimed(self) -> Claimed<'a>
        ensures bytes { result.bytes.now ≡ self.entry.bytes.now }
        ensures claim { result.claim ≡ self.entry.claim }
    {
        Claimed {
            bytes: self.bytes,
            claim: self.claim,
        }
    }

    // A step, the counts and an entry are those of any bytes, and free functions give them to a caller that has bytes alone. Here they have short names.
    pub fn step(self, i: u8) -> Step
        ensures { IsStep self.entry.bytes.now i result }
    {
        crate::step_at(self.bytes, i)
    }

    pub fn steps(self) -> u8
        ensures { result ≡ steps self.entry.bytes.now }
    {
        submission::steps(self.bytes)
    }

    pub fn entries(self) -> u8
        ensures { result ≡ entries self.entry.bytes.now }
    {
        submission::entries(self.bytes)
    }

    pub fn entry(self, i: u8) -> u8
        ensures { result ≡ entry_at self.entry.bytes.now i }
    {
        submission::entry_at(self.bytes, i)
    }

    // Whether the guess counts as known: where the claim's way claims a verifier.
    fn guess_counts(self) -> bool
        ensures { result ≡ guess_counts (row (way_is self.entry.claim.way)).claims }
    {
        self.claim.way.row().claims == Claims::Verifier
    }

    // The registers of the knowledge, then the guess's.
    pub fn registers(self) -> Registers
        ensures { Registered self.entry.bytes.now (written self.entry.bytes.now 0) result }
    {
        let mut registers = Registers::new();
        for i in 0..self.entries() {
            registers.hold(self.entry(i));
        }
        if self.guess_counts() {
            registers.hold(self.claim.guess);
        } else {
            registers.skip();
        }
        registers
    }

    // Check 7 of step i, with each term's lowest register before it: a premise has none.
    fn is_unfounded(self, registers: &Registers, i: u8) -> bool
        requires { Lowest self.bytes.now (written self.bytes.now i) registers.now.first }
        ensures { result ≡ unfounded self.entry.bytes.now i }
    {
        let step = self.step(i);
        registers.lowest(step.p).is_none() || registers.lowest(step.second()).is_none()
    }

    // Check 6 of step i, then its check 7.
    fn check_step(self, registers: &Registers, i: u8) -> Result<(), Refusal>
        requires { Lowest self.bytes.now (written self.bytes.now i) registers.now.first }
        ensures { check_of result ≡ check_step self.entry.bytes.now i }
    {
        let step = Fault::Step
            .at(u16::from(i))
            .when(crate::is_step_bad(self.bytes, i));
        let Ok(()) = step else {
            return step;
        };
        Fault::Unfounded
            .at(u16::from(i))
            .when(self.is_unfounded(registers, i))
    }

    // Checks 6 and 7, tried together, step by step: the registers after the last step, where all pass. Document 01 names the form, here and in
    // `check_step`: each stage's answer is taken apart by `let .. else`, and a refusal goes straight out.
    pub fn check_steps(self) -> Result<Registers, Refusal>
        ensures { StepsChecked self.entry.bytes.now result }
    {
        let mut registers = self.registers();
        for i in 0..self.steps() {
            let checked = self.check_step(&registers, i);
            let Ok(()) = checked else {
                return Err(checked.unwrap_err());
            };
            registers.hold(self.step(i).conclusion);
        }
        Ok(registers)
    }
}
