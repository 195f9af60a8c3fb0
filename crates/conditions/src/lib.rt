// The verdict on a submission: the five conditions, or that the guess or its inverse is derived, and the register program of an accepted one.
// Promises: every call is total, and its answer and the page's later bytes are what the definitions of specs/ give.
#![tactic(auto)]

mod conditions;
mod given;
mod page;
mod verifier;

ghost use Rattle.std.specs.Prelude.{◌≡◌};
ghost use Rattle.base.specs.Answer.{answer_of};
ghost use Rattle.conditions.specs.Calls.{verdict_answer, ProgramWritten, Checked};

use base::Refusal;
use conditions::Founded;
use derivation::Derivation;
use page::Acceptable;
use submission::Submission;

// An acceptance carries the count of steps, a refusal its number and place. Document 01 names this form.
#[derive(Clone, Copy, PartialEq, Eq)]
pub enum Verdict {
    Accepted(u8),
    Refused { number: u8, place: u16 },
}

// A result of checking as its verdict.
impl From<Result<u8, Refusal>> for Verdict {
    ghost from_gives = { λ r v. verdict_answer v ≡ answer_of r };

    fn from(checked: Result<u8, Refusal>) -> Self {
        match checked {
            Ok(count) => Verdict::Accepted(count),
            Err(refusal) => Verdict::Refused {
                number: refusal.fault.number(),
                place: refusal.place,
            },
        }
    }
}

// Accepts a submission that passed all checks before 11, where the page has room: writes the register program at the page's start.
#[tactic(auto, using(crate::proofs::Theory::ProgramRun::program_bytes), unfolding(crate::specs::Computed::check_answer))]
fn accept(passed: Acceptable, page: &mut [u8]) -> Result<u8, Refusal>
    ensures { ProgramWritten passed.entry.founded.derivation.bytes.now page.old result page.new }
{
    let count = passed.founded.derivation.steps();
    let room = base::check_room(page.len(), program::program_length(count));
    let Ok(()) = room else {
        return Err(room.unwrap_err());
    };
    passed.write_program(page);
    Ok(count)
}

// The checks in order: the count of steps of an accepted submission. Document 01 names the form, here, in `accept` and in `check_conditions`: each
// stage's answer is taken apart by `let .. else`, and a refusal goes straight out.
#[tactic(auto, unfolding(crate::specs::Computed::check_answer, crate::specs::Computed::checks_before_page))]
fn count_accepted(s: &[u8], page: &mut [u8]) -> Result<u8, Refusal>
    ensures { ProgramWritten s.now page.old result page.new }
{
    let reading = Submission::read(s);
    let Ok(submission) = reading else {
        return Err(reading.unwrap_err());
    };
    let derivation = Derivation::from(submission);
    let steps = derivation.check_steps();
    let Ok(registers) = &steps else {
        return Err(steps.unwrap_err());
    };
    let founded = Founded {
        derivation,
        registers,
    };
    let met = founded.check_met();
    let Ok(()) = met else {
        return Err(met.unwrap_err());
    };
    accept(Acceptable { founded }, page)
}

// Checks a submission. Only an acceptance writes: the register program, at the page's start.
pub fn check(s: &[u8], page: &mut [u8]) -> Verdict
    ensures { Checked s.now page.old result page.new }
{
    Verdict::from(count_accepted(s, page))
}

// The verdict as a `Result`, from the bytes, as the other calls answer: an acceptance is its count of steps, a refusal its check and place.
pub fn answer(s: &[u8], page: &mut [u8]) -> Result<u16, Refusal>
    ensures { ProgramWritten s.now page.old result page.new }
{
    Ok(u16::from(count_accepted(s, page)?))
}
