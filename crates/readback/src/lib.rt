// From a program back to its derivation and its claim: document 02, A6.
// Promises: every function is total, for all bytes, and its answer and the page's later bytes are what the definitions of specs/ give.
#![tactic(auto)]

ghost use Rattle.std.specs.Prelude.{◌≡◌, ◌≤◌};
ghost use Rattle.base.specs.Words.{first, byte as byte_at};
ghost use Rattle.base.specs.Code.{check_of};
ghost use Rattle.base.specs.Computed.{fails_at, fails_if};
ghost use Rattle.derivation.specs.Step.{written};
ghost use Rattle.program.specs.Program.{test_at};
ghost use Rattle.program.specs.Code.{test_in};
ghost use Rattle.machine.specs.Code.{RegisterNumbers};
ghost use Rattle.readback.specs.ReadBack.{bodies_length};
ghost use Rattle.readback.specs.Computed.{off_table, no_claim};
ghost use Rattle.readback.specs.Calls.{BodiesWritten};

mod readable;

use base::{Fault, Refusal, byte};
use machine::CheckedProgram;
use program::Test;
use readable::Readable;

// ---- Checks 17 and 18.

// How many registers a program writes and begins with.
#[tactic(auto, using(crate::proofs::ReadReturns::few_registers))]
fn register_count(checked: CheckedProgram) -> u16
    ensures few { result ≤ 256 }
    ensures count { result ≡ written checked.entry.submission.bytes.now (byte_at checked.entry.program.now 0) }
{
    let known = submission::entries(checked.submission.bytes);
    u16::from(known) + 1 + u16::from(byte(checked.program, 0))
}

// Check 17: the first register whose term isn't listed.
fn check_listed(checked: CheckedProgram, numbers: &[u16; 256]) -> Result<(), Refusal>
    requires { RegisterNumbers checked.submission.bytes.now checked.program.now numbers.now }
    ensures { check_of result ≡ fails_at 17 (first (off_table checked.entry.submission.bytes.now checked.entry.program.now) (written checked.entry.submission.bytes.now (byte_at checked.entry.program.now 0))) }
{
    let terms = u16::from(submission::terms(checked.submission.bytes));
    Fault::OffTable.at_first((0..register_count(checked)).find(|r| terms
        <= numbers[usize::from(*r)]))
}

// Whether the test's first register is a knowledge register, or both are the guess's.
fn is_unclaimed(checked: CheckedProgram, t: Test) -> bool
    ensures { result ≡ no_claim checked.entry.submission.bytes.now (test_in t) }
{
    let known = submission::entries(checked.submission.bytes);
    t.left < known || t.left == known && t.right == known
}

// Check 18.
fn check_claimed(checked: CheckedProgram) -> Result<(), Refusal>
    ensures { check_of result ≡ fails_if (no_claim checked.entry.submission.bytes.now (test_at checked.entry.program.now)) 18 0 }
{
    Fault::NoClaim
        .at(0)
        .when(is_unclaimed(checked, program::test_at(checked.program)))
}

// ---- The call.

// The length of the two bodies of a program of n instructions.
fn bodies_length(n: u8) -> u16
    ensures { result ≡ bodies_length n }
{
    4 * u16::from(n) + 4
}

// Writes the derivation and then the claim of a program over the submission's terms, knowledge and guess to the page's start, and answers
// their length; or the refusal of the first of checks 1 to 5, 13, 17, 18 and 11 that fails. Only an acceptance writes.
#[tactic(auto, unfolding(crate::specs::Computed::read_back_answer))]
pub fn read_back(s: &[u8], program: &[u8], page: &mut [u8]) -> Result<u16, Refusal>
    ensures { BodiesWritten s.now program.now page.old result page.new }
{
    let checked = CheckedProgram::read(s, program)?;
    let numbers = machine::register_numbers(checked.submission.bytes, checked.program);
    Readable::read(checked, &numbers)?.write(page)
}
