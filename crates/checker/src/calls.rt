// The calls for C, as a program in Rattle may make them too: an answer is one number. A refusal is number * 65536 + place; what is done is its value.
// The static library `checker_c` exports each under the same name by a function of its own: C sees what a static library exports and nothing of the
// libraries below it, and no program can use a static library.
ghost use Rattle.std.specs.Prelude.{◌≡◌};
ghost use Rattle.base.specs.Answer.{answer_of};
ghost use Rattle.submission.specs.Body.{bodies};
ghost use Rattle.deduction.specs.Computed.{deducible_answer};
ghost use Rattle.machine.specs.Computed.{run_answer};
ghost use Rattle.witness.specs.Calls.{DeductionWritten};
ghost use Rattle.checker.specs.Calls.{encoded, Encoded, EncodedForm, EncodedInverses, EncodedPool, EncodedBodies};

use base::Refusal;

// An answer as one number. A `From` for u32 of a Result can't be written here: both types are std's.
fn encode(answer: Result<u16, Refusal>) -> u32
    ensures { result ≡ encoded (answer_of answer) }
{
    match answer {
        Ok(n) => u32::from(n),
        Err(refusal) => u32::from(refusal.fault.number()) * 65536 + u32::from(refusal.place),
    }
}

pub fn checker_check(sub: &[u8], page: &mut [u8]) -> u32
    ensures { Encoded sub.now page.old result page.new }
{
    encode(conditions::answer(sub, page))
}

pub fn checker_deducible(sub: &[u8], term: u8) -> u32
    ensures { result ≡ encoded (deducible_answer sub.now term) }
{
    encode(deduction::deducible(sub, term))
}

pub fn checker_deduction(sub: &[u8], term: u8, page: &mut [u8]) -> u32
    ensures { DeductionWritten (λ a. result ≡ encoded a) sub.now term page.old page.new }
{
    encode(witness::deduction(sub, term, page))
}

pub fn checker_run(sub: &[u8], name: u16, program: &[u8]) -> u32
    ensures { result ≡ encoded (run_answer sub.now name program.now) }
{
    encode(machine::run(sub, name, program))
}

pub fn checker_write(
    terms: &[u8],
    knowledge: &[u8],
    derivation: &[u8],
    claim: &[u8],
    page: &mut [u8],
) -> u32
    ensures { EncodedForm (bodies terms.now knowledge.now derivation.now claim.now) page.old result page.new }
{
    encode(form::write(terms, knowledge, derivation, claim, page))
}

pub fn checker_inverses(sub: &[u8], page: &mut [u8]) -> u32
    ensures { EncodedInverses sub.now page.old result page.new }
{
    encode(inverse::inverses(sub, page))
}

pub fn checker_join(first: &[u8], second: &[u8], page: &mut [u8]) -> u32
    ensures { EncodedPool first.now second.now page.old result page.new }
{
    encode(pool::join(first, second, page))
}

pub fn checker_read_back(sub: &[u8], program: &[u8], page: &mut [u8]) -> u32
    ensures { EncodedBodies sub.now program.now page.old result page.new }
{
    encode(readback::read_back(sub, program, page))
}
