// The static library for C: the calls of `checker`, under the names that include/checker.h declares. Each is a function here that calls the one of
// `checker::calls` and says its clauses again: `no_mangle` on a function of a library exports nothing, and neither does a `pub use` here.
// Promises: of each call what the call of the same name in `checker` promises.
#![tactic(auto)]

ghost use Rattle.std.specs.Prelude.{◌≡◌};
ghost use Rattle.submission.specs.Body.{bodies};
ghost use Rattle.deduction.specs.Computed.{deducible_answer};
ghost use Rattle.machine.specs.Computed.{run_answer};
ghost use Rattle.witness.specs.Calls.{DeductionWritten};
ghost use Rattle.checker.specs.Calls.{encoded, Encoded, EncodedForm, EncodedInverses, EncodedPool, EncodedBodies};

use checker::calls;

#[unsafe(no_mangle)]
pub extern "C" fn checker_check(sub: &[u8], page: &mut [u8]) -> u32
    ensures { Encoded sub.now page.old result page.new }
{
    calls::checker_check(sub, page)
}

#[unsafe(no_mangle)]
pub extern "C" fn checker_deducible(sub: &[u8], term: u8) -> u32
    ensures { result ≡ encoded (deducible_answer sub.now term) }
{
    calls::checker_deducible(sub, term)
}

#[unsafe(no_mangle)]
pub extern "C" fn checker_deduction(sub: &[u8], term: u8, page: &mut [u8]) -> u32
    ensures { DeductionWritten (λ a. result ≡ encoded a) sub.now term page.old page.new }
{
    calls::checker_deduction(sub, term, page)
}

#[unsafe(no_mangle)]
pub extern "C" fn checker_run(sub: &[u8], name: u16, program: &[u8]) -> u32
    ensures { result ≡ encoded (run_answer sub.now name program.now) }
{
    calls::checker_run(sub, name, program)
}

#[unsafe(no_mangle)]
pub extern "C" fn checker_write(
    terms: &[u8],
    knowledge: &[u8],
    derivation: &[u8],
    claim: &[u8],
    page: &mut [u8],
) -> u32
    ensures { EncodedForm (bodies terms.now knowledge.now derivation.now claim.now) page.old result page.new }
{
    calls::checker_write(terms, knowledge, derivation, claim, page)
}

#[unsafe(no_mangle)]
pub extern "C" fn checker_inverses(sub: &[u8], page: &mut [u8]) -> u32
    ensures { EncodedInverses sub.now page.old result page.new }
{
    calls::checker_inverses(sub, page)
}

#[unsafe(no_mangle)]
pub extern "C" fn checker_join(first: &[u8], second: &[u8], page: &mut [u8]) -> u32
    ensures { EncodedPool first.now second.now page.old result page.new }
{
    calls::checker_join(first, second, page)
}

#[unsafe(no_mangle)]
pub extern "C" fn checker_read_back(sub: &[u8], program: &[u8], page: &mut [u8]) -> u32
    ensures { EncodedBodies sub.now program.now page.old result page.new }
{
    calls::checker_read_back(sub, program, page)
}
