// A submission written from its four bodies, as the intake form holds them: document 02, A1.
// Promises: every function is total, and its answer and the page's later bytes are what the definitions of specs/ give.
#![tactic(auto)]

ghost use Rattle.submission.specs.Body.{bodies};
ghost use Rattle.form.specs.Calls.{FormWritten};

pub mod bodies;
mod writable;

use base::Refusal;
pub use bodies::Bodies;
use writable::WritableBodies;

// Writes the submission of the four bodies to the page's start, contents first, and answers its length. Only an acceptance writes.
// It asks four slices, as the C interface hands them on.
pub fn write(
    terms: &[u8],
    knowledge: &[u8],
    derivation: &[u8],
    claim: &[u8],
    page: &mut [u8],
) -> Result<u16, Refusal>
    ensures { FormWritten (bodies terms.now knowledge.now derivation.now claim.now) page.old result page.new }
{
    let bodies = Bodies {
        terms,
        knowledge,
        derivation,
        claim,
    };
    WritableBodies::read(bodies)?.write(page)
}
