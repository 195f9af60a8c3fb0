// The public calls together: `check`, `answer`, `deducible`, `deduction`, `run`, `write`, `inverses`, `join` and `read_back`, the text of a
// verdict, and the calls for C.
// Promises: every call is total, for all bytes, and its answer and the bytes that it writes are what the definitions of specs/ give.
#![tactic(auto)]

pub mod calls;

ghost use Rattle.std.specs.Prelude.{replicate};
ghost use Rattle.conditions.specs.Calls.{Checked};
ghost use Rattle.checker.specs.Calls.{Printed};

use conditions::Verdict;
pub use conditions::{answer, check};
pub use deduction::deducible;
pub use form::write;
pub use inverse::inverses;
pub use machine::run;
pub use pool::join;
pub use readback::read_back;
pub use witness::deduction;

// The text of a verdict, with the program on its page of 388 bytes.
fn write_text(s: &[u8], verdict: Verdict, page: &[u8], out: &mut [u8]) -> usize
    requires { Checked s.now (replicate 388 0) verdict page.now }
    ensures { Printed s.now out.old result out.new }
{
    let known = submission::entries(s);
    match verdict {
        Verdict::Accepted(n) => text::write_accepted(out, known, n, page),
        Verdict::Refused { number, place } => text::write_refused(out, number, place),
    }
}

// Writes what `verdict` prints of the submission into the buffer, as far as it reaches, and gives the count of bytes written.
// A buffer of 4,096 bytes takes every text whole.
pub fn write_verdict(s: &[u8], out: &mut [u8]) -> usize
    ensures { Printed s.now out.old result out.new }
{
    let mut page = [0u8; 388];
    let verdict = check(s, &mut page);
    write_text(s, verdict, &page, out)
}
