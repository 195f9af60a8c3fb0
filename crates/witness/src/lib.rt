// The deduction of a term, shown: a derivation in step records, written to a page.
// Promises: `deduction` is total, for all bytes and a page of any length; its answer is what the definition `deduction_answer` gives, yes exactly when
// some finite list of Dolev-Yao steps reaches the term from the knowledge; and the steps that it writes are such a list (`Deduction`).
// Cost, for T terms: the working of `deduction::reach_all`, then two passes over the terms that are reached.
#![tactic(auto)]

ghost use Rattle.std.specs.Prelude.{◌≡◌, ◌<◌, ◌≤◌, length};
ghost use Rattle.base.specs.Answer.{answer_of};
ghost use Rattle.submission.specs.Record.{terms};
ghost use Rattle.witness.specs.Calls.{DeductionWritten};
ghost use Rattle.witness.specs.Code.{answer_shown};

mod marked;

use base::{Fault, Refusal};
use deduction::{Openings, Worklist};
use marked::Marked;
use submission::Table;

// The deduction of term t on the page, and the count of its steps, where it is deducible.
fn show(openings: &Openings, t: u8, page: &mut [u8]) -> Option<u16>
    requires t_bound { t < terms openings.now.table.bytes.now }
    requires in_bounds { 1000 ≤ length page.old }
    ensures { DeductionWritten (λ a. answer_shown result ≡ a) openings.now.table.bytes.now t page.old page.new }
{
    let start = deduction::knowledge_marks(openings.table.bytes);
    let mut work = Worklist::new();
    deduction::reach_all(openings, &start, &mut work);
    let mark = work.marks[usize::from(t)];
    if mark.is_none() {
        return None;
    }
    let marked = Marked {
        openings,
        work: &work,
    };
    Some(marked.show(t, page))
}

// Whether term t is deducible from the knowledge of the submission: 0 for no, which writes nothing, and for yes 1 + the count of the steps of a
// derivation of it, which are then at the page's start; or the refusal of the first of checks 1 to 4, 12 and 19 that fails. A page that is not
// refused has room for as many steps as there are terms.
// A number, as `run` and the calls for C answer: one `encode` serves all.
pub fn deduction(s: &[u8], t: u8, page: &mut [u8]) -> Result<u16, Refusal>
    ensures { DeductionWritten (λ a. answer_of result ≡ a) s.now t page.old page.new }
{
    let table = Table::read(s)?;
    table.check_term(t)?;
    Fault::ShortSheet.at(1000).when(page.len() < 1000)?;
    let mut inverses = [None; 256];
    let openings = Openings::of(table, &mut inverses);
    let Some(count) = show(&openings, t, page) else {
        return Ok(0);
    };
    Ok(1 + count)
}
