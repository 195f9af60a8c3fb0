// Deducibility over all terms, from the knowledge or from any marked terms.
// Promises: every function is total, for all bytes, and `deducible` answers what the definition `deducible_answer` gives, which is yes
// exactly when some finite list of Dolev-Yao steps reaches the term from the knowledge. `reach_all` marks exactly the terms that are deducible,
// each with the record that it comes from, in an order in which it comes after what it was reached from.
// Cost, for T terms: the inverses are found first, in one pass (`inverse::find`). A term is marked at most once, and treated once when it is: its
// record is opened, and the records that wait for it are looked at, for it as the key that opens them and, where a compound term is a key,
// as a part to be built from. A record waits for one key and two parts, so it is looked at four times at most. The build test keeps its
// answers, so it decides each term once. So the cost grows as T does.
#![tactic(auto)]

pub mod chains;
pub mod opening;
pub mod saturation;
pub mod worklist;

ghost use Rattle.std.specs.Prelude.{◌≡◌, ◌&&◌, ◌<◌, replicate, None};
ghost use Rattle.submission.specs.Record.{terms};
ghost use Rattle.base.specs.Answer.{answer_of};
ghost use Rattle.deduction.specs.Computed.{built, entry_marks, is_deducible, deducible_answer};
ghost use Rattle.deduction.specs.Code.{reached_of, SameMarks, Memo, Unbuilt};
ghost use Rattle.deduction.specs.Saturation.{Exact};

use base::Refusal;
pub use chains::chain_records;
pub use opening::{Clause, Opening, Openings, Role, parts_of};
pub use saturation::{has_compound_key, reach_all};
use submission::Table;
pub use worklist::{Origin, Worklist};

// True at each term of the knowledge. Of a start that flags terms, those of numbers that are not below T count for nothing.
pub fn knowledge_marks(s: &[u8]) -> [bool; 256]
    ensures { SameMarks s.now result (entry_marks s.now) }
{
    let mut marks = [false; 256];
    let n = submission::entries(s);
    for i in 0..n {
        marks[usize::from(submission::entry_at(s, i))] = true;
    }
    marks
}

// ---- The build test.

// A table, and the marks over which its terms are built.
#[derive(Clone, Copy)]
struct Known<'a> {
    pub table: Table<'a>,
    pub marks: &'a [Option<Origin>; 256],
}

impl Known<'_> {
    // Whether term t can be built, which the memo keeps where it is decided. The parts of t are earlier records, so the number falls, and each term
    // is decided once. All but the number is lent, so that a call holds little: terms nest 250 deep.
    fn build(&self, memo: &mut [Option<bool>; 256], t: u8) -> bool
        requires t_bound { t < terms self.now.table.bytes.now }
        requires memo { Memo self.now.table.bytes.now self.now.marks.now memo.old }
        ensures memo { Memo self.now.table.bytes.now self.now.marks.now memo.new }
        ensures built { result ≡ built self.now.table.bytes.now (reached_of self.now.marks.now) t }
    {
        let i = usize::from(t);
        if let Some(decided) = memo[i] {
            return decided;
        }
        if self.marks[i].is_some() {
            memo[i] = Some(true);
            return true;
        }
        let Some((x, y)) = parts_of(self.table, t) else {
            memo[i] = Some(false);
            return false;
        };
        let answer = self.build(memo, x) && self.build(memo, y);
        memo[i] = Some(answer);
        answer
    }

    // Whether term k is an atom that is not known: that cannot be built.
    #[tactic(auto, using(crate::proofs::BuildMemo::not_missing, crate::proofs::BuildMemo::missing))]
    fn is_missing(self, k: u8) -> bool
        requires { k < terms self.table.bytes.now }
        ensures { Unbuilt self.entry.table.bytes.now self.entry.marks.now k result }
    {
        if self.marks[usize::from(k)].is_some() {
            return false;
        }
        let parts = parts_of(self.table, k);
        parts.is_none()
    }

    // Whether the terms p and q can both be built. Where both are marked, or one is an atom that is missing, no memo is made; else each term is
    // decided once.
    #[tactic(auto, using(crate::proofs::BuildMemo::both_marked))]
    fn are_built(self, p: u8, q: u8) -> bool
        requires p_bound { p < terms self.table.bytes.now }
        requires q_bound { q < terms self.table.bytes.now }
        ensures { result ≡ (built self.entry.table.bytes.now (reached_of self.entry.marks.now) p && built self.entry.table.bytes.now (reached_of self.entry.marks.now) q) }
    {
        if self.marks[usize::from(p)].is_some() && self.marks[usize::from(q)].is_some() {
            return true;
        }
        if self.is_missing(p) {
            return false;
        }
        if self.is_missing(q) {
            return false;
        }
        let mut memo = [None; 256];
        self.build(&mut memo, p) && self.build(&mut memo, q)
    }
}

// ---- The calls.

// Finds the inverses, and marks what taking apart reaches from the terms that `start` marks: the terms that are deducible from these are those that can
// be built over the marks, of terms that are reached. The marks of numbers that are no terms count for nothing.
fn saturate_from(table: Table, start: &[bool; 256], work: &mut Worklist)
    requires marks { work.old.marks ≡ replicate 256 None }
    requires end { work.old.end ≡ 0 }
    ensures { Exact table.entry.bytes.now start.now work.new.marks }
{
    let mut inverses = [None; 256];
    let openings = Openings::of(table, &mut inverses);
    saturation::saturate(&openings, start, work);
}

// Whether the terms p and q are both deducible from the terms that `start` marks. The terms are taken apart once.
#[tactic(auto, using(crate::proofs::CallReturns::both_deducible))]
pub fn are_deducible(table: Table, start: &[bool; 256], p: u8, q: u8) -> bool
    requires p_bound { p < terms table.bytes.now }
    requires q_bound { q < terms table.bytes.now }
    ensures { result ≡ (is_deducible table.entry.bytes.now start.now p && is_deducible table.entry.bytes.now start.now q) }
{
    let mut work = Worklist::new();
    saturate_from(table, start, &mut work);
    let known = Known {
        table,
        marks: &work.marks,
    };
    known.are_built(p, q)
}

// Whether term t is deducible from the knowledge.
fn is_deducible(table: Table, t: u8) -> bool
    requires { t < terms table.bytes.now }
    ensures { result ≡ is_deducible table.entry.bytes.now (entry_marks table.entry.bytes.now) t }
{
    // Twice the one term: the second time it is decided.
    are_deducible(table, &knowledge_marks(table.bytes), t, t)
}

// Whether term t is deducible from the knowledge of the submission: 1 for yes, 0 for no. A number, as `run` and the calls for C answer: one `encode`
// serves all.
#[tactic(auto, unfolding(crate::specs::Computed::deducible_answer))]
pub fn deducible(s: &[u8], t: u8) -> Result<u16, Refusal>
    ensures { answer_of result ≡ deducible_answer s.now t }
{
    let table = Table::read(s)?;
    table.check_term(t)?;
    Ok(u16::from(is_deducible(table, t)))
}
