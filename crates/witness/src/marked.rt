// A table whose terms are marked by how they were reached: the step that concludes each, and the steps that lead to one of them.
ghost use Rattle.std.specs.Prelude.{◌≡◌, ◌<◌, ◌≤◌, length, suc, true, is_some};
ghost use Rattle.term.specs.Number.{shape_of};
ghost use Rattle.term.specs.Code.{builder_of};
ghost use Rattle.base.specs.Words.{sets};
ghost use Rattle.base.specs.Answer.{done};
ghost use Rattle.submission.specs.Record.{terms, kind_at};
ghost use Rattle.deduction.specs.Code.{mark_of, Reached};
ghost use Rattle.deduction.specs.Saturation.{Holds, Queue};
ghost use Rattle.witness.specs.Calls.{DeductionWritten};
ghost use Rattle.witness.specs.Code.{built_step, opening_rule, part_step, with_step, StepFrom, step_from, step_by, StartedOrHasStep, HaveSteps, ChosenOne, Chosen, FromKnowledge, steps_bytes};

use base::Writer;
use deduction::{Opening, Openings, Origin, Worklist};
use derivation::Step;
use submission::{Table, Term};
use term::{Kind, rules};

// A table, what opens its records, and the terms that were reached.
#[derive(Clone, Copy)]
pub struct Marked<'a> {
    pub openings: &'a Openings<'a>,
    pub work: &'a Worklist,
}

impl<'a> Marked<'a> {
    // The step by which term n comes from record u: it is built, or taken from what opens u.
    #[tactic(auto, unfolding(crate::specs::Code::step_from))]
    fn step_from(self, u: u8, n: u8) -> Step
        requires { StepFrom self.openings.now.table.bytes.now u n }
        ensures { result ≡ step_from self.entry.openings.now.table.bytes.now u n }
    {
        if u == n {
            return built_step(self.openings.table, n);
        }
        match self.openings.opening_of(u).unwrap() {
            Opening::Freely { x, y: _ } => part_step(u, x, n),
            Opening::With { body: _, key } => with_step(self.openings.table, u, key, n),
        }
    }

    // The step that concludes term n, as its mark says: a term that is from the start has none.
    fn concluding_step(self, n: u8) -> Option<Step>
        requires { StartedOrHasStep self.openings.now.table.bytes.now self.work.now.marks n }
        ensures { result ≡ step_by self.entry.openings.now.table.bytes.now n (mark_of self.entry.work.now.marks n) }
    {
        let mark = self.work.marks[usize::from(n)];
        let Some(Origin::Record(u)) = mark else {
            return None;
        };
        Some(self.step_from(u, n))
    }

    // That t is a term and that it is reached stand in a line each, as in the crate deduction: most goals need one alone.
    // The terms whose steps lead to term t, which is reached: each comes after the premises of its step, and t is the last. A term that is from the
    // start has no step.
    fn choose(self, t: u8) -> Choice
        requires queue { Holds (Queue self.openings.now.table.bytes.now) self.work.now }
        requires t_bound { t < terms self.openings.now.table.bytes.now }
        requires reached { Reached self.work.now.marks t }
        ensures { Chosen self.entry.openings.now.table.bytes.now self.entry.work.now.marks t result.chosen result.from }
    {
        let mut choice = Choice {
            needed: [false; 256],
            chosen: [0; 256],
            from: 256,
        };
        choice.needed[usize::from(t)] = true;
        for n in self.work.order[..self.work.end].iter().rev() {
            choice.choose(self, *n);
        }
        choice
    }

    // The records of the steps of these terms.
    fn put_steps(self, chosen: &[u8], page: &mut [u8])
        requires { HaveSteps self.openings.now.table.bytes.now self.work.now.marks chosen.now }
        ensures { page.new ≡ sets page.old 0 (steps_bytes self.entry.openings.now.table.bytes.now self.entry.work.now.marks chosen.now) }
    {
        let mut writer = Writer::new(page);
        for n in chosen {
            let step = self.concluding_step(*n).unwrap();
            writer.put_array([step.rule, step.p, step.q, step.conclusion]);
        }
    }

    // The deduction of term t, which is reached, on the page, and the count of its steps.
    pub(crate) fn show(self, t: u8, page: &mut [u8]) -> u16
        requires from_knowledge { Holds (FromKnowledge self.openings.now.table.bytes.now) self.work.now }
        requires t_bound { t < terms self.openings.now.table.bytes.now }
        requires reached { Reached self.work.now.marks t }
        requires in_bounds { 1000 ≤ length page.old }
        ensures { DeductionWritten (λ a. done (suc result) ≡ a) self.entry.openings.now.table.bytes.now t page.old page.new }
    {
        let choice = self.choose(t);
        let chosen = &choice.chosen[choice.from..];
        self.put_steps(chosen, page);
        u16::try_from(chosen.len()).unwrap()
    }
}

// The terms chosen so far stand in `chosen` from `from` on, and what is needed to conclude them is noted. An array and a place, since the project
// uses no heap: it is memory of a fixed size.
#[derive(Drop)]
struct Choice {
    pub needed: [bool; 256],
    pub chosen: [u8; 256],
    pub from: usize,
}

impl Choice {
    // Puts term n before those that were chosen, and notes the premises of its step as needed, where it is needed itself and not from the start.
    #[tactic(auto, unfolding(submission::specs::Record::second_for))]
    fn choose(&mut self, marked: Marked, n: u8)
        requires started_or_has_step { StartedOrHasStep marked.openings.now.table.bytes.now marked.work.now.marks n }
        requires from_nonzero { 0 < self.old.from }
        requires from_bound { self.old.from ≤ 256 }
        ensures { ChosenOne marked.entry.openings.now.table.bytes.now marked.entry.work.now.marks n self.old self.new }
    {
        if !self.needed[usize::from(n)] {
            return;
        }
        let Some(step) = marked.concluding_step(n) else {
            return;
        };
        self.needed[usize::from(step.p)] = true;
        self.needed[usize::from(step.second())] = true;
        self.from -= 1;
        self.chosen[self.from] = n;
    }
}

// The step that builds term n of its parts.
fn built_step(table: Table, n: u8) -> Step
    requires { is_some (builder_of (shape_of (kind_at table.bytes.now n))) ≡ true }
    ensures { result ≡ built_step table.entry.bytes.now n }
{
    let term = table.term(n);
    Step {
        rule: term.rule().unwrap(),
        p: term.x,
        q: term.y,
        conclusion: n,
    }
}

// The rule that opens an encryption.
#[tactic(auto, using(crate::proofs::StepsFrom::is_enc))]
fn opening_rule(term: Term) -> u8
    ensures { result ≡ opening_rule term.kind }
{
    if term.kind() == Some(Kind::Enc) {
        rules::DEC
    } else {
        rules::DECA
    }
}

// The step that takes term n from the pair u, whose first part is x.
fn part_step(u: u8, x: u8, n: u8) -> Step
    ensures { result ≡ part_step u x n }
{
    let rule = if x == n { rules::FST } else { rules::SND };
    Step {
        rule,
        p: u,
        q: 0,
        conclusion: n,
    }
}

// The step that opens the encryption u with this key.
fn with_step(table: Table, u: u8, key: u8, n: u8) -> Step
    ensures { result ≡ with_step table.entry.bytes.now u key n }
{
    Step {
        rule: opening_rule(table.term(u)),
        p: u,
        q: key,
        conclusion: n,
    }
}
