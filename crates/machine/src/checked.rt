// A submission and a program over it that passed the checks before a run.
ghost use Rattle.std.specs.Prelude.{◌≡◌, false, IfOk};
ghost use Rattle.std.proofs.Math.Option.{some};
ghost use Rattle.base.specs.Code.{check_of};
ghost use Rattle.base.specs.Computed.{fails_if, and_then};
ghost use Rattle.term.specs.Code.{relation_is};
ghost use Rattle.submission.specs.Computed.{checks1to5};
ghost use Rattle.program.specs.Program.{relation_of, test_at};
ghost use Rattle.program.specs.Computed.{bad_program};

use base::Refusal;
use submission::Submission;
use term::Relation;

// A submission that passed checks 1 to 5, a program over it that passed check 13, and the relation that its test asks for.
#[derive(Clone, Copy)]
pub struct CheckedProgram<'a> {
    pub submission: Submission<'a>,
    pub program: &'a [u8],
    pub relation: Relation,
    pub ghost good: { bad_program submission.bytes.now program.now ≡ false },
    pub ghost asks: { relation_of (test_at program.now).rule ≡ some (relation_is relation) },
}

impl<'a> CheckedProgram<'a> {
    // Checks 1 to 5 and 13.
    pub fn read(s: &'a [u8], program: &'a [u8]) -> Result<Self, Refusal>
        ensures answer { check_of result ≡ and_then (checks1to5 s.now) (fails_if (bad_program s.now program.now) 13 0) }
        ensures submission { IfOk result (λ c. c.submission.bytes.now ≡ s.now) }
        ensures program { IfOk result (λ c. c.program.now ≡ program.now) }
    {
        let submission = Submission::read(s)?;
        let relation = program::check_program(s, program)?;
        Ok(CheckedProgram {
            submission,
            program,
            relation,
        })
    }
}
