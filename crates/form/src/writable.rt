// Bodies that passed checks 14 and 2, and the submission that is written from them.
ghost use Rattle.std.specs.Prelude.{◌≡◌, IfOk, length};
ghost use Rattle.base.specs.Words.{listed};
ghost use Rattle.base.specs.Code.{Wrote};
ghost use Rattle.base.specs.Code.{check_of};
ghost use Rattle.base.specs.Computed.{any, and_then, fails_if};
ghost use Rattle.submission.specs.Record.{start_of};
ghost use Rattle.submission.specs.Body.{records, contents, submission_of};
ghost use Rattle.submission.specs.Computed.{check_limits};
ghost use Rattle.form.specs.Computed.{ragged};
ghost use Rattle.form.specs.Code.{Writable, bodies_in};
ghost use Rattle.form.specs.Calls.{FormWritten};

use crate::bodies::Bodies;
use base::{Refusal, Writer};
use submission::{CONTENTS_SIZE, LETTERS};

// Whole bodies within their limits.
#[derive(Clone, Copy)]
pub struct WritableBodies<'a> {
    bodies: Bodies<'a>,
    ghost writable: { Writable (bodies_in bodies) },
}

impl<'a> WritableBodies<'a> {
    // Bodies that pass checks 14 and 2.
    pub fn read(bodies: Bodies<'a>) -> Result<Self, Refusal>
        ensures answer { check_of result ≡ and_then (fails_if (any (ragged (bodies_in bodies.entry)) 4) 14 0) (check_limits (records (bodies_in bodies.entry))) }
        ensures same { IfOk result (λ w. bodies_in w.bodies ≡ bodies_in bodies.entry) }
    {
        bodies.check_whole()?;
        submission::check_limits(bodies.counts())?;
        Ok(WritableBodies { bodies })
    }

    // Where each body starts: the first behind the contents, each later one where the former ends.
    fn starts(self) -> [usize; 4]
        ensures { result ≡ listed (start_of (records (bodies_in self.entry.bodies))) 4 }
    {
        let knowledge = CONTENTS_SIZE + self.bodies.terms.len();
        let derivation = knowledge + self.bodies.knowledge.len();
        let claim = derivation + self.bodies.derivation.len();
        [CONTENTS_SIZE, knowledge, derivation, claim]
    }

    // The submission's length.
    fn length(self) -> u16
        ensures { result ≡ length (submission_of (bodies_in self.entry.bodies)) }
    {
        u16::try_from(self.starts()[3] + self.bodies.claim.len()).unwrap()
    }

    // The contents: for each body a letter, a one-byte count and a two-byte start, high byte first.
    fn put_contents(self, page: &mut Writer)
        ensures { Wrote page.old (contents (records (bodies_in self.entry.bodies))) page.new }
    {
        let counts = self.bodies.counts();
        let starts = self.starts();
        for (letter, (count, start)) in LETTERS.iter().zip(counts.iter().zip(&starts)) {
            let [high, low] = u16::try_from(*start).unwrap().to_be_bytes();
            page.put_array([*letter, u8::try_from(*count).unwrap(), high, low]);
        }
    }

    // The contents, then the bodies.
    fn put(self, page: &mut Writer)
        ensures { Wrote page.old (submission_of (bodies_in self.entry.bodies)) page.new }
    {
        self.put_contents(page);
        page.put_all(self.bodies.terms);
        page.put_all(self.bodies.knowledge);
        page.put_all(self.bodies.derivation);
        page.put_all(self.bodies.claim);
    }

    // Writes the submission, where the page has room: check 11.
    pub fn write(self, page: &mut [u8]) -> Result<u16, Refusal>
        ensures { FormWritten (bodies_in self.entry.bodies) page.old result page.new }
    {
        let length = self.length();
        base::check_room(page.len(), length)?;
        let mut writer = Writer::new(page);
        self.put(&mut writer);
        Ok(length)
    }
}
