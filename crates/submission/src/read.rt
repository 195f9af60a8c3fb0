// A submission's bytes that passed checks 1 to 4, their claim, decoded, and bytes that passed checks 1 to 5.
ghost use Rattle.std.specs.Prelude.{◌≡◌, ◌<◌, IfOk, IfErr, not};
ghost use Rattle.base.specs.Words.{none, some, ltb};
ghost use Rattle.base.specs.Computed.{fails_if};
ghost use Rattle.base.specs.Code.{check_of};
ghost use Rattle.term.specs.Number.{shape_of};
ghost use Rattle.term.specs.Code.{kind_is};
ghost use Rattle.submission.specs.Record.{terms, entries, entry_at, kind_at, way_at};
ghost use Rattle.submission.specs.Check.{way_of};
ghost use Rattle.submission.specs.Computed.{guess_fits, claim_fits, good_claim, checks1to4, checks1to5};
ghost use Rattle.submission.specs.Code.{TableRead, SubmissionRead, IsTerm, IsClaim, claims_is};

use crate::{Claim, Claims, Target, Term, UnknownWay, Way};
use base::{Fault, Refusal};
use term::Kind;

// The bytes of a submission that passed checks 1 to 4.
#[derive(Clone, Copy)]
pub struct Table<'a> {
    pub bytes: &'a [u8],
    pub ghost read: { TableRead bytes.now },
}

impl<'a> Table<'a> {
    // Bytes that pass checks 1 to 4.
    pub fn read(bytes: &'a [u8]) -> Result<Self, Refusal>
        ensures answer { check_of result ≡ checks1to4 bytes.now }
        ensures same { IfOk result (λ t. t.bytes.now ≡ bytes.now) }
    {
        crate::check_body(bytes)?;
        Ok(Table { bytes })
    }

    // Free functions have the same for bytes alone: checks 1 to 5 ask before there is a table, and who holds a claim has none.
    pub fn terms(self) -> u8
        ensures { result ≡ terms self.entry.bytes.now }
    {
        crate::terms(self.bytes)
    }

    pub fn entries(self) -> u8
        ensures { result ≡ entries self.entry.bytes.now }
    {
        crate::entries(self.bytes)
    }

    pub fn term(self, i: u8) -> Term
        ensures { IsTerm self.entry.bytes.now i result }
    {
        crate::term_at(self.bytes, i)
    }

    // The kind of term i: that of a listed term is one.
    pub fn kind(self, i: u8) -> Kind
        requires { i < terms self.bytes.now }
        ensures { shape_of (kind_at self.entry.bytes.now i) ≡ some (kind_is result) }
    {
        self.term(i).kind().unwrap()
    }

    pub fn entry(self, i: u8) -> u8
        ensures { result ≡ entry_at self.entry.bytes.now i }
    {
        crate::entry_at(self.bytes, i)
    }

    // Check 12.
    pub fn check_term(self, t: u8) -> Result<(), Refusal>
        ensures { check_of result ≡ fails_if (not (ltb t (terms self.entry.bytes.now))) 12 0 }
    {
        Fault::NoSuchTerm.at(0).when(self.terms() <= t)
    }
}

// Any bytes whose claim's letter is a way's, and the claim.
#[derive(Clone, Copy)]
pub struct Claimed<'a> {
    pub bytes: &'a [u8],
    pub claim: Claim,
    pub ghost claimed: { IsClaim bytes.now claim },
}

impl<'a> Claimed<'a> {
    // The claim's four bytes, the way decoded.
    pub fn of(bytes: &'a [u8]) -> Result<Self, UnknownWay>
        ensures same { IfOk result (λ c. c.bytes.now ≡ bytes.now) }
        ensures stranger { IfErr result (λ e. way_of (way_at bytes.now) ≡ none) }
    {
        let read = crate::claim_bytes(bytes);
        let way = Way::try_from(read.letter)?;
        let claim = Claim {
            guess: read.guess,
            step: read.step,
            way,
            companion: read.companion,
        };
        Ok(Claimed { bytes, claim })
    }

    // Whether the guess fits what is claimed: where it is the inverse, the guess is a key.
    fn guess_fits(self, claims: Claims) -> bool
        ensures { result ≡ guess_fits self.entry.bytes.now (claims_is claims) }
    {
        let guess = crate::term_at(self.bytes, self.claim.guess);
        claims != Claims::Derived(Target::Inverse) || guess.is_key()
    }

    // Whether the guess fits the claim's way, and the step and the companion are in range for it.
    fn claim_fits(self) -> bool
        ensures { result ≡ claim_fits self.entry.bytes.now (way_of (way_at self.entry.bytes.now)) }
    {
        let row = self.claim.way.row();
        self.guess_fits(row.claims)
            && crate::is_in_range(self.bytes, row.step, self.claim.step)
            && crate::is_in_range(self.bytes, row.companion, self.claim.companion)
    }

    // Whether check 5 passes.
    #[tactic(auto, unfolding(crate::specs::Computed::good_claim))]
    pub(crate) fn is_claim_good(self) -> bool
        ensures { result ≡ good_claim self.entry.bytes.now }
    {
        self.claim.guess < crate::terms(self.bytes)
            && crate::term_at(self.bytes, self.claim.guess).is_atom()
            && self.claim_fits()
    }
}

// The bytes of a submission that passed checks 1 to 5, and its claim. A `Claimed` inside would make each path in the contracts longer by one name.
#[derive(Clone, Copy)]
pub struct Submission<'a> {
    pub bytes: &'a [u8],
    pub claim: Claim,
    pub ghost read: { SubmissionRead bytes.now },
    pub ghost claimed: { IsClaim bytes.now claim },
}

impl<'a> Submission<'a> {
    // Bytes that pass checks 1 to 5.
    pub fn read(bytes: &'a [u8]) -> Result<Self, Refusal>
        ensures answer { check_of result ≡ checks1to5 bytes.now }
        ensures same { IfOk result (λ t. t.bytes.now ≡ bytes.now) }
    {
        let claim = crate::check_reading(bytes)?;
        Ok(Submission { bytes, claim })
    }

    // Bytes that passed checks 1 to 5: none is made again.
    pub fn of(bytes: &'a [u8]) -> Self
        requires { SubmissionRead bytes.now }
        ensures { result.bytes.now ≡ bytes.now }
    {
        let claimed = Claimed::of(bytes).unwrap();
        Submission {
            bytes,
            claim: claimed.claim,
        }
    }

    // Its bytes passed checks 1 to 4.
    #[tactic(auto, using(crate::proofs::PassedChecks::table_passed))]
    pub fn table(self) -> Table<'a>
        ensures { result.bytes.now ≡ self.entry.bytes.now }
    {
        Table { bytes: self.bytes }
    }
}
