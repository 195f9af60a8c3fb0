// A submission's bytes as records, and checks 1 to 5.
// Promises: every function is total, for all bytes, and its answer is what the definitions of specs/ give.
#![tactic(auto)]

ghost use Rattle.std.specs.Prelude.{◌≡◌, ◌&&◌, ℕ, not, cond, ◌+◌, ◌*◌, ◌<◌, eqb, get_or};
ghost use Rattle.base.specs.Words.{false, first, byte as byte_at};
ghost use Rattle.term.specs.Term.{symmetric, asymmetric, is_key_for};
ghost use Rattle.term.specs.Number.{shape_of};
ghost use Rattle.term.specs.Computed.{is_atomic, inverse_kinds, takes};
ghost use Rattle.term.specs.Code.{shape_read, is_unary, builder_of, second_of};
ghost use Rattle.submission.specs.Record.{letter, count as count_in, start, terms as term_count, entries as entry_count, steps as step_count, kind_at, entry_at};
ghost use Rattle.submission.specs.Computed.{are_inverse, bad_contents, check_limits, in_range, shape_fits, same_record, bad_term, bad_knowledge, good_claim, checks1to4, checks1to5};
ghost use Rattle.submission.specs.Check.{way_of, row, verifier, derived, step_number, zero_only, step_or_knowledge, verifying_result, guess_register, given_register};
ghost use Rattle.base.specs.Computed.{any, fails_at, fails_if};
ghost use Rattle.base.specs.Code.{check_of, Flagged};
ghost use Rattle.submission.specs.Code.{Starts, IsTerm, way_is, ReadsWay, range_is, target_is, claims_is, operand_is, IsRow, IsClaimBytes, ClaimRead, step_named, RecordsChained};

pub mod chains;
pub mod read;

use base::{Fault, Refusal, byte, bytes_at, word};
pub use chains::RecordChains;
pub use read::{Claimed, Submission, Table};
use term::{Kind, Relation};

// The letters of the contents.
pub const LETTERS: [u8; 4] = *b"TKDV";

// Where the first body starts.
pub const CONTENTS_SIZE: usize = 16;

// The bytes of one record of each body.
pub const TERM_WIDTH: usize = 3;

pub const ENTRY_WIDTH: usize = 1;

pub const STEP_WIDTH: usize = 4;

pub const CLAIM_WIDTH: usize = 4;

// A name for each count that is asked for: by an index a caller would not tell which it means.
pub fn terms(s: &[u8]) -> u8
    ensures { result ≡ term_count s.now }
{
    byte(s, 1)
}

pub fn entries(s: &[u8]) -> u8
    ensures { result ≡ entry_count s.now }
{
    byte(s, 5)
}

pub fn steps(s: &[u8]) -> u8
    ensures { result ≡ step_count s.now }
{
    byte(s, 9)
}

// A name for each start: it is that of the body before, and that body's length; one function of the body's index would match on it.
#[tactic(auto, unfolding(crate::specs::Record::start_of))]
pub fn knowledge_start(s: &[u8]) -> usize
    ensures { Starts s.now 1 result }
{
    CONTENTS_SIZE + TERM_WIDTH * usize::from(byte(s, 1))
}

#[tactic(auto, unfolding(crate::specs::Record::start_of))]
pub fn derivation_start(s: &[u8]) -> usize
    ensures { Starts s.now 2 result }
{
    knowledge_start(s) + ENTRY_WIDTH * usize::from(byte(s, 5))
}

#[tactic(auto, unfolding(crate::specs::Record::start_of))]
pub fn claim_start(s: &[u8]) -> usize
    ensures { Starts s.now 3 result }
{
    derivation_start(s) + STEP_WIDTH * usize::from(byte(s, 9))
}

// Where the last body ends.
#[tactic(auto, unfolding(crate::specs::Record::start_of))]
fn end(s: &[u8]) -> usize
    ensures { Starts s.now 4 result }
{
    claim_start(s) + CLAIM_WIDTH * usize::from(byte(s, 13))
}

// A term's record. The kind is a byte, as of a record that no check has passed; `kind` reads it.
#[derive(Clone, Copy, PartialEq, Eq)]
pub struct Term {
    pub kind: u8,
    pub x: u8,
    pub y: u8,
}

// The methods from `is_atom` to `takes` each lift one of `Kind`'s to any byte, so that a record that no check has passed can be asked.
impl Term {
    // The kind, where the record's first byte numbers one.
    pub fn kind(self) -> Option<Kind>
        ensures { shape_read result ≡ shape_of self.kind }
    {
        Kind::try_from(self.kind).ok()
    }

    pub fn is_atom(self) -> bool
        ensures { result ≡ is_atomic (shape_of self.kind) }
    {
        self.kind().is_some_and(|kind| kind.is_atom())
    }

    // Whether it is a public or a private key.
    pub fn is_key(self) -> bool
        ensures { result ≡ is_key_for asymmetric (shape_of self.kind) }
    {
        self.kind().is_some_and(|kind| kind.is_key())
    }

    // Whether it may be the key of kind 5: a plain atom, or a hash.
    pub fn is_symmetric_key(self) -> bool
        ensures { result ≡ is_key_for symmetric (shape_of self.kind) }
    {
        self.kind().is_some_and(|kind| kind.is_symmetric_key())
    }

    // Whether it has one operand, so that its y is 0 and no part.
    pub fn is_unary(self) -> bool
        ensures { result ≡ is_unary (shape_of self.kind) }
    {
        self.kind().is_some_and(|kind| kind.is_unary())
    }

    // The rule that builds it, where there is one.
    pub fn rule(self) -> Option<u8>
        ensures { result ≡ builder_of (shape_of self.kind) }
    {
        self.kind().and_then(|kind| kind.rule())
    }

    // Whether it takes the second operand, where it has two.
    pub fn takes(self, second: Term) -> bool
        ensures { result ≡ takes (second_of (shape_of self.kind)) (shape_of second.kind) }
    {
        let taken = second.kind();
        self.kind().is_some_and(|kind| kind.takes(taken))
    }

    // The second part; one operand stands twice, as `rules::second_operand` has it by a rule. An atom has no rule to ask by, and y is its second.
    pub fn second_part(self) -> u8
        ensures { result ≡ cond (is_unary (shape_of self.kind)) self.x self.y }
    {
        if self.is_unary() { self.x } else { self.y }
    }

    // The name, of an atom.
    pub fn name(self) -> u16
        ensures { result ≡ self.x * 256 + self.y }
    {
        u16::from_be_bytes([self.x, self.y])
    }

    // Whether the two are keys, one public and one private.
    pub fn has_inverse_kind(self, other: Term) -> bool
        ensures { result ≡ inverse_kinds self.kind other.kind }
    {
        let kinds = self.kind().zip(other.kind());
        kinds.is_some_and(|(kind, other)| kind.is_inverse_of(other))
    }

    // Whether the two are keys of one name, one public and one private.
    pub fn is_inverse_of(self, other: Term) -> bool
        ensures { result ≡ (inverse_kinds self.kind other.kind && (eqb self.x other.x && eqb self.y other.y)) }
    {
        // Byte by byte: by `name`, `deducible` of a table full of keys takes a tenth longer.
        self.x == other.x && self.y == other.y && self.has_inverse_kind(other)
    }
}

#[tactic(auto, unfolding(crate::specs::Record::start_of))]
pub fn term_at(s: &[u8], i: u8) -> Term
    ensures { IsTerm s.now i result }
{
    let [kind, x, y] = bytes_at::<TERM_WIDTH>(s, CONTENTS_SIZE + TERM_WIDTH * usize::from(i));
    Term { kind, x, y }
}

// The claim's four bytes, as of a record that no check has passed: the letter may be no way's.
#[derive(Clone, Copy)]
pub struct ClaimBytes {
    pub guess: u8,
    pub step: u8,
    pub letter: u8,
    pub companion: u8,
}

pub fn claim_bytes(s: &[u8]) -> ClaimBytes
    ensures { IsClaimBytes s.now result }
{
    let [guess, step, letter, companion] = bytes_at::<CLAIM_WIDTH>(s, claim_start(s));
    ClaimBytes {
        guess,
        step,
        letter,
        companion,
    }
}

// The term number of entry i of the knowledge.
pub fn entry_at(s: &[u8], i: u8) -> u8
    ensures { result ≡ entry_at s.now i }
{
    byte(s, knowledge_start(s) + usize::from(i))
}

// Whether terms i and j are keys of one name, one public and one private.
pub fn are_inverse(s: &[u8], i: u8, j: u8) -> bool
    ensures { result ≡ are_inverse s.now i j }
{
    term_at(s, i).is_inverse_of(term_at(s, j))
}

// ---- Check 1, contents.

// Whether a letter of the contents is wrong.
fn is_letter_wrong(s: &[u8]) -> bool
    ensures { result ≡ any (λ i. not (eqb (byte_at s.now (4 * i)) (letter i))) 4 }
{
    LETTERS
        .iter()
        .enumerate()
        .any(|(i, letter)| byte(s, 4 * i) != *letter)
}

// Whether a start of the contents is wrong.
#[tactic(auto, using(base::proofs::Says::any_four), unfolding(crate::specs::Record::start_of))]
fn is_start_wrong(s: &[u8]) -> bool
    ensures { result ≡ any (λ i. not (eqb (byte_at s.now (4 * i + 2) * 256 + byte_at s.now (4 * i + 3)) (start s.now i))) 4 }
{
    word(s, 2) != CONTENTS_SIZE
        || word(s, 6) != knowledge_start(s)
        || word(s, 10) != derivation_start(s)
        || word(s, 14) != claim_start(s)
}

#[tactic(auto, unfolding(crate::specs::Computed::bad_contents))]
fn are_contents_wrong(s: &[u8]) -> bool
    ensures { result ≡ bad_contents s.now }
{
    s.len() < CONTENTS_SIZE || is_letter_wrong(s) || is_start_wrong(s) || s.len() != end(s)
}

pub fn check_contents(s: &[u8]) -> Result<(), Refusal>
    ensures { check_of result ≡ fails_if (bad_contents s.now) 1 0 }
{
    Fault::Contents.at(0).when(are_contents_wrong(s))
}

// ---- Check 2, count.

// The least and the most that each count may be.
const LIMITS: [(usize, usize); 4] = [(1, 250), (0, 64), (0, 128), (1, 1)];

// The limits of any four counts.
pub fn check_limits(counts: [usize; 4]) -> Result<(), Refusal>
    ensures { check_of result ≡ check_limits (λ i. get_or counts i 0) }
{
    for (i, (count, (least, most))) in (0..4u16).zip(counts.iter().zip(&LIMITS)) {
        Fault::Count.at(i).when(*count < *least || *most < *count)?;
    }
    Ok(())
}

#[tactic(auto, using(crate::proofs::ContentsTests::counts_read), unfolding(base::specs::Words::first, base::specs::Words::first_from))]
pub fn check_counts(s: &[u8]) -> Result<(), Refusal>
    ensures { check_of result ≡ check_limits (count_in s.now) }
{
    check_limits([
        usize::from(byte(s, 1)),
        usize::from(byte(s, 5)),
        usize::from(byte(s, 9)),
        usize::from(byte(s, 13)),
    ])
}

// ---- Check 3, term.

// Whether record i, which is t, is of some kind, with parts that are earlier terms, the second of a kind that this kind takes.
fn shape_fits(s: &[u8], i: u8, t: Term) -> bool
    requires { IsTerm s.now i t }
    ensures { result ≡ shape_fits s.now i (shape_of (kind_at s.now i)) }
{
    if t.is_atom() {
        return true;
    }
    if i <= t.x {
        return false;
    }
    if t.is_unary() {
        return t.y == 0;
    }
    if i <= t.y {
        return false;
    }
    t.takes(term_at(s, t.y))
}

// Whether one of the records that are chained equals t: those before record i, where it is record i.
fn is_repeated(s: &[u8], chains: &RecordChains, t: Term) -> bool
    requires { (i : ℕ) × RecordsChained s.now i chains.now }
    ensures { (i : ℕ) → RecordsChained s.now i chains.now → IsTerm s.now i t → result ≡ any (same_record s.now i) i }
{
    chains.find(s, t).is_some()
}

#[tactic(auto, unfolding(crate::specs::Computed::bad_term))]
fn is_term_bad(s: &[u8], chains: &RecordChains, i: u8, t: Term) -> bool
    requires chaining { RecordsChained s.now i chains.now }
    requires term { IsTerm s.now i t }
    ensures { result ≡ bad_term s.now i }
{
    !shape_fits(s, i, t) || is_repeated(s, chains, t)
}

// The loop changes the chains, which `find` would hide in a closure.
pub fn check_terms(s: &[u8]) -> Result<(), Refusal>
    ensures { check_of result ≡ fails_at 3 (first (bad_term s.now) (term_count s.now)) }
{
    let n = terms(s);
    let mut chains = RecordChains::new();
    for i in 0..n {
        let t = term_at(s, i);
        if is_term_bad(s, &chains, i, t) {
            return Err(Fault::Term.at(u16::from(i)));
        }
        chains.add(t, i);
    }
    Ok(())
}

// ---- Check 4, knowledge.

// Whether entry i is no term, or equals an earlier one: `seen` flags the terms of these.
#[tactic(auto, using(crate::proofs::TermTests::entry_seen, crate::proofs::TermTests::entry_high))]
fn is_entry_bad(s: &[u8], seen: &[bool; 256], i: u8) -> bool
    requires { Flagged (entry_at s.now) i seen.now }
    ensures { result ≡ bad_knowledge s.now i }
{
    let t = entry_at(s, i);
    terms(s) <= t || seen[usize::from(t)]
}

// The loop flags each entry's term, which `find` would hide in a closure.
pub fn check_knowledge(s: &[u8]) -> Result<(), Refusal>
    ensures { check_of result ≡ fails_at 4 (first (bad_knowledge s.now) (entry_count s.now)) }
{
    let n = entries(s);
    let mut seen = [false; 256];
    for i in 0..n {
        if is_entry_bad(s, &seen, i) {
            return Err(Fault::Knowledge.at(u16::from(i)));
        }
        seen[usize::from(entry_at(s, i))] = true;
    }
    Ok(())
}

// ---- The ways of a claim.

// The ways by their letters. Way a: another step concludes the same term; way b: it is known at the start; way c: its inverse key is known; way k:
// the guess is derived; way j: its inverse is.
#[derive(Clone, Copy, PartialEq, Eq)]
pub enum Way {
    AnotherStep = b'a' as isize,
    AtStart = b'b' as isize,
    InverseKey = b'c' as isize,
    GuessDerived = b'k' as isize,
    InverseDerived = b'j' as isize,
}

// A letter that is no way's.
#[derive(Clone, Copy, PartialEq, Eq)]
pub struct UnknownWay(pub u8);

impl TryFrom<u8> for Way {
    type Error = UnknownWay;

    ghost try_from_gives = { ReadsWay };

    // No derive reads a letter back, so each is named once more.
    #[tactic(auto, using(crate::proofs::ClaimTests::no_way), unfolding(crate::specs::Check::way_of))]
    fn try_from(letter: u8) -> Result<Self, UnknownWay> {
        match letter {
            b'a' => Ok(Way::AnotherStep),
            b'b' => Ok(Way::AtStart),
            b'c' => Ok(Way::InverseKey),
            b'k' => Ok(Way::GuessDerived),
            b'j' => Ok(Way::InverseDerived),
            _ => Err(UnknownWay(letter)),
        }
    }
}

// ---- The words of the table of ways. They are words and no closures: a row is read by check 5, the conditions, the page and reading back, each of
// which does another thing by it, and the definitions have the same words.

// What is derived: the guess, or its inverse.
#[derive(Clone, Copy, PartialEq, Eq)]
pub enum Target {
    Guess,
    Inverse,
}

// What a way claims: a verifier, or that the guess or its inverse is derived, and then the guess doesn't count as known.
#[derive(Clone, Copy, PartialEq, Eq)]
pub enum Claims {
    Verifier,
    Derived(Target),
}

// What a number of the claim may be: a step's, a term's, 0 only, or a step's or KNOWLEDGE_STEP.
#[derive(Clone, Copy, PartialEq, Eq)]
pub enum Range {
    Step,
    Term,
    Zero,
    StepOrKnowledge,
}

// The number that a claim's record has, by document 02, for an entry of the knowledge in a step's place.
pub const KNOWLEDGE_STEP: u8 = 255;

// A register that the test names: of the verifying step or of the companion step, the lowest that holds the conclusion or the companion, the
// guess's, or that of what gives the term claimed.
#[derive(Clone, Copy, PartialEq, Eq)]
pub enum Operand {
    VerifyingResult,
    CompanionResult,
    LowestConclusion,
    LowestCompanion,
    GuessRegister,
    GivenRegister(Target),
}

// A way's row of the table: what is claimed, the ranges of the step and of the companion, whether the companion must undo nothing, and the test.
#[derive(Clone, Copy)]
pub struct Row {
    pub claims: Claims,
    pub step: Range,
    pub companion: Range,
    pub kept: bool,
    pub relation: Relation,
    pub tested: Operand,
    pub against: Operand,
}

impl Row {
    // A way that claims a verifier: the test names the verifying step's register first.
    fn verifier(companion: Range, kept: bool, relation: Relation, against: Operand) -> Self
        ensures claims { claims_is result.claims ≡ verifier }
        ensures step { range_is result.step ≡ step_number }
        ensures companion { result.companion ≡ companion }
        ensures kept { result.kept ≡ kept }
        ensures relation { result.relation ≡ relation }
        ensures tested { operand_is result.tested ≡ verifying_result }
        ensures against { result.against ≡ against }
    {
        Row {
            claims: Claims::Verifier,
            step: Range::Step,
            companion,
            kept,
            relation,
            tested: Operand::VerifyingResult,
            against,
        }
    }

    // A way that claims the guess or its inverse derived: the test names the guess's register first.
    fn derived(target: Target, relation: Relation) -> Self
        ensures claims { claims_is result.claims ≡ derived (target_is target) }
        ensures step { range_is result.step ≡ step_or_knowledge }
        ensures companion { range_is result.companion ≡ zero_only }
        ensures kept { result.kept ≡ false }
        ensures relation { result.relation ≡ relation }
        ensures tested { operand_is result.tested ≡ guess_register }
        ensures against { operand_is result.against ≡ given_register (target_is target) }
    {
        Row {
            claims: Claims::Derived(target),
            step: Range::StepOrKnowledge,
            companion: Range::Zero,
            kept: false,
            relation,
            tested: Operand::GuessRegister,
            against: Operand::GivenRegister(target),
        }
    }
}

impl Way {
    // The way's letter. A method has the word: `u8::from(way)` doesn't tell a letter from a number.
    pub fn letter(self) -> u8
        ensures { result ≡ (row (way_is self)).letter }
    {
        self as u8
    }

    // The way's row.
    pub fn row(self) -> Row
        ensures { IsRow result (way_is self) }
    {
        use Operand::{CompanionResult, LowestCompanion, LowestConclusion};
        use Relation::{Equal, Inverse};
        match self {
            Way::AnotherStep => Row::verifier(Range::Step, true, Equal, CompanionResult),
            Way::AtStart => Row::verifier(Range::Zero, false, Equal, LowestConclusion),
            Way::InverseKey => Row::verifier(Range::Term, false, Inverse, LowestCompanion),
            Way::GuessDerived => Row::derived(Target::Guess, Equal),
            Way::InverseDerived => Row::derived(Target::Inverse, Inverse),
        }
    }
}

// ---- Check 5, claim.

// The claim, its way decoded. The step stays a number: in ways a to c it is always a step's, and an enum would be opened at each use with an arm
// that never holds.
#[derive(Clone, Copy)]
pub struct Claim {
    pub guess: u8,
    pub step: u8,
    pub way: Way,
    pub companion: u8,
}

impl Claim {
    // The step that the claim names; none where its number stands for an entry of the knowledge.
    pub fn named_step(self) -> Option<u8>
        ensures { result ≡ step_named self.step }
    {
        (self.step != KNOWLEDGE_STEP).then_some(self.step)
    }
}

// Whether n is in the range. A match on the row's word: reading back does another thing by the same word.
fn is_in_range(s: &[u8], range: Range, n: u8) -> bool
    ensures { result ≡ in_range s.now (range_is range) n }
{
    match range {
        Range::Step => n < steps(s),
        Range::Term => n < terms(s),
        Range::Zero => n == 0,
        Range::StepOrKnowledge => n < steps(s) || n == KNOWLEDGE_STEP,
    }
}

pub fn check_claim(s: &[u8]) -> Result<Claim, Refusal>
    ensures { ClaimRead s.now (fails_if (not (good_claim s.now)) 5 0) result }
{
    match Claimed::of(s) {
        Ok(claimed) if claimed.is_claim_good() => Ok(claimed.claim),
        _ => Err(Fault::Claim.at(0)),
    }
}

// ---- The checks in order. Document 01 names the form: each stage's answer is taken apart by `let .. else`, and a refusal goes straight out.

// Checks 1 to 4.
#[tactic(auto, unfolding(crate::specs::Computed::checks1to4))]
pub fn check_body(s: &[u8]) -> Result<(), Refusal>
    ensures { check_of result ≡ checks1to4 s.now }
{
    let contents = check_contents(s);
    let Ok(()) = contents else {
        return contents;
    };
    let counts = check_counts(s);
    let Ok(()) = counts else {
        return counts;
    };
    let terms = check_terms(s);
    let Ok(()) = terms else {
        return terms;
    };
    check_knowledge(s)
}

// Checks 1 to 5.
#[tactic(auto, unfolding(crate::specs::Computed::checks1to5))]
pub fn check_reading(s: &[u8]) -> Result<Claim, Refusal>
    ensures { ClaimRead s.now (checks1to5 s.now) result }
{
    let Err(refusal) = check_body(s) else {
        return check_claim(s);
    };
    Err(refusal)
}
