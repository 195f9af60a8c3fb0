// The kinds of records, by their numbers, and what the table says of them.
ghost use Rattle.std.specs.Prelude.{◌≡◌};
ghost use Rattle.base.specs.Words.{some};
ghost use Rattle.term.specs.Term.{symmetric, asymmetric, is_key_for};
ghost use Rattle.term.specs.Computed.{is_atomic, takes as takes_shape};
ghost use Rattle.term.specs.Code.{kind_is, shape_read, Decodes, is_unary, builder_of, second_of, are_inverse_kinds};

use crate::rules;

// The kinds, as a record's first byte numbers them.
#[derive(Clone, Copy, PartialEq, Eq)]
pub enum Kind {
    Plain = 1,
    Public = 2,
    Private = 3,
    Pair = 4,
    Enc = 5,
    Enca = 6,
    Hash = 7,
}

// A number that is no kind's.
#[derive(Clone, Copy, PartialEq, Eq)]
pub struct UnknownKind(pub u8);

// The numbers stand here a second time, since no derive reads one back.
impl TryFrom<u8> for Kind {
    type Error = UnknownKind;

    ghost try_from_gives = { Decodes };

    #[tactic(auto, using(crate::proofs::KindLaws::no_shape), unfolding(crate::specs::Number::shape_of))]
    fn try_from(number: u8) -> Result<Self, UnknownKind> {
        match number {
            1 => Ok(Kind::Plain),
            2 => Ok(Kind::Public),
            3 => Ok(Kind::Private),
            4 => Ok(Kind::Pair),
            5 => Ok(Kind::Enc),
            6 => Ok(Kind::Enca),
            7 => Ok(Kind::Hash),
            _ => Err(UnknownKind(number)),
        }
    }
}

impl Kind {
    // Whether a term of this kind is a public or a private key.
    pub fn is_key(self) -> bool
        ensures { result ≡ is_key_for asymmetric (some (kind_is self)) }
    {
        matches!(self, Kind::Public | Kind::Private)
    }

    // Whether a term of this kind may be the key of kind 5: a plain atom, or a hash.
    pub fn is_symmetric_key(self) -> bool
        ensures { result ≡ is_key_for symmetric (some (kind_is self)) }
    {
        matches!(self, Kind::Plain | Kind::Hash)
    }

    // Whether a term of this kind is an atom: a plain one, or a key.
    pub fn is_atom(self) -> bool
        ensures { result ≡ is_atomic (some (kind_is self)) }
    {
        self == Kind::Plain || self.is_key()
    }

    // The rule that builds terms of this kind, where there is one.
    pub fn rule(self) -> Option<u8>
        ensures { result ≡ builder_of (some (kind_is self)) }
    {
        match self {
            Kind::Pair => Some(rules::PAIR),
            Kind::Enc => Some(rules::ENC),
            Kind::Enca => Some(rules::ENCA),
            Kind::Hash => Some(rules::HASH),
            _ => None,
        }
    }

    // Whether a record of this kind has one operand, so that its y is 0 and no part.
    pub fn is_unary(self) -> bool
        ensures { result ≡ is_unary (some (kind_is self)) }
    {
        self == Kind::Hash
    }

    // Whether a record of this kind, with two operands, takes a second one of the kind `second`, or of none.
    pub fn takes(self, second: Option<Kind>) -> bool
        ensures { result ≡ takes_shape (second_of (some (kind_is self))) (shape_read second) }
    {
        match self {
            Kind::Pair => true,
            Kind::Enc => second.is_some_and(|kind| kind.is_symmetric_key()),
            Kind::Enca => second.is_some_and(|kind| kind.is_key()),
            _ => false,
        }
    }

    // Whether one kind is that of public keys and the other that of private ones.
    pub fn is_inverse_of(self, other: Kind) -> bool
        ensures { result ≡ are_inverse_kinds self other }
    {
        matches!(
            (self, other),
            (Kind::Public, Kind::Private) | (Kind::Private, Kind::Public)
        )
    }
}
