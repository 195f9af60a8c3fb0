// The rules by their numbers, and what the table says of them. They stay numbers: the machine is to match on the rule number.
ghost use Rattle.std.specs.Prelude.{◌≡◌, cond};
ghost use Rattle.term.specs.Number.{has_one};
ghost use Rattle.term.specs.Computed.{rule_takes_apart, is_rule};

pub const PAIR: u8 = 0;

pub const FST: u8 = 1;

pub const SND: u8 = 2;

pub const ENC: u8 = 3;

pub const DEC: u8 = 4;

pub const ENCA: u8 = 5;

pub const DECA: u8 = 6;

pub const HASH: u8 = 7;

// How many rules there are: the first number that is none.
pub const RULES: u8 = 8;

pub fn is_rule(rule: u8) -> bool
    ensures { result ≡ is_rule rule }
{
    rule < RULES
}

// Whether a rule has one operand: one premise, and one register.
#[tactic(auto, using(crate::proofs::Rule::one_operand))]
pub fn has_one(rule: u8) -> bool
    ensures { result ≡ has_one rule }
{
    matches!(rule, FST | SND | HASH)
}

// The second of the operands x and y of a rule: one operand stands twice.
pub fn second_operand(rule: u8, x: u8, y: u8) -> u8
    ensures { result ≡ cond (has_one rule) x y }
{
    if has_one(rule) { x } else { y }
}

// Whether the rule `taker` takes apart what the rule `builder` builds.
#[tactic(auto, using(crate::proofs::Rule::taken_apart))]
pub fn takes_apart(taker: u8, builder: u8) -> bool
    ensures { result ≡ rule_takes_apart taker builder }
{
    matches!(
        (taker, builder),
        (FST | SND, PAIR) | (DEC, ENC) | (DECA, ENCA)
    )
}
