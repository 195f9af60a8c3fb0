// Ways k and j: a step, or an entry of the knowledge, gives the guess or its inverse. Check 16.
ghost use Rattle.std.specs.Prelude.{◌≡◌, not};
ghost use Rattle.submission.specs.Code.{target_is};
ghost use Rattle.base.specs.Computed.{fails_if};
ghost use Rattle.base.specs.Code.{check_of, number_is};
ghost use Rattle.conditions.specs.Computed.{is_target, entry_found, is_given};

use base::{Fault, Refusal};
use derivation::Derivation;
use submission::{Claimed, Target};

// Whether term n is the one claimed. A target is a word of the table of ways and no closure, as the page and the definitions read the same word.
fn is_target(claimed: Claimed, target: Target, n: u8) -> bool
    ensures { result ≡ is_target claimed.entry.bytes.now (target_is target) n }
{
    let guess = claimed.claim.guess;
    match target {
        Target::Guess => n == guess,
        Target::Inverse => submission::are_inverse(claimed.bytes, guess, n),
    }
}

// The entry of the knowledge that is the term claimed.
pub fn entry_given(claimed: Claimed, target: Target) -> Option<u8>
    ensures { number_is result ≡ entry_found claimed.entry.bytes.now (target_is target) }
{
    (0..submission::entries(claimed.bytes)).find(|i| {
        let entry = submission::entry_at(claimed.bytes, *i);
        is_target(claimed, target, entry)
    })
}

// Whether the named step, or where none is named an entry of the knowledge, gives the term claimed.
#[tactic(auto, unfolding(crate::specs::Computed::is_given))]
fn is_given(derivation: Derivation, target: Target) -> bool
    ensures { result ≡ is_given derivation.entry.bytes.now (target_is target) }
{
    let claimed = derivation.claimed();
    match derivation.claim.named_step() {
        Some(step) => is_target(claimed, target, derivation.step(step).conclusion),
        None => entry_given(claimed, target).is_some(),
    }
}

// Check 16.
pub fn check_given(derivation: Derivation, target: Target) -> Result<(), Refusal>
    ensures { check_of result ≡ fails_if (not (is_given derivation.entry.bytes.now (target_is target))) 16 0 }
{
    Fault::NotShown.at(0).when(!is_given(derivation, target))
}
