// Numbers in chains, one chain for each byte.
ghost use Rattle.std.specs.Prelude.{◌≡◌, ◌<◌, ℕ, set, get_or, replicate};
ghost use Rattle.base.specs.Code.{link_of, Chaining, FoundBy, FoundInBoth};

// A link to no number.
const NONE: u8 = 255;

// `before` has for each number the latest earlier one of its chain, and `latest` for each byte the latest number that is chained by it, as links.
// Both are arrays: there is no heap, and a byte indexes them. Links are bytes and no options, which take two: the arrays are cleared at each call,
// and a walk along a chain of all terms takes half as long again over options.
#[derive(Drop)]
pub struct ByteChains {
    pub before: [u8; 256],
    pub latest: [u8; 256],
}

// The number that a link is to.
fn link_of(link: u8) -> Option<u8>
    ensures { result ≡ link_of link }
{
    if link == NONE { None } else { Some(link) }
}

impl ByteChains {
    pub fn new() -> Self
        ensures before { result.before ≡ replicate 256 255 }
        ensures latest { result.latest ≡ replicate 256 255 }
    {
        ByteChains {
            before: [NONE; 256],
            latest: [NONE; 256],
        }
    }

    // Chains number i by the byte y.
    pub fn chain(&mut self, y: u8, i: u8)
        requires { i < 255 }
        ensures before { self.new.before ≡ set self.old.before i (get_or self.old.latest y 255) }
        ensures latest { self.new.latest ≡ set self.old.latest y i }
    {
        self.before[usize::from(i)] = self.latest[usize::from(y)];
        self.latest[usize::from(y)] = i;
    }

    // The latest number that is chained by y.
    pub fn latest(&self, y: u8) -> Option<u8>
        ensures { result ≡ link_of (get_or self.now.latest y 255) }
    {
        link_of(self.latest[usize::from(y)])
    }

    // The latest number of its chain before i.
    pub fn before(&self, i: u8) -> Option<u8>
        ensures { result ≡ link_of (get_or self.now.before i 255) }
    {
        link_of(self.before[usize::from(i)])
    }

    // The latest number that is chained by y and for which the test holds. A loop: an iterator along the chain would be a struct with a ghost field
    // and laws of its `next`, for three walks of a few lines, this, that of `find_in_both` and that of `fire` in the crate deduction.
    pub fn find<F: Fn(u8) -> bool>(&self, y: u8, test: F) -> Option<u8>
        requires chaining { (c : ℕ → ℕ) × (i : ℕ) × Chaining c i self.now.before self.now.latest }
        requires callable { F.IsAlwaysCallable test }
        ensures { (c : ℕ → ℕ) → (i : ℕ) → Chaining c i self.now.before self.now.latest → FoundBy c i y (F.post test) result }
    {
        let mut next = self.latest(y);
        while let Some(j) = next {
            if test(j) {
                return Some(j);
            }
            next = self.before(j);
        }
        None
    }

    // A number for which the test holds, where one is chained by y here and by z there. Both chains are walked at once, so no further than the shorter
    // one goes: numbers that are many in a chain here are few in each chain there, where the two bytes tell them apart.
    pub fn find_in_both<F: Fn(u8) -> bool>(
        &self,
        y: u8,
        there: &ByteChains,
        z: u8,
        test: F,
    ) -> Option<u8>
        requires chaining { (c d : ℕ → ℕ) × (i : ℕ) × Chaining c i self.now.before self.now.latest × Chaining d i there.now.before there.now.latest }
        requires callable { F.IsAlwaysCallable test }
        ensures { (c d : ℕ → ℕ) → (i : ℕ) → Chaining c i self.now.before self.now.latest → Chaining d i there.now.before there.now.latest → FoundInBoth c d i y z (F.post test) result }
    {
        let mut here = self.latest(y);
        let mut other = there.latest(z);
        while let Some(j) = here {
            let Some(k) = other else {
                return None;
            };
            if test(j) {
                return Some(j);
            }
            if test(k) {
                return Some(k);
            }
            here = self.before(j);
            other = there.before(k);
        }
        None
    }
}
