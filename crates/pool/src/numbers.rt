// The pool's numbers of the second submission's terms.
ghost use Rattle.std.specs.Prelude.{◌≡◌, ◌∷◌, [], ◌<◌, ◌≤◌, ◌+◌, set, get_or, IfOk, replicate};
ghost use Rattle.term.specs.Number.{shape_of};
ghost use Rattle.base.specs.Words.{eqb};
ghost use Rattle.base.specs.Code.{check_of};
ghost use Rattle.base.specs.Computed.{fails_if};
ghost use Rattle.pool.specs.Pool.{operands};

use base::{Fault, Refusal};
use submission::Term;

// The most terms that a submission may have.
const MOST_TERMS: u8 = 250;

// Of each term that was looked up the number in the pool, and the number that the next missing one gets. An array, by term number: there is no heap.
#[derive(Drop)]
pub struct Numbers {
    pub of: [u8; 256],
    pub next: u8,
}

impl Numbers {
    pub fn new(next: u8) -> Self
        ensures of { result.of ≡ replicate 256 0 }
        ensures next { result.next ≡ next }
    {
        Numbers { of: [0; 256], next }
    }

    // The record t with the pool's numbers in the place of its parts. A name stays, and so does the y that is no part.
    pub fn renumbered(&self, t: Term) -> Term
        ensures kind { result.kind ≡ t.kind }
        ensures operands { result.x ∷ result.y ∷ [] ≡ operands (λ n. get_or self.now.of n 0) (shape_of t.kind) t.x t.y }
    {
        let Some(kind) = t.kind() else {
            return t;
        };
        if kind.is_atom() {
            return t;
        }
        let x = self.of[usize::from(t.x)];
        if kind.is_unary() {
            return Term {
                kind: t.kind,
                x,
                y: t.y,
            };
        }
        Term {
            kind: t.kind,
            x,
            y: self.of[usize::from(t.y)],
        }
    }

    // Gives term j the next number, where the pool has room for one more term: check 20.
    pub fn add(&mut self, j: u8) -> Result<(), Refusal>
        requires { self.old.next ≤ 250 }
        ensures answer { check_of result ≡ fails_if (eqb self.old.next 250) 20 0 }
        ensures of { IfOk result (λ u. self.new.of ≡ set self.old.of j self.old.next) }
        ensures next { IfOk result (λ u. self.new.next ≡ self.old.next + 1) }
    {
        Fault::Overfull.at(0).when(self.next == MOST_TERMS)?;
        self.of[usize::from(j)] = self.next;
        self.next += 1;
        Ok(())
    }
}
