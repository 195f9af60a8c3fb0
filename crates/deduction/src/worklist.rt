// The terms that are marked, in the order in which they were.
ghost use Rattle.deduction.specs.Code.{Room};

// How a term was reached: it is from the start, or it comes from the record of this number: its own, where it was built of its parts, or the one that
// it was taken from. No Option of the record: the mark is one already.
#[derive(Clone, Copy, PartialEq, Eq)]
pub enum Origin {
    Start,
    Record(u8),
}

// The mark of each term that was reached says how, and the first `end` of `order` are the terms that are marked.
// It is lent to what fills it, as the inverses and the chains are: an array that is answered is cleared once more, and copied.
// Arrays and a count, since the project uses no heap: they are memory of a fixed size.
// What it is for a table stands in the contracts, as `Queue`: for a ghost field it would hold the table, and each function that changes it would then
// promise, in the place of asking for `Queue`, that the table stays.
#[derive(Drop)]
pub struct Worklist {
    pub marks: [Option<Origin>; 256],
    pub order: [u8; 256],
    pub end: usize,
    pub ghost room: { Room marks order end },
}

impl Worklist {
    ghost use Rattle.std.specs.Prelude.{◌≡◌, replicate, None};
    ghost use Rattle.deduction.specs.Saturation.{Turns, Pushed, PushedWith};

    pub fn new() -> Self
        ensures marks { result.marks ≡ replicate 256 None }
        ensures end { result.end ≡ 0 }
    {
        Worklist {
            marks: [None; 256],
            order: [0; 256],
            end: 0,
        }
    }

    // Marks term t with this origin and puts it at the end of the order, where it is not marked yet.
    pub(crate) fn push(&mut self, t: u8, origin: Origin)
        ensures { Turns (Pushed t origin) self.old self.new }
    {
        let i = usize::from(t);
        let mark = self.marks[i];
        if mark.is_some() {
            return;
        }
        self.marks[i] = Some(origin);
        self.order[self.end] = t;
        self.end += 1;
    }

    // The same, where the term `with` is marked.
    pub(crate) fn push_with(&mut self, t: u8, origin: Origin, with: u8)
        ensures { Turns (PushedWith t origin with) self.old self.new }
    {
        let mark = self.marks[usize::from(with)];
        if mark.is_some() {
            self.push(t, origin);
        }
    }
}
