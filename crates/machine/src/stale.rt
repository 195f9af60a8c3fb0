// Whether a name is stale: part of a message in the knowledge, as an atom of the guess's kind or as that atom's inverse.
ghost use Rattle.std.specs.Prelude.{◌≡◌, ◌≤◌, ◌<◌};
ghost use Rattle.term.specs.Code.{Below};
ghost use Rattle.submission.specs.Record.{terms as term_count};
ghost use Rattle.machine.specs.Computed.{is_stale_name};
ghost use Rattle.machine.specs.Code.{Finds, TermNodes, guess_node, records_in, treated, PartMarks, is_marked, SomeMarked, inverse_head, inverse_node};

use crate::{Head, Node, Nodes};
use submission::Submission;
use term::Kind;

impl Nodes {
    // Marks the parts of node t, keys among them, where it is marked.
    fn mark_parts(&self, marks: &mut [bool; 256], t: u16)
        requires t_bound { t < 256 }
        requires below { Below 256 (records_in self.now.items t) }
        ensures { marks.new ≡ treated (records_in self.now.items) t marks.old }
    {
        if !marks[usize::from(t)] {
            return;
        }
        let v = self.node(t);
        let Head::Word(_) = v.head else {
            return;
        };
        marks[usize::from(v.left)] = true;
        marks[usize::from(v.right)] = true;
    }

    // The number of the inverse of v, whose own number is `found`; a node that is no key is its own inverse here.
    fn find_inverse(&self, v: Node, found: Option<u16>, n: u16) -> Option<u16>
        requires n_bound { n ≤ 384 }
        requires found_value { Finds self.now.items v 0 n found }
        ensures { Finds self.now.items (inverse_node v) 0 n result }
    {
        let head = inverse_head(v.head);
        if head == v.head {
            return found;
        }
        let inverse = Node {
            head,
            left: v.left,
            right: v.right,
        };
        self.find(inverse, 0, n)
    }
}

// A submission, and nodes of which the first are its terms', by their numbers.
#[derive(Clone, Copy)]
pub struct ListedTerms<'a> {
    pub submission: Submission<'a>,
    pub nodes: &'a Nodes,
    pub ghost listed: { TermNodes submission.bytes.now nodes.now.items },
}

impl<'a> ListedTerms<'a> {
    // True at each term from `lowest` on that is part of the knowledge. It goes from the last term down: parts are earlier terms, so one look at each is
    // enough, however many messages share it, and no term before `lowest` has one from there on as a part.
    fn known_parts(self, lowest: u16) -> [bool; 256]
        ensures { PartMarks self.entry.submission.bytes.now lowest result }
    {
        let mut marks = deduction::knowledge_marks(self.submission.bytes);
        let n = u16::from(self.submission.table().terms());
        for i in (lowest..n).rev() {
            self.nodes.mark_parts(&mut marks, i);
        }
        marks
    }

    // Whether one of these two terms, neither before `lowest`, is part of the knowledge.
    fn is_known_part(self, found: Option<u16>, other: Option<u16>, lowest: u16) -> bool
        ensures { SomeMarked self.entry.submission.bytes.now lowest found other result }
    {
        let marks = self.known_parts(lowest);
        is_marked(&marks, found) || is_marked(&marks, other)
    }

    // Whether the guess's atom v, which is term `found`, or its inverse is part of the knowledge. The guess's own name is never stale. What is
    // not listed is part of nothing.
    pub fn is_stale(self, v: Node, found: Option<u16>) -> bool
        requires v_value { v ≡ guess_node self.submission.bytes.now v.left }
        requires found_value { Finds self.nodes.now.items v 0 (term_count self.submission.bytes.now) found }
        ensures { result ≡ is_stale_name self.entry.submission.bytes.now v.left }
    {
        if crate::right_name(self.submission) == v.left {
            return false;
        }
        let n = u16::from(self.submission.table().terms());
        let other = self.nodes.find_inverse(v, found, n);
        let lowest = found.unwrap_or(n).min(other.unwrap_or(n));
        if n <= lowest {
            return false;
        }
        self.is_known_part(found, other, lowest)
    }
}

fn is_marked(marks: &[bool; 256], found: Option<u16>) -> bool
    ensures { result ≡ is_marked marks.now found }
{
    found.is_some_and(|k| k < 256 && marks[usize::from(k)])
}

// A key's inverse; any other head is its own.
fn inverse_head(head: Head) -> Head
    ensures { result ≡ inverse_head head }
{
    match head {
        Head::Atom(Kind::Public) => Head::Atom(Kind::Private),
        Head::Atom(Kind::Private) => Head::Atom(Kind::Public),
        _ => head,
    }
}
