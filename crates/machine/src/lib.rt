// The machine that runs a register program over terms.
// Promises: every function is total, for all bytes, and its answer is what the definitions of specs/ give.
// Cost, for T terms and N instructions: terms are held shared, so an instruction adds at most one node, however large its term is as a
// tree, after one look through at most T + 1 + N nodes. Whether a name is stale takes one look at each term.
#![tactic(auto)]

ghost use Rattle.std.specs.Prelude.{◌≡◌, false, cond, ◌+◌, ◌≤◌, ◌<◌, get_or};
ghost use Rattle.std.specs.Option.{unwrap_or};
ghost use Rattle.base.specs.Words.{byte as byte_at};
ghost use Rattle.term.specs.Code.{relation_is};
ghost use Rattle.submission.specs.Code.{SubmissionRead};
ghost use Rattle.program.specs.Computed.{bad_program};
ghost use Rattle.submission.specs.Record.{terms as term_count, record_at, guess as guess_of, name_at};
ghost use Rattle.program.specs.Code.{instruction_in};
ghost use Rattle.machine.specs.Run.{signal as signal_of};
ghost use Rattle.base.specs.Answer.{answer_of, done};
ghost use Rattle.base.specs.Computed.{fails_if, answered};
ghost use Rattle.machine.specs.Computed.{is_stale_name, run_answer};
ghost use Rattle.machine.specs.Code.{node_for, node_of, operands_of, Finds, is_word, parts_of_one, inverse_nodes, joined_node, parted_node, cancelled_node, Valued, with_node, Placed, Executable, Executed, Ran, Runnable, Empty, TermsPut, Loaded, Started, RegisterNumbers, guess_node, related};

mod checked;
mod stale;

use base::{Fault, Refusal, byte};
pub use checked::CheckedProgram;
use program::{Instruction, Test};
use stale::ListedTerms;
use submission::Submission;
use term::{Kind, Relation, rules};

// ---- Terms as nodes.

// What makes a node: an atom of its kind, or a word of its rule. The machine matches on the rule number, a rule of this project, so a rule is its number.
#[derive(Clone, Copy, PartialEq, Eq)]
pub enum Head {
    Atom(Kind),
    Word(u8),
}

// A term as a node. A word is over two nodes, one with one operand has it twice; an atom has its name on the left.
#[derive(Clone, Copy, PartialEq, Eq)]
pub struct Node {
    pub head: Head,
    pub left: u16,
    pub right: u16,
}

// Nodes: the first `used` of the array. It has a count beside it, since there is no heap and the array's size is fixed. The type asks nothing more;
// of the nodes of a run it is proved that no two are equal and that each comes after the nodes that it is over.
#[derive(Drop)]
pub struct Nodes {
    pub items: [Node; 384],
    pub used: u16,
}

// The state: nodes, and registers, which hold nodes' numbers; the first `used` of them, counted for the same reason.
#[derive(Drop)]
pub struct Machine {
    pub nodes: Nodes,
    pub registers: [u16; 256],
    pub used: u16,
}

// Whether a and b are keys, one public and one private, of one name.
#[tactic(auto, unfolding(crate::specs::Code::inverse_nodes))]
fn are_inverse(a: Node, b: Node) -> bool
    ensures { result ≡ inverse_nodes a b }
{
    let (Head::Atom(x), Head::Atom(y)) = (a.head, b.head) else {
        return false;
    };
    x.is_inverse_of(y) && a.left == b.left
}

impl Node {
    // Whether it is a word of this rule.
    fn is_word(self, rule: u8) -> bool
        ensures { result ≡ is_word self.head rule }
    {
        self.head == Head::Word(rule)
    }
}

// Whether x is the first part of a node and y the second part of the same.
#[tactic(auto, unfolding(crate::specs::Code::parts_of_one))]
fn are_parts_of_one(x: Node, y: Node) -> bool
    ensures { result ≡ parts_of_one x y }
{
    x.is_word(rules::FST) && y.is_word(rules::SND) && x.left == y.left
}

// ---- The reductions: what a rule's word over nodes gives, where that is no new term.

// What the reductions look at: the nodes of the operands, and the node of the left one's right operand, its key.
#[derive(Clone, Copy)]
pub struct Operands {
    pub left: Node,
    pub right: Node,
    pub key: Node,
}

// pair: the first and the second part of one term give that term.
fn joined(x: Node, y: Node) -> Option<u16>
    ensures { result ≡ joined_node x y }
{
    are_parts_of_one(x, y).then_some(x.left)
}

// fst or snd: the pair x gives its part.
fn parted(x: Node, part: u16) -> Option<u16>
    ensures { result ≡ parted_node x part }
{
    x.is_word(rules::PAIR).then_some(part)
}

// A rule that cancels the rule `inner`: a word x of that rule, whose key fits the other one, gives its operand.
fn cancelled(inner: u8, x: Node, fits: bool) -> Option<u16>
    ensures { result ≡ cancelled_node inner x fits }
{
    (x.is_word(inner) && fits).then_some(x.left)
}

// ---- The state, and one instruction. A node's number is a u16, and that it is below 384 is asked where a node is looked up: a type for such numbers would
// stand in every node and register.

impl Nodes {
    // The node of this number.
    fn node(&self, n: u16) -> Node
        requires { n < 384 }
        ensures { result ≡ node_of self.now.items n }
    {
        self.items[usize::from(n)]
    }

    fn operands(&self, a: u16, b: u16) -> Operands
        requires a_bound { a < 384 }
        requires b_bound { b < 384 }
        requires key_bound { (node_of self.now.items a).right < 384 }
        ensures { result ≡ operands_of self.now.items a b }
    {
        let left = self.node(a);
        Operands {
            left,
            right: self.node(b),
            key: self.node(left.right),
        }
    }

    // The node that is v, of those from `from` on and below n.
    fn find(&self, v: Node, from: u16, n: u16) -> Option<u16>
        requires from_le_n { from ≤ n }
        requires n_bound { n ≤ 384 }
        ensures { Finds self.now.items v from n result }
    {
        (from..n).find(|i| self.items[usize::from(*i)] == v)
    }

    // The number of v: what it reduces to, or the node after its left operand that is v.
    fn value_of(&self, v: Node, reduced: Option<u16>) -> Option<u16>
        requires left_bound { v.left < self.now.used }
        requires used_bound { self.now.used ≤ 384 }
        ensures { Valued self.now v reduced result }
    {
        reduced.or_else(|| self.find(v, v.left + 1, self.used))
    }

    // Puts v after the last node, where it was not found, and answers its number.
    fn put(&mut self, v: Node, found: Option<u16>) -> u16
        requires { self.old.used < 384 }
        ensures nodes { self.new ≡ with_node self.old v found }
        ensures number { result ≡ unwrap_or found self.old.used }
    {
        let n = self.used;
        if found.is_none() {
            self.items[usize::from(n)] = v;
            self.used = n + 1;
        }
        found.unwrap_or(n)
    }
}

impl Machine {
    // Puts v after the last node, where it was not found, and its number into the next register.
    fn place(&mut self, v: Node, found: Option<u16>)
        requires room { self.old.nodes.used < 384 }
        requires space { self.old.used < 256 }
        ensures { Placed self.old v found self.new }
    {
        let r = usize::from(self.used);
        self.registers[r] = self.nodes.put(v, found);
        self.used += 1;
    }

    // Executes one instruction: its result goes to the next register. Document 01 names the form: the state goes by value, and is handed back.
    fn step(mut self, i: Instruction) -> Self
        requires { Executable self (instruction_in i) }
        ensures { Executed self (instruction_in i) result }
    {
        let p = usize::from(i.left);
        let q = usize::from(i.operand());
        let a = self.registers[p];
        let b = self.registers[q];
        let o = self.nodes.operands(a, b);
        let x = o.left;
        let rule = i.rule;
        // A rule with no arm has no reduction.
        let reduced = match rule {
            rules::PAIR => joined(x, o.right),
            rules::FST => parted(x, x.left),
            rules::SND => parted(x, x.right),
            rules::ENC => cancelled(rules::DEC, x, x.right == b),
            rules::DEC => cancelled(rules::ENC, x, x.right == b),
            rules::ENCA => cancelled(rules::DECA, x, are_inverse(o.key, o.right)),
            rules::DECA => cancelled(rules::ENCA, x, are_inverse(o.key, o.right)),
            _ => None,
        };
        let v = Node {
            head: Head::Word(rule),
            left: a,
            right: b,
        };
        let found = self.nodes.value_of(v, reduced);
        self.place(v, found);
        self
    }

    // The state after the program's instructions.
    fn after(mut self, program: &[u8]) -> Self
        requires { Runnable self program.now }
        ensures { Ran self program.now (byte_at program.now 0) result }
    {
        let n = byte(program, 0);
        for i in 0..n {
            self = self.step(program::instruction_at(program, i));
        }
        self
    }
}

// ---- The start of a run.

fn atom(kind: Kind, name: u16) -> Node
    ensures { result ≡ record { head = Head.Atom kind; left = name; right = 0 } }
{
    Node {
        head: Head::Atom(kind),
        left: name,
        right: 0,
    }
}

// The node of a term's record.
fn node_of(submission: Submission, t: u8) -> Node
    requires { t < term_count submission.bytes.now }
    ensures { result ≡ node_for (record_at submission.entry.bytes.now t) }
{
    let table = submission.table();
    let term = table.term(t);
    let kind = table.kind(t);
    let Some(rule) = kind.rule() else {
        return atom(kind, term.name());
    };
    Node {
        head: Head::Word(rule),
        left: u16::from(term.x),
        right: u16::from(term.second_part()),
    }
}

// The atom of the guess's kind with this name, as a node.
fn guess_node(submission: Submission, name: u16) -> Node
    ensures { result ≡ guess_node submission.entry.bytes.now name }
{
    atom(submission.table().kind(submission.claim.guess), name)
}

// The name of the guess.
fn right_name(submission: Submission) -> u16
    ensures { result ≡ name_at submission.entry.bytes.now (guess_of submission.entry.bytes.now) }
{
    submission.table().term(submission.claim.guess).name()
}

impl Machine {
    // A state with no nodes and no registers.
    fn empty() -> Self
        ensures { Empty result }
    {
        Machine {
            nodes: Nodes {
                items: [atom(Kind::Plain, 0); 384],
                used: 0,
            },
            registers: [0u16; 256],
            used: 0,
        }
    }

    // Puts the terms, each under its own number: a `zip` of the array and the numbers would show this less.
    fn put_terms(&mut self, submission: Submission)
        requires { Empty self.old }
        ensures { TermsPut submission.entry.bytes.now self.new }
    {
        let n = submission.table().terms();
        for t in 0..n {
            self.nodes.items[usize::from(t)] = node_of(submission, t);
        }
        self.nodes.used = u16::from(n);
    }

    // Puts the knowledge into the first registers, entry i into register i: by its number, as the terms.
    fn put_knowledge(&mut self, submission: Submission)
        requires { TermsPut submission.bytes.now self.old }
        ensures { Loaded submission.entry.bytes.now self.new }
    {
        let table = submission.table();
        let n = table.entries();
        for i in 0..n {
            self.registers[usize::from(i)] = u16::from(table.entry(i));
        }
        self.used = u16::from(n);
    }

    // Puts the terms and the knowledge, and then the guess's node v and its number. Answers where v is among the terms.
    // The state is lent, since one that is handed on by value is copied.
    fn start(&mut self, submission: Submission, v: Node) -> Option<u16>
        requires { Empty self.old }
        ensures { Started submission.entry.bytes.now v result self.new }
    {
        self.put_terms(submission);
        self.put_knowledge(submission);
        let found = self.nodes.find(v, 0, self.nodes.used);
        self.place(v, found);
        found
    }
}

// ---- The signal.

impl Machine {
    // The signal of a test that asks for this relation.
    fn signal(&self, relation: Relation, t: Test) -> u16
        requires left_bound { get_or self.now.registers t.left 0 < 384 }
        requires right_bound { get_or self.now.registers t.right 0 < 384 }
        ensures { result ≡ cond (related (relation_is relation) self.now.nodes.items (get_or self.now.registers t.left 0) (get_or self.now.registers t.right 0)) 1 0 }
    {
        let a = self.registers[usize::from(t.left)];
        let b = self.registers[usize::from(t.right)];
        let holds = match relation {
            Relation::Equal => a == b,
            Relation::Inverse => are_inverse(self.nodes.node(a), self.nodes.node(b)),
        };
        u16::from(holds)
    }
}

// Check 15, and then the signal.
fn tried(checked: CheckedProgram, name: u16) -> Result<u16, Refusal>
    ensures { answer_of result ≡ answered (fails_if (is_stale_name checked.entry.submission.bytes.now name) 15 0) (done (signal_of checked.entry.submission.bytes.now name checked.entry.program.now)) }
{
    let submission = checked.submission;
    let mut m = Machine::empty();
    let guess = guess_node(submission, name);
    let found = m.start(submission, guess);
    let terms = ListedTerms {
        submission,
        nodes: &m.nodes,
    };
    Fault::Stale.at(0).when(terms.is_stale(guess, found))?;
    let m = m.after(checked.program);
    Ok(m.signal(checked.relation, program::test_at(checked.program)))
}

// The signal of a program on a submission, with a name for the guess; or the refusal of the first of checks 1 to 5, 13 and 15 that fails.
pub fn run(s: &[u8], name: u16, program: &[u8]) -> Result<u16, Refusal>
    ensures { answer_of result ≡ run_answer s.now name program.now }
{
    tried(CheckedProgram::read(s, program)?, name)
}

// ---- The registers, with the right guess.

// For each register of a program, run with the right guess, the number of its term where that is listed, and else a number that is not below T.
// It asks by clauses, and for no `CheckedProgram`: a caller that has the two facts needs no value.
pub fn register_numbers(s: &[u8], program: &[u8]) -> [u16; 256]
    requires submission_read { SubmissionRead s.now }
    requires program_value { bad_program s.now program.now ≡ false }
    ensures { RegisterNumbers s.now program.now result }
{
    let submission = Submission::of(s);
    let mut m = Machine::empty();
    let guess = guess_node(submission, right_name(submission));
    m.start(submission, guess);
    m.after(program).registers
}
