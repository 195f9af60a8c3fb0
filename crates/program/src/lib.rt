// Register programs: a list of instructions and a test, their bytes, and check 13.
// Promises: every function is total, and its answer is what the definitions of specs/ give.
#![tactic(auto)]

ghost use Rattle.std.specs.Prelude.{◌≡◌, ◌++◌, ◌+◌, ◌*◌, ◌≤◌, ◌<◌, length, drop, ltb};
ghost use Rattle.std.proofs.lemmas.List.Edits.{sets};
ghost use Rattle.base.specs.Words.{byte as byte_at};
ghost use Rattle.term.specs.Code.{relation_is};
ghost use Rattle.program.specs.Program.{row_of, relation_of, instruction_bytes, bytes_of, program_length, instruction_at, test_at, operand};
ghost use Rattle.program.specs.Code.{relation_in, asked, asked_by, asks, instruction_in, instructions_in, test_in, program_in};
ghost use Rattle.base.specs.Computed.{any, fails_if};
ghost use Rattle.base.specs.Code.{check_of};
ghost use Rattle.program.specs.Computed.{bad_instruction, bad_program};

use base::{Fault, Refusal, Writer, byte, bytes_at};
use term::{Relation, rules};

// ---- The tests, as specs/Program.antt lists them. Both name two registers.

pub const EQUAL: u8 = b'=';

pub const INVERSE: u8 = b'i';

// What a test asks of the registers' terms, where it is one. A letter is read and written by functions: `Relation` is the crate `term`'s, which knows
// no letters, so neither `TryFrom<u8>` for it nor `From<Relation>` for a byte can be written here.
#[tactic(auto, unfolding(crate::specs::Program::relation_of))]
pub fn relation_of(letter: u8) -> Option<Relation>
    ensures { relation_in result ≡ relation_of letter }
{
    match letter {
        EQUAL => Some(Relation::Equal),
        INVERSE => Some(Relation::Inverse),
        _ => None,
    }
}

// The letter of a test.
pub fn letter_of(relation: Relation) -> u8
    ensures { result ≡ (row_of (relation_is relation)).letter }
{
    match relation {
        Relation::Equal => EQUAL,
        Relation::Inverse => INVERSE,
    }
}

// ---- Programs.

// One instruction: a rule and the registers of its operands. The rule is a byte, since no check has passed what is read.
#[derive(Clone, Copy, PartialEq, Eq)]
pub struct Instruction {
    pub rule: u8,
    pub left: u8,
    pub right: u8,
}

impl Instruction {
    // The register of the second operand; a rule with one operand takes it twice.
    pub fn operand(self) -> u8
        ensures { result ≡ operand (instruction_in self) }
    {
        rules::second_operand(self.rule, self.left, self.right)
    }
}

// The test that ends a program: a letter and two registers. The letter is a byte, since no check has passed what is read.
#[derive(Clone, Copy, PartialEq, Eq)]
pub struct Test {
    pub letter: u8,
    pub left: u8,
    pub right: u8,
}

// The instructions, at most 128 where it is written, and the test.
#[derive(Clone, Copy)]
pub struct Program<'a> {
    pub instructions: &'a [Instruction],
    pub test: Test,
}

// The length of the bytes of a program of n instructions.
pub fn program_length(n: u8) -> u16
    ensures { result ≡ program_length n }
{
    3 * u16::from(n) + 4
}

// ---- Reading a program's bytes.

// Instruction i. Instructions are read at their numbers, as what stands past the end reads as 0, and chunks of the bytes would leave that out.
#[tactic(auto, unfolding(crate::specs::Program::instruction_at))]
pub fn instruction_at(program: &[u8], i: u8) -> Instruction
    ensures { instruction_in result ≡ instruction_at program.now i }
{
    let [rule, left, right] = bytes_at::<3>(program, 3 * usize::from(i) + 1);
    Instruction { rule, left, right }
}

// The three bytes behind the instructions.
#[tactic(auto, unfolding(crate::specs::Program::instruction_at))]
pub fn test_at(program: &[u8]) -> Test
    ensures { test_in result ≡ test_at program.now }
{
    let [letter, left, right] = bytes_at::<3>(program, 3 * usize::from(byte(program, 0)) + 1);
    Test {
        letter,
        left,
        right,
    }
}

// ---- Writing a program's bytes.

// Writes the instructions from the start of the part.
fn write_instructions(instructions: &[Instruction], part: &mut [u8])
    ensures { part.new ≡ sets part.old 0 (instruction_bytes (instructions_in instructions.now)) }
{
    let mut writer = Writer::new(part);
    for x in instructions {
        writer.put_array([x.rule, x.left, x.right]);
    }
}

// Writes any program: the count of instructions in the first byte, the instructions in the part after it, and the test behind them.
pub fn write(program: Program, page: &mut [u8])
    requires count_bound { length program.instructions.now ≤ 128 }
    requires count_in_bounds { program_length (length program.instructions.now) ≤ length page.old }
    ensures { page.new ≡ bytes_of (program_in program.entry) ++ drop (program_length (length program.entry.instructions.now)) page.old }
{
    let count = program.instructions.len();
    let test = program.test;
    page[0] = u8::try_from(count).unwrap();
    write_instructions(program.instructions, &mut page[1..]);
    let mut writer = Writer {
        buffer: page,
        at: 3 * count + 1,
    };
    writer.put_array([test.letter, test.left, test.right]);
}

// ---- Check 13.

// Whether the register is among the first `written`.
fn is_written(register: u8, written: usize) -> bool
    ensures { result ≡ ltb register written }
{
    usize::from(register) < written
}

// Whether the instruction is bad, with the first `written` registers written before it.
#[tactic(auto, unfolding(crate::specs::Computed::bad_instruction))]
fn is_instruction_bad(i: Instruction, written: usize) -> bool
    ensures { result ≡ bad_instruction written (instruction_in i) }
{
    if !rules::is_rule(i.rule) || !is_written(i.left, written) {
        return true;
    }
    if rules::has_one(i.rule) {
        return i.right != 0;
    }
    !is_written(i.right, written)
}

// Whether some instruction is bad, where `known` registers hold the knowledge.
fn has_bad_instruction(program: &[u8], known: u8) -> bool
    ensures { result ≡ any (λ i. bad_instruction (known + 1 + i) (instruction_at program.now i)) (byte_at program.now 0) }
{
    (0..byte(program, 0)).any(|i| {
        let written = usize::from(known) + 1 + usize::from(i);
        is_instruction_bad(instruction_at(program, i), written)
    })
}

// What the test asks, where it is good with the first `written` registers written.
fn asked_by(t: Test, written: usize) -> Option<Relation>
    ensures { relation_in result ≡ asked_by written (test_in t) }
{
    if !is_written(t.left, written) || !is_written(t.right, written) {
        return None;
    }
    relation_of(t.letter)
}

// What the program's test asks, where the program is good: row 13 of the verdicts. An empty program is not of its length either.
fn asked(s: &[u8], program: &[u8]) -> Option<Relation>
    ensures { relation_in result ≡ asked s.now program.now }
{
    let n = byte(program, 0);
    if 128 < n || program.len() != usize::from(program_length(n)) {
        return None;
    }
    let known = submission::entries(s);
    if has_bad_instruction(program, known) {
        return None;
    }
    asked_by(test_at(program), usize::from(known) + 1 + usize::from(n))
}

// Check 13, and what the program's test asks where it passes.
pub fn check_program(s: &[u8], program: &[u8]) -> Result<Relation, Refusal>
    ensures answer { check_of result ≡ fails_if (bad_program s.now program.now) 13 0 }
    ensures asks { asks result ≡ asked s.now program.now }
{
    asked(s, program).ok_or(Fault::Program.at(0))
}
