// The text that the program `verdict` prints, written into a buffer that the caller lends.
// Promises: every function is total. What it writes is the text that a definition of specs/ gives, as far as the buffer reaches,
// no other byte changes, and the result is the place reached (`Puts`).
// Each piece is put by a function over a `Writer`, and no type is `Display`: `write!` says what was written only where it returns `Ok`, and never
// that it does, so it promises no text.
#![tactic(auto)]

ghost use Rattle.std.specs.Prelude.{◌≡◌, ◌+◌, ◌<◌};
ghost use Rattle.term.specs.Number.{word_of};
ghost use Rattle.term.specs.Code.{relation_is};
ghost use Rattle.base.specs.Answer.{done, Puts};
ghost use Rattle.base.specs.Code.{Wrote};
ghost use Rattle.program.specs.Program.{relation_of, relation_word, row_of, instruction_at, test_at};
ghost use Rattle.program.specs.Code.{instruction_in, test_in};
ghost use Rattle.text.specs.Text.{decimal, register_text, second_text, step_line, step_lines, test_line, answer_text, refused_text};

use base::Writer;
use itoa::Buffer;
use program::{Instruction, Test};
use term::{Relation, rules};

// A rule's word; a number that is no rule has none.
#[tactic(auto, unfolding(term::specs::Number::word_of))]
fn word_of(rule: u8) -> &'static [u8]
    ensures { result.now ≡ word_of rule }
{
    match rule {
        rules::PAIR => b"pair",
        rules::FST => b"fst",
        rules::SND => b"snd",
        rules::ENC => b"enc",
        rules::DEC => b"dec",
        rules::ENCA => b"enca",
        rules::DECA => b"deca",
        rules::HASH => b"hash",
        _ => b"",
    }
}

// A number in decimal.
fn put_number(out: &mut Writer, n: u16)
    ensures { Wrote out.old (decimal n) out.new }
{
    out.put_all(Buffer::new().format(n).as_bytes());
}

fn put_register(out: &mut Writer, r: u16)
    ensures { Wrote out.old (register_text r) out.new }
{
    out.put(b'r');
    put_number(out, r);
}

// A space and the second register, where the rule has two operands.
fn put_second(out: &mut Writer, rule: u8, second: u8)
    ensures { Wrote out.old (second_text rule second) out.new }
{
    if !rules::has_one(rule) {
        out.put(b' ');
        put_register(out, u16::from(second));
    }
}

// The line of an instruction whose result goes to register r.
fn put_step(out: &mut Writer, r: u16, i: Instruction)
    ensures { Wrote out.old (step_line r (instruction_in i)) out.new }
{
    put_register(out, r);
    out.put_all(b" = ");
    out.put_all(word_of(i.rule));
    out.put(b' ');
    put_register(out, u16::from(i.left));
    put_second(out, i.rule, i.right);
    out.put(b'\n');
}

// The lines of the first n instructions on a page; the first of them writes register r.
fn put_steps(out: &mut Writer, r: u16, page: &[u8], n: u8)
    requires { r < 512 }
    ensures { Wrote out.old (step_lines r page.now n) out.new }
{
    for i in 0..n {
        put_step(out, r + u16::from(i), program::instruction_at(page, i));
    }
}

// The word of a test's letter; one that is none has no word.
fn put_relation(out: &mut Writer, letter: u8)
    ensures { Wrote out.old (relation_word (relation_of letter)) out.new }
{
    match program::relation_of(letter) {
        Some(Relation::Equal) => out.put_all(b"="),
        Some(Relation::Inverse) => out.put_all(b"hasinv"),
        None => {}
    }
}

fn put_test(out: &mut Writer, t: Test)
    ensures { Wrote out.old (test_line (test_in t)) out.new }
{
    out.put_all(b"signal ");
    put_register(out, u16::from(t.left));
    out.put(b' ');
    put_relation(out, t.letter);
    out.put(b' ');
    put_register(out, u16::from(t.right));
    out.put(b'\n');
}

// What is printed of an acceptance that carries n, with the program on the page.
pub fn write_accepted(out: &mut [u8], known: u8, n: u8, page: &[u8]) -> usize
    ensures { Puts out.old 0 (answer_text known (done n) page.now) out.new result }
{
    let mut text = Writer::new(out);
    text.put_all(b"accepted ");
    put_number(&mut text, u16::from(n));
    text.put(b'\n');
    put_steps(&mut text, u16::from(known) + 1, page, n);
    put_test(&mut text, program::test_at(page));
    text.at
}

// What is printed of a refusal.
pub fn write_refused(out: &mut [u8], number: u8, place: u16) -> usize
    ensures { Puts out.old 0 (refused_text number place) out.new result }
{
    let mut text = Writer::new(out);
    text.put_all(b"refused ");
    put_number(&mut text, u16::from(number));
    text.put(b' ');
    put_number(&mut text, place);
    text.put(b'\n');
    text.at
}
