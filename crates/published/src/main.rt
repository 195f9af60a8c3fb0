// Tries the published examples: reads a bundle of submissions from standard input, each after its length in two bytes, high byte first,
// and prints the verdict on each. Promises nothing of its own; what it must print is stored beside it.
#![tactic(auto)]

use std::io;

fn print_verdict(rt: &impl Print, s: &[u8]) -> io::Result<()> {
    let mut text = [0u8; 4096];
    let written = checker::write_verdict(s, &mut text);
    rt.write_all(&text[..written])
}

// The verdicts on the submissions of a bundle, up to one that is cut short.
fn print_all(rt: &impl Print, bundle: &[u8]) -> io::Result<()> {
    // A walk by pattern, and no `for`: where a submission ends stands in the bytes before it, so no iterator of the library cuts the bundle.
    let mut rest = bundle;
    while let [high, low, after @ ..] = rest {
        let length = usize::from(u16::from_be_bytes([*high, *low]));
        let Some((submission, later)) = after.split_at_checked(length) else {
            break;
        };
        print_verdict(rt, submission)?;
        rest = later;
    }
    Ok(())
}

fn main(rt: HostRuntime) -> io::Result<()> {
    let mut bundle = [0u8; 65536];
    let length = input::read(&mut rt.stdin(), &mut bundle)?;
    print_all(&rt, &bundle[..length])
}
