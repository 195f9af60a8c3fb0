// What the crates above use: bytes, chains of numbers, a buffer that is filled, and what a check refuses; in specs/ and proofs/ also what a call
// answers, the first failing place of a scan and a list grown at its end.
// Promises: every function is total, and its answer and the bytes that it stores are what the definitions of specs/ give.
#![tactic(auto)]

pub mod byte_chains;
pub mod refusal;
pub mod writer;

ghost use Rattle.std.specs.Prelude.{◌≡◌, ℕ, ◌+◌, ◌*◌, ◌^◌, ◌<◌, get_or};
ghost use Rattle.base.specs.Words.{byte as byte_at};
ghost use Rattle.base.specs.Code.{check_of};
ghost use Rattle.base.specs.Computed.{check_room as room_check};

pub use byte_chains::ByteChains;
pub use refusal::{Fault, Refusal};
pub use writer::Writer;

// The byte at i, or 0 past the end, as the definitions read it.
pub fn byte(s: &[u8], i: usize) -> u8
    ensures { result ≡ byte_at s.now i }
{
    s.get(i).copied().unwrap_or(0)
}

// The N bytes from `at` on, and 0 past the end.
pub fn bytes_at<const N: usize>(s: &[u8], at: usize) -> [u8; N]
    requires { at + N < 2 ^ 63 }
    ensures { (i : ℕ) → i < N → get_or result i 0 ≡ byte_at s.now (at + i) }
{
    // Where all N are there, the compiler knows how many are copied, and holds them in no memory.
    if at + N <= s.len() {
        let mut bytes = [0u8; N];
        bytes.copy_from_slice(&s[at..at + N]);
        return bytes;
    }
    let mut bytes = [0u8; N];
    let from = at.min(s.len());
    let count = s.len() - from;
    bytes[..count].copy_from_slice(&s[from..from + count]);
    bytes
}

// Two bytes from i on, high byte first.
pub fn word(s: &[u8], i: usize) -> usize
    requires { i < 65536 }
    ensures { result ≡ byte_at s.now i * 256 + byte_at s.now (i + 1) }
{
    usize::from(u16::from_be_bytes(bytes_at::<2>(s, i)))
}

// Check 11: the page, of `room` bytes, has no room for what is written.
pub fn check_room(room: usize, needed: u16) -> Result<(), Refusal>
    ensures { check_of result ≡ room_check needed room }
{
    Fault::Page.at(needed).when(room < usize::from(needed))
}
