// A buffer that is filled from its start, or from any place on.
ghost use Rattle.std.specs.Prelude.{◌≡◌, [], ◌∷◌};
ghost use Rattle.base.specs.Code.{Wrote};

// Bytes that don't fit are left out, and the place stays at the buffer's end. `Write` of std's for `&mut [u8]` doesn't tell which bytes
// it stored, and is an error where this leaves out.
#[derive(Drop)]
pub struct Writer<'a> {
    pub buffer: &'a mut [u8],
    pub at: usize,
}

impl<'a> Writer<'a> {
    pub fn new(buffer: &'a mut [u8]) -> Self
        ensures same { result.buffer.ghost_name ≡ buffer.entry.ghost_name }
        ensures now { result.buffer.now ≡ buffer.entry.now }
        ensures at { result.at ≡ 0 }
    {
        Writer { buffer, at: 0 }
    }

    pub fn put(&mut self, b: u8)
        ensures { Wrote self.old (b ∷ []) self.new }
    {
        if self.at < self.buffer.len() {
            self.buffer[self.at] = b;
            self.at += 1;
        }
    }

    // As `put_all`, of a few bytes: where they fit they are stored at once. `write` of M1 takes 962 instructions so, and 1034 by `put_all`.
    pub fn put_array<const N: usize>(&mut self, bytes: [u8; N])
        ensures { Wrote self.old bytes.entry self.new }
    {
        if self.buffer.len() <= self.at || self.buffer.len() - self.at < N {
            self.put_all(&bytes);
            return;
        }
        let end = self.at + N;
        self.buffer[self.at..end].copy_from_slice(&bytes);
        self.at = end;
    }

    pub fn put_all(&mut self, bytes: &[u8])
        ensures { Wrote self.old bytes.now self.new }
    {
        if self.buffer.len() <= self.at {
            return;
        }
        let count = bytes.len().min(self.buffer.len() - self.at);
        let end = self.at + count;
        self.buffer[self.at..end].copy_from_slice(&bytes[..count]);
        self.at = end;
    }
}
