// Little-endian words of 32 bits on the caller's own bytes: a word, or a queue row of five, taken by a reader and written
// by a writer where there is room. Both keep their place. Nothing else looks at a byte of a chain file.
#![tactic(auto)]

ghost use Rattle.std.specs.Prelude.{◌≡◌, ◌∷◌, [], length};
ghost use Rattle.words.specs.Put.{Room};
ghost use Rattle.words.specs.Writer.{Begins, Free, Wrote};
ghost use Rattle.words.specs.Words.{bytes_of, word_at};
ghost use Rattle.words.specs.Rows.{row, row_at};
ghost use Rattle.words.specs.Reader.{moved};

// A queue row: produce, threshold and consume of 01, the capacity B and the reserved word.
#[repr(C)]
#[derive(Clone, Copy, PartialEq, Eq)]
pub struct Queue {
    pub produce: u32,
    pub threshold: u32,
    pub consume: u32,
    pub capacity: u32,
    pub reserved: u32,
}

// A reader on the caller's own bytes: it borrows them, copies none, and keeps the place that it has come to.
#[derive(Clone, Copy)]
pub struct ChainReader<'a> {
    pub bytes: &'a [u8],
    pub at: usize,
}

// The row of a slot that no queue has: all zero, as C's record holds it, so no `Option` stands in a slot.
pub const NONE: Queue = Queue {
    produce: 0,
    threshold: 0,
    consume: 0,
    capacity: 0,
    reserved: 0,
};

impl<'a> ChainReader<'a> {
    // A reader at a place of the bytes.
    pub fn new(bytes: &'a [u8], at: usize) -> Self
        ensures { (result.bytes ≡ bytes.entry) × (result.at ≡ at) }
    {
        ChainReader { bytes, at }
    }

    // The word at the reader's place; the reader moves on behind it.
    pub fn take(&mut self) -> u32
        requires { Room self.old.bytes.now self.old.at 4 }
        ensures { (result ≡ word_at self.old.bytes.now self.old.at)
            × (self.new ≡ moved 4 self.old) }
    {
        let w = word(self.bytes, self.at);
        self.at += 4;
        w
    }

    // The queue row at the reader's place; the reader moves on behind it.
    pub fn take_row(&mut self) -> Queue
        requires { Room self.old.bytes.now self.old.at 20 }
        ensures { (result ≡ row_at self.old.bytes.now self.old.at)
            × (self.new ≡ moved 20 self.old) }
    {
        let q = row(self.bytes, self.at);
        self.at += 20;
        q
    }
}

// A writer on the caller's own bytes: it borrows them, and keeps the place that it has come to.
#[derive(Drop)]
pub struct Writer<'a> {
    pub out: &'a mut [u8],
    pub at: usize,
}

impl<'a> Writer<'a> {
    // A writer at the front of the bytes.
    pub fn new(out: &'a mut [u8]) -> Self
        ensures { Begins out.entry result }
    {
        Writer { out, at: 0 }
    }

    // Writes one byte.
    pub fn byte(&mut self, b: u8)
        requires { Free self.old 1 }
        ensures { Wrote self.old (b ∷ []) self.new }
    {
        self.out[self.at] = b;
        self.at += 1;
    }

    // Writes a copy of `text`.
    pub fn bytes(&mut self, text: &[u8])
        requires { Free self.old (length text.now) }
        ensures { Wrote self.old text.now self.new }
    {
        let end = self.at + text.len();
        self.out[self.at..end].copy_from_slice(text);
        self.at = end;
    }

    // Writes a word.
    pub fn word(&mut self, w: u32)
        requires { Free self.old 4 }
        ensures { Wrote self.old (bytes_of (w ∷ [])) self.new }
    {
        self.bytes(&w.to_le_bytes());
    }

    // Writes a queue row.
    #[tactic(auto, unfolding(crate::specs::Words::bytes_of))]
    pub fn row(&mut self, q: Queue)
        requires { Free self.old 20 }
        ensures { Wrote self.old (bytes_of (row q)) self.new }
    {
        self.word(q.produce);
        self.word(q.threshold);
        self.word(q.consume);
        self.word(q.capacity);
        self.word(q.reserved);
    }
}

// The five words of a queue row, all of which are there.
fn row(bytes: &[u8], at: usize) -> Queue
    requires { Room bytes.now at 20 }
    ensures { result ≡ row_at bytes.now at }
{
    Queue {
        produce: word(bytes, at),
        threshold: word(bytes, at + 4),
        consume: word(bytes, at + 8),
        capacity: word(bytes, at + 12),
        reserved: word(bytes, at + 16),
    }
}

// The word that four bytes make, all of which are there: no other function reads a byte of a file.
fn word(bytes: &[u8], at: usize) -> u32
    requires { Room bytes.now at 4 }
    ensures { result ≡ word_at bytes.now at }
{
    u32::from_le_bytes([bytes[at], bytes[at + 1], bytes[at + 2], bytes[at + 3]])
}
