//! A line of text, without its end.

ghost use Rattle.std.specs.Prelude.{◌≡◌, ◌↔◌, IsTrue, ◌+◌, ◌<◌, ◌≤◌, length, ◌++◌, ◌∷◌, []};

use arrayvec::ArrayVec;
use std::marker::Model;

/// At most 96 bytes of text, which take no memory beside the line itself: enough for each statement, of which the longest is a
/// transfer of sixteen registers. Its value in contracts is the list of its bytes.
#[derive(Drop)]
pub struct Line {
    text: ArrayVec<u8, 96>,
}

impl Model for Line {
    ghost use Rattle.std.specs.Prelude.{ℕ, List};

    ghost Value = { List ℕ };

    ghost view = { λ l. l.text.items };

    ghost inverse = { λ l. record { text = record { items = l } } };
}

impl Line {
    /// An empty line.
    pub fn new() -> Line
        ensures { result ≡ [] }
    {
        Line {
            text: ArrayVec::new(),
        }
    }

    /// The text, at most 96 bytes.
    pub fn bytes(&self) -> &[u8]
        ensures text { result.now ≡ self.now }
        ensures room { length result.now ≤ 96 }
    {
        self.text.as_slice()
    }

    /// Makes it empty.
    pub fn clear(&mut self)
        ensures { self.new ≡ [] }
    {
        self.text.clear();
    }

    pub(crate) fn put(&mut self, byte: u8)
        requires { length self.old < 96 }
        ensures text { self.new ≡ self.old ++ byte ∷ [] }
        ensures room { length self.new ≡ length self.old + 1 }
    {
        self.text.push(byte);
    }

    pub(crate) fn put_bytes(&mut self, bytes: &[u8])
        requires { length self.old + length bytes.now ≤ 96 }
        ensures text { self.new ≡ self.old ++ bytes.now }
        ensures room { length self.new ≡ length self.old + length bytes.now }
    {
        let _ = self.text.try_extend_from_slice(bytes);
    }

    pub(crate) fn put_text(&mut self, text: &str)
        requires { length self.old + length text.now ≤ 96 }
        ensures text { self.new ≡ self.old ++ text.now }
        ensures room { length self.new ≡ length self.old + length text.now }
    {
        self.put_bytes(text.as_bytes());
    }
}

/// Whether two texts are the same.
pub fn same(a: &[u8], b: &[u8]) -> bool
    ensures { IsTrue result ↔ (a.now ≡ b.now) }
{
    a == b
}
