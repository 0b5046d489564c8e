//! A line of output, with its end.

ghost use Rattle.std.specs.Prelude.{◌≡◌, ◌+◌, ◌<◌, ◌≤◌, length, ◌++◌, []};

use arrayvec::ArrayVec;
use std::marker::Model;

/// At most 128 bytes of output, which take no memory beside the line itself: enough for each step, of which the longest is that of
/// the longest statement. Its value in contracts is the list of its bytes.
#[derive(Drop)]
pub struct OutLine {
    text: ArrayVec<u8, 128>,
}

impl Model for OutLine {
    ghost use Rattle.std.specs.Prelude.{ℕ, List};

    ghost Value = { List ℕ };

    ghost view = { λ l. l.text.items };

    ghost inverse = { λ l. record { text = record { items = l } } };
}

impl OutLine {
    /// An empty line.
    pub fn new() -> OutLine
        ensures { result ≡ [] }
    {
        OutLine {
            text: ArrayVec::new(),
        }
    }

    /// The bytes, at most 128.
    pub fn bytes(&self) -> &[u8]
        ensures text { result.now ≡ self.now }
        ensures room { length result.now ≤ 128 }
    {
        self.text.as_slice()
    }

    pub(crate) fn put(&mut self, bytes: &[u8])
        requires { length self.old + length bytes.now ≤ 128 }
        ensures text { self.new ≡ self.old ++ bytes.now }
        ensures room { length self.new ≡ length self.old + length bytes.now }
    {
        let _ = self.text.try_extend_from_slice(bytes);
    }
}
