//! Text on its way to a sink, by whole buffers.

ghost use Rattle.std.specs.Prelude.{◌≡◌, ◌+◌, ◌<◌, ◌≤◌, ◌++◌, ◌∷◌, [], length, OnErr, OnOk};
ghost use Rattle.ds_io.specs.Faults.{Rose};
ghost use Rattle.ds_io.specs.Sinks.{Appended, AppendedFront};
ghost use Rattle.asm_files.specs.Writer.Pages.{Passed};

use arrayvec::ArrayVec;
use asm_text::Line;
use ds_io::{Failed, Sink, put_all};
use std::marker::Model;

/// At most 4,096 bytes, which take no memory beside the page itself. Its value in contracts is the list of its bytes.
#[derive(Drop)]
pub struct TextPage {
    text: ArrayVec<u8, 4096>,
}

impl Model for TextPage {
    ghost use Rattle.std.specs.Prelude.{ℕ, List};

    ghost Value = { List ℕ };

    ghost view = { λ p. p.text.items };

    ghost inverse = { λ p. record { text = record { items = p } } };
}

impl TextPage {
    /// An empty page.
    pub fn new() -> TextPage
        ensures { result ≡ [] }
    {
        TextPage {
            text: ArrayVec::new(),
        }
    }

    fn bytes(&self) -> &[u8]
        ensures { result.now ≡ self.now }
    {
        self.text.as_slice()
    }

    fn len(&self) -> usize
        ensures { result ≡ length self.now }
    {
        self.text.len()
    }

    fn clear(&mut self)
        ensures { self.new ≡ [] }
    {
        self.text.clear();
    }

    fn put_line(&mut self, line: &Line)
        requires { length self.old + 97 ≤ 4096 }
        ensures { self.new ≡ self.old ++ (line.now ++ 10 ∷ []) }
    {
        let _ = self.text.try_extend_from_slice(line.bytes());
        self.text.push(b'\n');
    }
}

/// Sends a page on where no line fits any more.
fn make_room<O: Sink>(page: &mut TextPage, out: &mut O) -> Result<(), Failed>
    ensures room { OnOk result (length page.new + 97 ≤ 4096) }
    ensures ok { OnOk result (Passed O.tells O.taken out.old out.new page.old page.new []) }
    ensures err { OnErr result (AppendedFront O.tells O.taken out.old out.new page.old) }
    ensures cause { OnErr result (Rose (O.faults out.old) (O.faults out.new)) }
    ensures later { O.faults out.old ≤ O.faults out.new }
{
    if page.len() <= 4096 - 97 {
        return Ok(());
    }
    put_all(out, page.bytes())?;
    page.clear();
    Ok(())
}

/// Puts a line and its line feed on a page, and sends the page on before that where the line doesn't fit.
pub fn put_line<O: Sink>(line: &Line, page: &mut TextPage, out: &mut O) -> Result<(), Failed>
    ensures ok { OnOk result (Passed O.tells O.taken out.old out.new page.old page.new (line.now ++ 10 ∷ [])) }
    ensures err { OnErr result (AppendedFront O.tells O.taken out.old out.new (page.old ++ (line.now ++ 10 ∷ []))) }
    ensures cause { OnErr result (Rose (O.faults out.old) (O.faults out.new)) }
    ensures later { O.faults out.old ≤ O.faults out.new }
{
    make_room(page, out)?;
    page.put_line(line);
    Ok(())
}

/// Sends a page on, as it is.
pub fn send<O: Sink>(page: &TextPage, out: &mut O) -> Result<(), Failed>
    ensures ok { OnOk result (Appended O.tells O.taken out.old out.new page.now) }
    ensures err { OnErr result (AppendedFront O.tells O.taken out.old out.new page.now) }
    ensures cause { OnErr result (Rose (O.faults out.old) (O.faults out.new)) }
    ensures later { O.faults out.old ≤ O.faults out.new }
{
    put_all(out, page.bytes())?;
    Ok(())
}
