//! The names of the pressed keys.

ghost use Rattle.std.specs.Prelude.{◌≡◌, ◌≤◌, ◌+◌, ◌<◌, ◌∷◌, [], length, drop, map, slice_index_or, IfErr};
ghost use Rattle.nds_words.specs.Scripts.{key_names};
ghost use Rattle.nds_words.specs.Reader.Lines.{further, some};
ghost use Rattle.nds_words.specs.Reader.Names.{common, may_end, names_from};

/// The name of a key, by its bit. (GBATEK, "DS Keypad"; the names are our choice.)
#[tactic(auto, unfolding(crate::specs::Scripts::key_names))]
fn name_of(key: usize) -> &'static [u8]
    requires { key < 12 }
    ensures name { result.now ≡ slice_index_or key_names key [] }
    ensures short { length result.now ≤ 6 }
{
    match key {
        0 => b"A",
        1 => b"B",
        2 => b"SELECT",
        3 => b"START",
        4 => b"RIGHT",
        5 => b"LEFT",
        6 => b"UP",
        7 => b"DOWN",
        8 => b"R",
        9 => b"L",
        10 => b"X",
        11 => b"Y",
        _ => unreachable!(),
    }
}

/// How many bytes a text has in common with the front of a piece.
pub(crate) fn common(piece: &[u8], text: &[u8]) -> usize
    ensures count { result ≡ common piece.now text.now }
    ensures within { (result ≤ length piece.now) × (result ≤ length text.now) }
{
    let mut count = 0;
    while count < piece.len() && count < text.len() && piece[count] == text[count] {
        count += 1;
    }
    count
}

/// The same of a name and the mark before it.
fn common_marked(mark: u8, name: &[u8], text: &[u8]) -> usize
    requires { length name.now ≤ 6 }
    ensures count { result ≡ common (mark ∷ name.now) text.now }
    ensures within { (result ≤ length name.now + 1) × (result ≤ length text.now) }
{
    match text {
        [first, rest @ ..] if *first == mark => 1 + common(name, rest),
        _ => 0,
    }
}

/// Whether a name may end before this: nothing, or a plus sign.
fn may_end(text: &[u8]) -> bool
    ensures { result ≡ may_end text.now }
{
    text.is_empty() || text[0] == b'+'
}

/// The bits of the names that are the rest of a line, after a space and with plus signs between them; or how many bytes of the line can
/// be the front of a line.
pub(crate) fn read_names(line: &[u8], from: usize) -> Result<u16, usize>
    requires from { from ≤ length line.now }
    requires few { from ≤ 11 }
    ensures is { result ≡ further from (some (names_from 32 key_names (drop from line.now))) }
    ensures few { IfErr result (λ count. count < 100) }
{
    let mut pressed: u16 = 0;
    let mut at = from;
    let mut reached = from;
    let mut mark = b' ';
    for key in 0..12usize {
        let name = name_of(key);
        let count = common_marked(mark, name, &line[at..]);
        reached = reached.max(at + count);
        if count == name.len() + 1 && may_end(&line[at + count..]) {
            pressed += 1 << key;
            at += count;
            mark = b'+';
        }
    }
    if at == line.len() && pressed != 0 {
        Ok(pressed)
    } else {
        Err(reached)
    }
}
