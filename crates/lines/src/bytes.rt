// The bytes that part a text, and where the next of them stands.
ghost use Rattle.std.specs.Prelude.{◌≡◌, ◌+◌, ◌≤◌, drop, length};
ghost use Rattle.lines.specs.Lines.{before};

pub const TAB: u8 = b'\t';

pub const LINE_FEED: u8 = b'\n';

// Where the next byte of a kind stands; the length of the text where there is none.
pub fn next_at(text: &[u8], from: usize, kind: u8) -> usize
    requires { from ≤ length text.now }
    ensures place { result ≡ from + before kind (drop from text.now) }
    ensures within { result ≤ length text.now }
{
    match text[from..].iter().position(|byte| *byte == kind) {
        Some(ahead) => from + ahead,
        None => text.len(),
    }
}
