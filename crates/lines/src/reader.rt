// The reader: it holds the text it was lent and a position, and hands over the next line, line feed and all.
ghost use Rattle.std.specs.Prelude.{◌≡◌};
ghost use Rattle.std.specs.Iterator.{item_count};
ghost use Rattle.lines.specs.Handed.{HandsOver, lines_left};

use crate::lines::line_at;

#[derive(Drop)]
pub struct Reader<'a> {
    pub text: &'a [u8],
    pub at: usize,
}

impl<'a> Reader<'a> {
    pub fn new(text: &'a [u8], at: usize) -> Reader<'a>
        ensures lent { result.text ≡ text.entry }
        ensures position { result.at ≡ at }
    {
        Reader { text, at }
    }
}

// Hands over the next line and goes behind it, until none is left.
impl<'a> Iterator for Reader<'a> {
    type Item = &'a [u8];

    ghost next_gives = { HandsOver };

    ghost remaining = { item_count lines_left };

    fn next(&mut self) -> Option<&'a [u8]> {
        let line = line_at(self.text, self.at)?;
        self.at += line.len();
        Some(line)
    }
}
