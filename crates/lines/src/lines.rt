// The lines of a text, line feed and all: the work of the reader.
ghost use Rattle.lines.specs.Handed.{Hands};

use crate::bytes::{LINE_FEED, next_at};

// The line that starts at a position; none past the end.
pub fn line_at(text: &[u8], at: usize) -> Option<&[u8]>
    ensures { Hands text.now at result }
{
    if text.len() <= at {
        return None;
    }
    let end = next_at(text, at, LINE_FEED);
    // The last line may lack its line feed.
    let past = text.len().min(end + 1);
    Some(&text[at..past])
}
