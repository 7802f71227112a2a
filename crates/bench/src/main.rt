// The bench: step text from standard input, its results on standard output.
#![tactic(auto)]

use results::play::{MOST_PRINTED, play_text};

fn main() {
    // one byte more than a text may have, so that one too many is seen
    let mut text = [0u8; 16385];
    let len = io::read_full(0, &mut text);
    // room for 512 messages
    let mut table = [0u16; 24576];
    let mut out = [0u8; MOST_PRINTED];
    let count = play_text(&text[..len], &mut table, &mut out);
    io::write_all(1, &out[..count]);
}
