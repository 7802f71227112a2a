// A text played on a lent record, with its results in lent bytes: all that the program does between reading and writing.
ghost use Rattle.std.specs.Prelude.{true, [], ◌≡◌, ◌≤◌, length};
ghost use Rattle.messages.specs.Layout.{flat};
ghost use Rattle.record.specs.Table.{room_of, whole};
ghost use Rattle.results.specs.Output.{results};
ghost use Rattle.printing.specs.Put.{Put};
ghost use Rattle.results.specs.Shown.{Shows};
ghost use Rattle.rows.specs.Rows.{most_printed};
ghost use Rattle.rules.specs.Run.{most_steps, over, played, step_count, steps_of};

use messages::layout::MESSAGE_WIDTH;
use printing::printed::{REPLY_WIDEST, STEP_WIDEST, put_refused_line};
use record::table::MOST_ROOM;
use rows::put_results;
use rules::steps::{MOST_STEPS, STEP_WIDTH};
use runs::run::play;
use steptext::read::read_text;

// The numbers of a record with the most room, and the most bytes that its results take.
pub const MOST_NUMBERS: usize = MOST_ROOM * MESSAGE_WIDTH;

pub const MOST_PRINTED: usize = MOST_STEPS * STEP_WIDEST + MOST_ROOM * REPLY_WIDEST;

fn play_steps(out: &mut [u8], table: &mut [u16], answers: u16, steps: &[u16]) -> usize
    requires { (most_printed ≤ length out.old) × (whole table.old ≡ true) × (step_count steps.now ≤ most_steps) }
    ensures { Put out.old 0 (results answers (room_of table.old) (steps_of steps.now)) most_printed out.new result × (table.new ≡ over (flat (played answers (room_of table.old) [] (steps_of steps.now))) table.old) }
{
    // an array, and a count that the steps give: there is no heap
    let mut numbers = [0u8; MOST_STEPS];
    let n = play(table, answers, steps, &mut numbers);
    let count = steps.len() / STEP_WIDTH;
    put_results(out, &numbers[..count], table, n)
}

// How many bytes the results have. Both tables have the one length that serves every text, so that no case is left but those of the text.
pub fn play_text(
    text: &[u8],
    table: &mut [u16; MOST_NUMBERS],
    out: &mut [u8; MOST_PRINTED],
) -> usize
    ensures { Shows text.now table.old out.old result table.new out.new }
{
    let mut steps = [0u16; MOST_STEPS * STEP_WIDTH];
    match read_text(text, &mut steps) {
        Ok(said) => {
            let end = said.count * STEP_WIDTH;
            play_steps(out, table, said.answers, &steps[..end])
        }
        Err(refusal) => {
            let number = u8::from(refusal) as u16;
            let line = refusal.line() as u16;
            put_refused_line(out, number, line)
        }
    }
}
