// A text read into a step table. A refused text leaves the table as it was found: the steps are gathered beside it first.
ghost use Rattle.std.specs.Prelude.{[], ◌*◌, ◌≤◌, length};
ghost use Rattle.rules.specs.Run.{most_steps, step_width};
ghost use Rattle.steptext.specs.Read.{read_steps, read_text};
ghost use Rattle.lines.specs.Handed.{lines_left};
ghost use Rattle.steptext.specs.Told.{BeginsWith, Gathers, Leaves};

use crate::told::{Said, TextRefusal};
use lines::reader::Reader;
use record::table::copy_into;
use rules::steps::{MOST_STEPS, STEP_WIDTH};
use says::{answers_said, step_said};

pub const MOST_BYTES: usize = 16384;

// The account answers of line 1; the reader is left behind it.
fn read_answers(reader: &mut Reader<'_>) -> Option<u16>
    ensures { BeginsWith (lines_left reader.old) result (lines_left reader.new) }
{
    answers_said(reader.next()?)
}

// The lines after line 1, their steps put into a table one after the other.
fn gather(reader: Reader<'_>, answers: u16, t: &mut [u16]) -> Result<Said, TextRefusal>
    requires { most_steps * step_width ≤ length t.old }
    ensures { Gathers (read_steps answers [] (lines_left reader.entry)) result t.new }
{
    // Not by `enumerate`: how many steps there are outlives the loop.
    let mut count = 0;
    for line in reader {
        let said = step_said(line);
        let numbers = said.ok_or(TextRefusal::Unreadable(count + 2))?;
        if count == MOST_STEPS {
            return Err(TextRefusal::TooLong);
        }
        copy_into(t, count * STEP_WIDTH, &numbers);
        count += 1;
    }
    Ok(Said { answers, count })
}

pub fn read_text(text: &[u8], steps: &mut [u16]) -> Result<Said, TextRefusal>
    ensures { Leaves (read_text (length steps.old) text.now) steps.old result steps.new }
{
    if MOST_BYTES < text.len() || steps.len() < MOST_STEPS * STEP_WIDTH {
        return Err(TextRefusal::TooLong);
    }
    let mut reader = Reader::new(text, 0);
    let Some(answers) = read_answers(&mut reader) else {
        return Err(TextRefusal::Unreadable(1));
    };
    // an array and a count, and no `Vec`: there is no heap
    let mut gathered = [0; MOST_STEPS * STEP_WIDTH];
    let said = gather(reader, answers, &mut gathered)?;
    let end = said.count * STEP_WIDTH;
    copy_into(steps, 0, &gathered[..end]);
    Ok(said)
}
