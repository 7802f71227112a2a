// What a line says: the account answers, or a step.
#![tactic(auto)]

ghost use Rattle.std.specs.Prelude.{◌≡◌};
ghost use Rattle.says.specs.Says.{IsBody, answers_said, numbers_said, step_said};

use lines::bytes::{LINE_FEED, TAB};
use numbers::read_number;
use rules::steps::STEP_WIDTH;

// A line without its line feed; none where it has none.
fn body(line: &[u8]) -> Option<&[u8]>
    ensures { IsBody line.now result }
{
    line.strip_suffix(&[LINE_FEED])
}

// Line 1.
pub fn answers_said(line: &[u8]) -> Option<u16>
    ensures { result ≡ answers_said line.now }
{
    let digits = body(line)?.strip_prefix(&[b'A', TAB])?;
    read_number(digits)
}

// The numbers between the tabs of a line without its line feed; those left off are 0.
fn numbers_said(body: &[u8]) -> Option<[u16; STEP_WIDTH]>
    ensures { result ≡ numbers_said body.now }
{
    let mut numbers = [0; STEP_WIDTH];
    for (i, part) in body.split(|byte| *byte == TAB).enumerate() {
        if STEP_WIDTH <= i {
            return None;
        }
        numbers[i] = read_number(part)?;
    }
    Some(numbers)
}

// Every other line.
pub fn step_said(line: &[u8]) -> Option<[u16; STEP_WIDTH]>
    ensures { result ≡ step_said line.now }
{
    numbers_said(body(line)?)
}
