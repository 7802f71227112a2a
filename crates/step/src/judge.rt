// One step: judged against a record that is known to be lawful, as in a run, and against any table, where refusal 1 comes first.
ghost use Rattle.std.specs.Prelude.{true, ◌≡◌, ◌≤◌, length};
ghost use Rattle.arguments.specs.Ready.{Ready};
ghost use Rattle.record.specs.Table.{messages, room_of, whole};
ghost use Rattle.rules.specs.Step.{judge as judge_of, judge_table};
ghost use Rattle.step.specs.Answer.{Answered};
ghost use Rattle.step.specs.Decided.{decided};

use arguments::codes::{is_known, row_of};
use deeds::{added, is_allowed};
use faults::first_fault;
use messages::parts::Place;
use record::table::{is_lawful_record, room, write};
use refusals::Refusal;
use rules::codes::Argument;
use rules::steps::STEP_WIDTH;

// A step whose arguments are good: its condition, the room, and then the message. Both tests are made before either is answered. Table, row and
// step come apart, as the public functions of `deeds` promise what they do of the three.
fn decide(
    t: &mut [u16],
    n: usize,
    answers: u16,
    row: &[Argument],
    s: &[u16],
) -> Result<Place, Refusal>
    requires { (whole t.old ≡ true) × Ready n t.old row.now s.now }
    ensures { Answered n t.old (decided answers n t.old s.now) result t.new }
{
    let barred = !is_allowed(t, s);
    let full = room(t) <= n;
    if barred {
        return Err(Refusal::Condition);
    }
    if full {
        return Err(Refusal::Room);
    }
    let m = added(t, n, answers, row, s);
    write(t, n, &m);
    Ok(Place(n + 1))
}

// A step of seven numbers against the first n messages of a table of whole messages, which are not looked through:
// that the table is whole is asked of each caller, so that it is tested once for many steps. The answer is the place of
// the message that it added.
pub fn judge_step(t: &mut [u16], n: usize, answers: u16, s: &[u16]) -> Result<Place, Refusal>
    requires { (whole t.old ≡ true) × (n ≤ room_of t.old) × (length s.now ≡ 7) }
    ensures { Answered n t.old (judge_of answers (room_of t.old) (messages n t.old) s.now) result t.new }
{
    let code = s[0];
    if !is_known(code) {
        return Err(Refusal::Code);
    }
    let row = row_of(code as usize);
    let fault = first_fault(t, n, row, s);
    fault?;
    decide(t, n, answers, row, s)
}

// A step against any table and count.
pub fn step(t: &mut [u16], n: usize, answers: u16, s: [u16; STEP_WIDTH]) -> Result<Place, Refusal>
    ensures { Answered n t.old (judge_table answers n t.old s) result t.new }
{
    if !is_lawful_record(t, n) {
        return Err(Refusal::Record);
    }
    judge_step(t, n, answers, &s)
}
