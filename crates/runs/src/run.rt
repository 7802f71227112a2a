// A run of a list of steps: each is judged against what the steps before it left, and a refused one does not stop it.
ghost use Rattle.std.specs.Prelude.{true, ◌≡◌, ◌≤◌, length};
ghost use Rattle.record.specs.Table.{room_of, whole};
ghost use Rattle.rules.specs.Run.{run as run_of, step_count, whole_steps};
ghost use Rattle.runs.specs.Ran.{Leaves, Plays};
ghost use Rattle.step.specs.Answer.{answer_number};

use messages::parts::Place;
use record::table::is_whole;
use refusals::Refusal;
use rules::steps::{MOST_STEPS, STEP_WIDTH};
use step::judge::judge_step;

// Refusal 8: whole steps, and not too many.
fn are_whole_steps(steps: &[u16]) -> bool
    ensures { result ≡ whole_steps steps.now }
{
    steps.len() % STEP_WIDTH == 0 && steps.len() <= MOST_STEPS * STEP_WIDTH
}

// The verdict byte of a step, a number since a host in C lends the bytes.
fn verdict(answer: Result<Place, Refusal>) -> u8
    ensures { result ≡ answer_number answer }
{
    match answer {
        Ok(_) => 0,
        Err(refusal) => u8::from(refusal),
    }
}

// The steps played from an empty record, with a verdict byte for each.
pub fn play(t: &mut [u16], answers: u16, steps: &[u16], verdicts: &mut [u8]) -> usize
    requires { (whole t.old ≡ true) × (step_count steps.now ≤ length verdicts.old) }
    ensures { Plays answers t.old steps.now verdicts.old result t.new verdicts.new }
{
    let mut n = 0;
    for (i, s) in steps.chunks_exact(STEP_WIDTH).enumerate() {
        let answer = judge_step(t, n, answers, s);
        verdicts[i] = verdict(answer);
        n = answer.map_or(n, |place| place.0);
    }
    n
}

// How many messages the record then has. All tests are made before any is answered.
pub fn run(
    t: &mut [u16],
    answers: u16,
    steps: &[u16],
    verdicts: &mut [u8],
) -> Result<usize, Refusal>
    ensures { Leaves (run_of answers t.old steps.now verdicts.old) result t.new verdicts.new }
{
    let broken = !is_whole(t);
    let uneven = !are_whole_steps(steps);
    let short = verdicts.len() < steps.len() / STEP_WIDTH;
    if broken {
        return Err(Refusal::Record);
    }
    if uneven {
        return Err(Refusal::Steps);
    }
    if short {
        return Err(Refusal::Verdicts);
    }
    Ok(play(t, answers, steps, verdicts))
}
