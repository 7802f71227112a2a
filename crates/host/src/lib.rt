// What hosts in C call, on numbers and lent tables: thin, each with the promise of the operation behind it. The crate host_c exports
// them under the same names. host/kp_bench.h says in words what the arguments are.
#![tactic(auto)]

ghost use Rattle.std.specs.Prelude.{[], ◌∷◌, ◌≡◌, length};
ghost use Rattle.host.specs.Entries.{Ran as RanBy, Read, Stepped};
ghost use Rattle.rules.specs.Report.{report as report_of};
ghost use Rattle.rules.specs.Run.{run as run_of};
ghost use Rattle.rules.specs.Step.{judge_table};
ghost use Rattle.steptext.specs.Read.{read_text};

use messages::parts::Place;
use reports::report::report;
use runs::run::run;
use step::judge::step;
use steptext::read::read_text;

pub fn kp_step(
    table: &mut [u16],
    n: usize,
    answers: u16,
    code: u16,
    a1: u16,
    a2: u16,
    a3: u16,
    a4: u16,
    a5: u16,
    a6: u16,
    place: &mut u16,
) -> u8
    ensures { Stepped n table.old (judge_table answers n table.old (code ∷ a1 ∷ a2 ∷ a3 ∷ a4 ∷ a5 ∷ a6 ∷ [])) result place.new table.new }
{
    match step(table, n, answers, [code, a1, a2, a3, a4, a5, a6]) {
        Ok(new) => {
            *place = new.0 as u16;
            0
        }
        Err(refusal) => {
            *place = 0;
            u8::from(refusal)
        }
    }
}

pub fn kp_run(
    table: &mut [u16],
    answers: u16,
    steps: &[u16],
    verdicts: &mut [u8],
    n: &mut u16,
) -> u8
    ensures { RanBy (run_of answers table.old steps.now verdicts.old) result n.new table.new verdicts.new }
{
    match run(table, answers, steps, verdicts) {
        Ok(count) => {
            *n = count as u16;
            0
        }
        Err(refusal) => {
            *n = 0;
            u8::from(refusal)
        }
    }
}

pub fn kp_report(table: &[u16], n: usize, place: usize) -> u8
    ensures { result ≡ report_of n table.now (record { 0 = place }) }
{
    match report(table, n, Place(place)) {
        Ok(verdict) => u8::from(verdict),
        Err(refusal) => u8::from(refusal),
    }
}

pub fn kp_read(
    text: &[u8],
    steps: &mut [u16],
    answers: &mut u16,
    count: &mut u16,
    line: &mut u16,
) -> u8
    ensures { Read steps.old (read_text (length steps.old) text.now) result answers.new count.new line.new steps.new }
{
    *answers = 0;
    *count = 0;
    *line = 0;
    match read_text(text, steps) {
        Ok(said) => {
            *answers = said.answers;
            *count = said.count as u16;
            0
        }
        Err(refusal) => {
            *line = refusal.line() as u16;
            u8::from(refusal)
        }
    }
}
