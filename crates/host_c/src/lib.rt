// The entries of `host` for C, each under its name and with its promise: the static library that host/kp_bench.h describes. C wants them once more:
// other crates rest on those of `host`, which a static library does not lend them.
#![tactic(auto)]

ghost use Rattle.std.specs.Prelude.{[], ◌∷◌, ◌≡◌, length};
ghost use Rattle.host.specs.Entries.{Ran as RanBy, Read, Stepped};
ghost use Rattle.rules.specs.Report.{report as report_of};
ghost use Rattle.rules.specs.Run.{run as run_of};
ghost use Rattle.rules.specs.Step.{judge_table};
ghost use Rattle.steptext.specs.Read.{read_text};

#[unsafe(no_mangle)]
pub extern "C" fn kp_step(
    table: &mut [u16],
    n: usize,
    answers: u16,
    code: u16,
    a1: u16,
    a2: u16,
    a3: u16,
    a4: u16,
    a5: u16,
    a6: u16,
    place: &mut u16,
) -> u8
    ensures { Stepped n table.old (judge_table answers n table.old (code ∷ a1 ∷ a2 ∷ a3 ∷ a4 ∷ a5 ∷ a6 ∷ [])) result place.new table.new }
{
    host::kp_step(table, n, answers, code, a1, a2, a3, a4, a5, a6, place)
}

#[unsafe(no_mangle)]
pub extern "C" fn kp_run(
    table: &mut [u16],
    answers: u16,
    steps: &[u16],
    verdicts: &mut [u8],
    n: &mut u16,
) -> u8
    ensures { RanBy (run_of answers table.old steps.now verdicts.old) result n.new table.new verdicts.new }
{
    host::kp_run(table, answers, steps, verdicts, n)
}

#[unsafe(no_mangle)]
pub extern "C" fn kp_report(table: &[u16], n: usize, place: usize) -> u8
    ensures { result ≡ report_of n table.now (record { 0 = place }) }
{
    host::kp_report(table, n, place)
}

#[unsafe(no_mangle)]
pub extern "C" fn kp_read(
    text: &[u8],
    steps: &mut [u16],
    answers: &mut u16,
    count: &mut u16,
    line: &mut u16,
) -> u8
    ensures { Read steps.old (read_text (length steps.old) text.now) result answers.new count.new line.new steps.new }
{
    host::kp_read(text, steps, answers, count, line)
}
