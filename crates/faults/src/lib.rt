// Refusals 3, 4 and 5: the first that an argument of a step gives. All ranges come before any place, and all places before any item,
// whatever the argument's position, so of the numbers that the arguments give the lowest is the step's.
#![tactic(auto)]

ghost use Rattle.std.specs.Prelude.{◌≡◌, ◌*◌, ◌≤◌, length, min};
ghost use Rattle.std.specs.List.{list_all};
ghost use Rattle.messages.specs.Layout.{message_width};
ghost use Rattle.record.specs.Table.{messages};
ghost use Rattle.rules.specs.Codes.{row_of};
ghost use Rattle.rules.specs.Step.{arguments_of, code_of};
ghost use Rattle.faults.specs.Faults.{fault_number, fault_of, faults, is_zero, place_fault, range_fault};
ghost use Rattle.arguments.specs.Ready.{Known};

use arguments::items::yields;
use messages::parts::Place;
use record::table::message;
use refusals::Refusal;
use rules::codes::Argument;
use rules::steps::STEP_WIDTH;

fn range_fault(least: u16, x: u16, most: u16) -> Result<(), Refusal>
    ensures { fault_number result ≡ range_fault least x most }
{
    if (least..=most).contains(&x) {
        Ok(())
    } else {
        Err(Refusal::Argument)
    }
}

fn place_fault(t: &[u16], n: usize, argument: Argument, x: u16) -> Result<(), Refusal>
    requires { n * message_width ≤ length t.now }
    ensures { fault_number result ≡ place_fault n (messages n t.now) argument x }
{
    let place = Place(x as usize);
    if !(1..=n).contains(&place.0) {
        return Err(Refusal::Place);
    }
    if !yields(argument, message(t, place)) {
        return Err(Refusal::Item);
    }
    Ok(())
}

// An argument that the code has. It is told apart by as few tests in a row as there can be: of four at one place the compiler makes a jump through a
// table, which the processor often guesses wrong.
fn fault(t: &[u16], n: usize, argument: Argument, x: u16) -> Result<(), Refusal>
    requires in_table { n * message_width ≤ length t.now }
    requires used { argument ≡ Argument.Unused → ⊥ }
    ensures { fault_number result ≡ fault_of n (messages n t.now) argument x }
{
    if argument == Argument::B || argument == Argument::S {
        return range_fault(0, x, 15);
    }
    if argument == Argument::C {
        return range_fault(1, x, 2);
    }
    if x == 0 {
        // No message stands there; as an account it is the outsider's own.
        return if argument == Argument::A {
            Ok(())
        } else {
            Err(Refusal::Place)
        };
    }
    place_fault(t, n, argument, x)
}

fn are_zeros(xs: &[u16]) -> bool
    ensures { result ≡ list_all is_zero xs.now }
{
    xs.iter().all(|&x| x == 0)
}

// The lower of two, where no refusal is above every number of one: the order that `Result` has is another.
fn lower(first: Result<(), Refusal>, second: Result<(), Refusal>) -> Result<(), Refusal>
    ensures { fault_number result ≡ min (fault_number first) (fault_number second) }
{
    match (first, second) {
        (Err(a), Err(b)) => Err(a.min(b)),
        (Err(a), Ok(())) => Err(a),
        (Ok(()), _) => second,
    }
}

// A row has nothing after its first unused argument, so from there on only zeros are looked for. A 3 is the lowest and ends the search. Most
// arguments have no fault, and for them nothing is compared.
pub fn first_fault(t: &[u16], n: usize, row: &[Argument], s: &[u16]) -> Result<(), Refusal>
    requires { (n * message_width ≤ length t.now) × Known row.now s.now }
    ensures { fault_number result ≡ faults n (messages n t.now) (row_of (code_of s.now)).takes (arguments_of s.now) }
{
    let mut first = Ok(());
    for (i, &argument) in row.iter().enumerate() {
        if argument == Argument::Unused {
            return if are_zeros(&s[i + 1..STEP_WIDTH]) {
                first
            } else {
                Err(Refusal::Argument)
            };
        }
        let found = fault(t, n, argument, s[i + 1]);
        if found.is_err() {
            if found == Err(Refusal::Argument) {
                return found;
            }
            first = lower(first, found);
        }
    }
    first
}
