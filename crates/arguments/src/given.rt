// What a step gives for an argument. A row and the numbers of a step stand side by side in two slices, since the row is a constant table's.
ghost use Rattle.std.specs.Prelude.{◌≡◌};
ghost use Rattle.arguments.specs.Given.{found_in};
ghost use Rattle.arguments.specs.Ready.{Known};
ghost use Rattle.rules.specs.Codes.{row_of};
ghost use Rattle.rules.specs.Step.{arguments_of, code_of};

use crate::codes::MOST_ARGUMENTS;
use rules::codes::Argument;

pub fn find(argument: Argument, row: &[Argument], s: &[u16]) -> Option<u16>
    requires { Known row.now s.now }
    ensures { result ≡ found_in argument (row_of (code_of s.now)).takes (arguments_of s.now) }
{
    // By the index, so that the compiler knows how long a row is.
    for i in 0..MOST_ARGUMENTS {
        if row[i] == argument {
            return Some(s[i + 1]);
        }
    }
    None
}
