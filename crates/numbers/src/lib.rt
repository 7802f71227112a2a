// A number of step text: 1 to 5 digits, no needless leading 0, at most 65,535.
#![tactic(auto)]

ghost use Rattle.std.specs.Prelude.{◌≡◌, ◌≤◌, length};
ghost use Rattle.numbers.specs.Digits.{no_needless0};
ghost use Rattle.numbers.specs.Number.{number_in};

pub const MOST_DIGITS: usize = 5;

fn no_needless_0(xs: &[u8]) -> bool
    requires { 1 ≤ length xs.now }
    ensures { result ≡ no_needless0 xs.now }
{
    xs.len() == 1 || xs[0] != b'0'
}

// None where the text is no number. By hand, since std's `parse` takes text, a sign and needless zeros too.
pub fn read_number(xs: &[u8]) -> Option<u16>
    ensures { result ≡ number_in xs.now }
{
    if !(1..=MOST_DIGITS).contains(&xs.len()) {
        return None;
    }
    if !no_needless_0(xs) {
        return None;
    }
    let mut sum: u32 = 0;
    for &digit in xs {
        if !digit.is_ascii_digit() {
            return None;
        }
        sum = sum * 10 + u32::from(digit - b'0');
    }
    u16::try_from(sum).ok()
}
