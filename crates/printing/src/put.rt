// Bytes and numbers put into a lent table, one behind the other.
ghost use Rattle.std.specs.Prelude.{[], ◌≡◌, ◌∷◌, ◌+◌, ◌≤◌, length};
ghost use Rattle.printing.specs.Decimal.{decimal};
ghost use Rattle.printing.specs.Put.{Put};
ghost use Rattle.printing.specs.Widths.{cell_widest};
ghost use Rattle.lines.specs.Lines.{tab};
ghost use Rattle.numbers.specs.Digits.{most_digits};

use lines::bytes::TAB;
use numbers::MOST_DIGITS;

// The most bytes of a number with its tab: it has at most 5 digits.
pub(crate) const CELL_WIDEST: usize = 1 + MOST_DIGITS;

// A lent table, and where the next byte goes. That it stays the same table, `same_table`, is said of two moments, which no invariant can.
#[derive(Drop)]
pub struct Printed<'a> {
    pub out: &'a mut [u8],
    pub at: usize,
}

impl Printed<'_> {
    pub(crate) fn byte(&mut self, byte: u8)
        requires { self.old.at + 1 ≤ length self.old.out.now }
        ensures same_table { self.new.out.ghost_name ≡ self.old.out.ghost_name }
        ensures put { Put self.old.out.now self.old.at (byte ∷ []) 1 self.new.out.now self.new.at }
    {
        self.out[self.at] = byte;
        self.at += 1;
    }

    // By hand, since std's `write!` into a slice leaves it open whether it fails, and this cannot.
    pub(crate) fn number(&mut self, n: u16)
        requires { self.old.at + length (decimal n) ≤ length self.old.out.now }
        ensures same_table { self.new.out.ghost_name ≡ self.old.out.ghost_name }
        ensures put { Put self.old.out.now self.old.at (decimal n) most_digits self.new.out.now self.new.at }
    {
        if 10 <= n {
            self.number(n / 10);
        }
        self.byte(b'0' + (n % 10) as u8);
    }

    // A number that is not the first part of its line.
    #[tactic(auto, using(crate::proofs::Digits::short, crate::proofs::Digits::decimal_one, crate::proofs::Writing::cell))]
    pub(crate) fn cell(&mut self, n: u16)
        requires { self.old.at + cell_widest ≤ length self.old.out.now }
        ensures same_table { self.new.out.ghost_name ≡ self.old.out.ghost_name }
        ensures put { Put self.old.out.now self.old.at (tab ∷ decimal n) cell_widest self.new.out.now self.new.at }
    {
        self.byte(TAB);
        self.number(n);
    }
}
