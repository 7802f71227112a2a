// The three kinds of line that the program prints.
ghost use Rattle.std.specs.Prelude.{[], ◌≡◌, ◌∷◌, ◌+◌, ◌≤◌, length};
ghost use Rattle.printing.specs.Printed.{refused_line, reply_line, step_line};
ghost use Rattle.printing.specs.Put.{Put};
ghost use Rattle.printing.specs.Widths.{refused_widest, reply_widest, step_widest};

use crate::put::{CELL_WIDEST, Printed};
use lines::bytes::LINE_FEED;

// The most bytes of the first two.
pub const STEP_WIDEST: usize = 3 * CELL_WIDEST;

pub const REPLY_WIDEST: usize = 4 * CELL_WIDEST + 2;

impl Printed<'_> {
    #[tactic(auto, using(crate::proofs::Digits::short))]
    pub fn step_line(&mut self, ordinal: u16, number: u16, place: u16)
        requires { self.old.at + step_widest ≤ length self.old.out.now }
        ensures same_table { self.new.out.ghost_name ≡ self.old.out.ghost_name }
        ensures put { Put self.old.out.now self.old.at (step_line (ordinal ∷ number ∷ place ∷ [])) step_widest self.new.out.now self.new.at }
    {
        self.number(ordinal);
        self.cell(number);
        self.cell(place);
        self.byte(LINE_FEED);
    }

    pub fn reply_line(&mut self, place: u16, seller: u16, buyer: u16, report: u16)
        requires { self.old.at + reply_widest ≤ length self.old.out.now }
        ensures same_table { self.new.out.ghost_name ≡ self.old.out.ghost_name }
        ensures put { Put self.old.out.now self.old.at (reply_line (place ∷ seller ∷ buyer ∷ report ∷ [])) reply_widest self.new.out.now self.new.at }
    {
        self.byte(b'R');
        self.cell(place);
        self.cell(seller);
        self.cell(buyer);
        self.cell(report);
        self.byte(LINE_FEED);
    }
}

// The one line of a refused text.
pub fn put_refused_line(out: &mut [u8], number: u16, line: u16) -> usize
    requires { refused_widest ≤ length out.old }
    ensures { Put out.old 0 (refused_line number line) refused_widest out.new result }
{
    let mut printed = Printed { out, at: 0 };
    printed.byte(b'E');
    printed.cell(number);
    printed.cell(line);
    printed.byte(LINE_FEED);
    printed.at
}
