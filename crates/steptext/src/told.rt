// What the reader of a text answers.

// What a text says beside its steps: the account answers, and how many steps.
#[derive(Clone, Copy, PartialEq, Eq, Debug)]
pub struct Said {
    pub answers: u16,
    pub count: usize,
}

// Why a text is refused: its first unreadable line; or it is too long, or the table too short.
#[derive(Clone, Copy, PartialEq, Eq, Debug)]
pub enum TextRefusal {
    Unreadable(usize),
    TooLong,
}

impl TextRefusal {
    ghost use Rattle.std.specs.Prelude.{◌≡◌};
    ghost use Rattle.steptext.specs.Told.{refusal_line};

    // 0 where no line is at fault, as it is printed and as C has it.
    pub fn line(self) -> usize
        ensures { result ≡ refusal_line self }
    {
        match self {
            TextRefusal::Unreadable(line) => line,
            TextRefusal::TooLong => 0,
        }
    }
}

// Document 01's number of each.
impl From<TextRefusal> for u8 {
    ghost use Rattle.std.specs.Prelude.{◌≡◌};
    ghost use Rattle.steptext.specs.Told.{refusal_number};

    ghost from_gives = { λ refusal number. number ≡ refusal_number refusal };

    fn from(refusal: TextRefusal) -> u8 {
        match refusal {
            TextRefusal::Unreadable(_) => 10,
            TextRefusal::TooLong => 11,
        }
    }
}
