// The five kinds of message, each as the number at its place in a message.
ghost use Rattle.messages.specs.Kinds.{Decodes};

#[derive(Clone, Copy, PartialEq, Eq, Debug)]
pub enum Kind {
    Initiate = 1,
    Invoice = 2,
    Payment = 3,
    AuthRequest = 4,
    AuthResponse = 5,
}

// A number that is no kind's.
#[derive(Clone, Copy, PartialEq, Eq, Debug)]
pub struct UnknownKind;

impl TryFrom<u16> for Kind {
    type Error = UnknownKind;

    ghost try_from_gives = { Decodes };

    fn try_from(number: u16) -> Result<Kind, UnknownKind> {
        match number {
            1 => Ok(Kind::Initiate),
            2 => Ok(Kind::Invoice),
            3 => Ok(Kind::Payment),
            4 => Ok(Kind::AuthRequest),
            5 => Ok(Kind::AuthResponse),
            _ => Err(UnknownKind),
        }
    }
}
