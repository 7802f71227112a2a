// One look through a record: whether its messages are lawful, and which of the four messages of a payment stand early in it.
ghost use Rattle.std.specs.Prelude.{◌≡◌, ◌*◌, ◌≤◌, length};
ghost use Rattle.messages.specs.Layout.{message_width};
ghost use Rattle.look.specs.Looked.{looked};

use crate::payment::Wanted;
use lawful::is_lawful;
use messages::parts::{Mark, Place};
use record::table::message;

// Which of the four stand.
#[derive(Clone, Copy, PartialEq, Eq, Default)]
pub struct Seen {
    pub initiated: bool,
    pub invoiced: bool,
    pub paid: bool,
    pub asked: bool,
}

// Messages 1 to n are looked at, the first of them, as many as are earlier than the reply, for the four messages of a payment too. The
// look ends at a message that is not lawful. A record that is known to be lawful is trusted: its messages are passed unseen.
pub fn look(t: &[u16], n: usize, earlier: usize, trusted: bool, mark: Mark) -> Option<Seen>
    requires { (n * message_width ≤ length t.now) × (earlier ≤ n) }
    ensures { result ≡ looked n earlier t.now trusted mark }
{
    let wanted = Wanted::new(mark);
    let mut seen = Seen::default();
    for i in 0..n {
        let m = message(t, Place(i + 1));
        if !trusted && !is_lawful(m) {
            return None;
        }
        let counts = i < earlier;
        if counts {
            wanted.note(&mut seen, m);
        }
    }
    Some(seen)
}
