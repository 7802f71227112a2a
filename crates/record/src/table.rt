// The record: a flat table of numbers, 48 to a message, and how many messages stand in it. Table and count are two parameters wherever they go
// together, since a host in C lends the one and passes the other.
ghost use Rattle.std.specs.Prelude.{◌≡◌, ◌*◌, ◌+◌, ◌≤◌, length};
ghost use Rattle.messages.specs.Layout.{message_width};
ghost use Rattle.messages.specs.Tests.{all};
ghost use Rattle.lawful.specs.Lawful.{lawful};
ghost use Rattle.record.specs.Table.{lawful_record, message_in, messages, room_of, whole, with_message, with_numbers};

use lawful::is_lawful;
use messages::layout::MESSAGE_WIDTH;
use messages::parts::Place;

pub const MOST_ROOM: usize = 512;

// How many messages the table has room for.
pub fn room(t: &[u16]) -> usize
    ensures { result ≡ room_of t.now }
{
    t.len() / MESSAGE_WIDTH
}

// Refusal 1 by length only.
pub fn is_whole(t: &[u16]) -> bool
    ensures { result ≡ whole t.now }
{
    t.len() % MESSAGE_WIDTH == 0 && t.len() <= MOST_ROOM * MESSAGE_WIDTH
}

// The message at a place.
pub fn message(t: &[u16], place: Place) -> &[u16]
    requires { (1 ≤ place.0) × (place.0 * message_width ≤ length t.now) }
    ensures { (result.now ≡ message_in t.now place) × (length result.now ≡ message_width) }
{
    let from = (place.0 - 1) * MESSAGE_WIDTH;
    let to = from + MESSAGE_WIDTH;
    &t[from..to]
}

// Refusal 1: the length, the count, and each of messages 1 to n.
pub fn is_lawful_record(t: &[u16], n: usize) -> bool
    ensures { result ≡ lawful_record n t.now }
{
    is_whole(t) && n <= room(t) && are_lawful(t, n)
}

// Messages 1 to n.
fn are_lawful(t: &[u16], n: usize) -> bool
    requires { n * message_width ≤ length t.now }
    ensures { result ≡ all lawful (messages n t.now) }
{
    (0..n).all(|p| is_lawful(message(t, Place(p + 1))))
}

// Numbers copied into a table; the rest of it stays.
pub fn copy_into(t: &mut [u16], from: usize, xs: &[u16])
    requires { from + length xs.now ≤ length t.old }
    ensures { t.new ≡ with_numbers from t.old xs.now }
{
    // Number by number: of `copy_from_slice` the compiler makes two copies and a test whether they overlap.
    for i in 0..xs.len() {
        t[from + i] = xs[i];
    }
}

// A message written into the place after n.
pub fn write(t: &mut [u16], n: usize, m: &[u16])
    requires { (n * message_width + message_width ≤ length t.old) × (length m.now ≡ message_width) }
    ensures { t.new ≡ with_message n t.old m.now }
{
    copy_into(t, n * MESSAGE_WIDTH, m);
}
