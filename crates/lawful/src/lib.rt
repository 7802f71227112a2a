// Which messages are lawful.
#![tactic(auto)]

ghost use Rattle.std.specs.Prelude.{◌≡◌, [], ◌<◌, get_or, length};
ghost use Rattle.lawful.specs.Lawful.{fits, kind_ranges, lawful};
ghost use Rattle.messages.specs.Layout.{message_width};

use messages::layout::{KIND, MESSAGE_WIDTH};

const KINDS: usize = 5;

// The least and the most number that a position may hold.
#[derive(Clone, Copy)]
struct Span(u16, u16);

// A kind, a buyer, a seller, an account, a gateway, a draw, a response code; O is the span of an unused position.
const K: Span = Span(1, 5);

const B: Span = Span(0, 15);

const S: Span = Span(0, 15);

const A: Span = Span(0, 15);

const G: Span = Span(0, 1);

const D: Span = Span(1, 512);

const C: Span = Span(1, 2);

const O: Span = Span(0, 0);

// One side of each span.
macro_rules! sides {
    ($side:tt: $([$($span:ident)*])*) => {
        [$([$($span.$side),*]),*]
    };
}

// What each position may hold, a row for each kind from Initiate to Auth-Response. The two sides are tables of their own, so that the compiler
// compares eight numbers of a message at a time.
macro_rules! spans {
    ($side:tt) => {
        sides! { $side:
            [K B B S B D A O O O O O O O O O O O O O O O O O O O O O O O O O O O O O O O O O O O O O O O O O]
            [K S S B S B B D A S S B B D A O O O O O O O O O O O O O O O O O O O O O O O O O O O O O O O O O]
            [K B B S G S B B D A A B D B G S B B D A A B D S B B D A O O O O O O O O O O O O O O O O O O O O]
            [K S S G S B B D A G S B B D A A B D S S B B D A G S B B D A A B D B G S B B D A A B D S B B D A]
            [K G G S C G C S B B D A O O O O O O O O O O O O O O O O O O O O O O O O O O O O O O O O O O O O]
        }
    };
}

static LEAST: [[u16; MESSAGE_WIDTH]; KINDS] = spans!(0);

static MOST: [[u16; MESSAGE_WIDTH]; KINDS] = spans!(1);

// A kind is its number here, which tells its row.
pub fn is_lawful(m: &[u16]) -> bool
    ensures { result ≡ lawful m.now }
{
    if m.len() != MESSAGE_WIDTH {
        return false;
    }
    let kind = m[KIND] as usize;
    (1..=KINDS).contains(&kind) && in_row(kind - 1, m)
}

// Whether each number of a message is within the span that a row gives it. All of them are compared, with no way out between
// them, so that the compiler takes eight at a time.
fn in_row(row: usize, m: &[u16]) -> bool
    requires { (row < 5) × (length m.now ≡ message_width) }
    ensures { result ≡ fits (get_or kind_ranges row []) m.now }
{
    let least = &LEAST[row];
    let most = &MOST[row];
    let mut good = true;
    for i in 0..MESSAGE_WIDTH {
        good &= (least[i] <= m[i]) & (m[i] <= most[i]);
    }
    good
}
