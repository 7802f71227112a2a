// The deed of a step, by its code: whether its condition holds, and the message that it adds.
#![tactic(auto)]

ghost use Rattle.std.specs.Prelude.{◌≡◌, ℕ, ◌*◌, ◌<◌, ◌≤◌, length};
ghost use Rattle.arguments.specs.Ready.{Ready, ReadyStep};
ghost use Rattle.messages.specs.Layout.{message_width};
ghost use Rattle.record.specs.Table.{message_in, room_of};
ghost use Rattle.deeds.specs.Coded.{added_in, allowed_in};

use forged::added::{forge_initiate, forge_invoice, forge_payment, forge_request, forge_response};
use honest::added::{asked, invoiced, paid, replied, started};
use honest::allowed::{may_ask, may_invoice, may_pay, may_reply};
use messages::layout::MESSAGE_WIDTH;
use messages::parts::{Buyer, FALSE_GATEWAY, HOUSE, Place, Seller};
use record::table::message;
use rules::codes::Argument;

// The message that an argument names. Table, row and step come apart here, as `is_allowed` and `added` promise what they do of them.
fn named(t: &[u16], x: u16) -> &[u16]
    requires { (1 ≤ x) × (x * message_width ≤ length t.now) }
    ensures { (result.now ≡ message_in t.now (record { 0 = x })) × (length result.now ≡ message_width) }
{
    message(t, Place(x as usize))
}

// Only an honest step has a condition, and the first honest step has none. By the code, as document 01 names the form for `added`.
pub fn is_allowed(t: &[u16], s: &[u16]) -> bool
    requires { ReadyStep (room_of t.now) t.now s.now }
    ensures { (n : ℕ) → ReadyStep n t.now s.now → result ≡ allowed_in n t.now s.now }
{
    match s[0] {
        2 => may_invoice(Seller(s[1]), named(t, s[2])),
        3 | 38 => may_pay(Buyer(s[1]), named(t, s[2]), named(t, s[3])),
        4 => may_ask(Seller(s[1]), named(t, s[2]), named(t, s[3])),
        5 => may_reply(named(t, s[1])),
        _ => true,
    }
}

// One match on the 38 codes, with ranges for the forged kinds: the form that document 01 names. The message is made only for a step that is
// accepted.
pub fn added(t: &[u16], n: usize, answers: u16, row: &[Argument], s: &[u16]) -> [u16; MESSAGE_WIDTH]
    requires { Ready n t.now row.now s.now × (n < 65535) }
    ensures { result ≡ added_in answers n t.now s.now }
{
    match s[0] {
        1 => started(Buyer(s[1]), Seller(s[2]), Place(n + 1)),
        2 => invoiced(Seller(s[1]), named(t, s[2])),
        3 => paid(HOUSE, Buyer(s[1]), named(t, s[2])),
        4 => asked(Seller(s[1]), named(t, s[2]), named(t, s[3])),
        5 => replied(answers, named(t, s[1])),
        38 => paid(FALSE_GATEWAY, Buyer(s[1]), named(t, s[2])),
        6..=7 => forge_initiate(t, row, s),
        8..=13 => forge_invoice(t, row, s),
        14..=21 => forge_payment(t, row, s),
        22..=33 => forge_request(t, row, s),
        _ => forge_response(t, row, s),
    }
}
