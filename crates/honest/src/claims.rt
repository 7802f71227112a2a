// Claims that the conditions of several honest steps make of a message.
ghost use Rattle.std.specs.Prelude.{◌≡◌, ◌+◌, ◌≤◌, length};
ghost use Rattle.honest.specs.Together.{buyer_signed, goes as goes_from, seller_signed};
ghost use Rattle.messages.specs.Layout.{message_width};
ghost use Rattle.messages.specs.Parts.{mark_width, slip_width};
ghost use Rattle.messages.specs.Signed.{buyer_signed_width, invoice_signed_width};
ghost use Rattle.messages.specs.Tests.{all};
ghost use Rattle.rules.specs.Honest.{holds, mark_is, slip_is};

use messages::layout::{DESTINATION, SOURCE};
use messages::parts::{
    Buyer, Mark, SLIP_WIDTH, Seller, Slip, mark_at, same_mark, same_slip, slip_at,
};

pub fn mark_is(m: &[u16], k: usize, wanted: Mark) -> bool
    requires { k + mark_width ≤ length m.now }
    ensures { result ≡ holds (mark_is m.now k wanted) }
{
    same_mark(mark_at(m, k), wanted)
}

pub fn slip_is(m: &[u16], k: usize, wanted: Slip) -> bool
    requires { k + slip_width ≤ length m.now }
    ensures { result ≡ holds (slip_is m.now k wanted) }
{
    same_slip(slip_at(m, k), wanted)
}

// Its source and its destination are these.
pub fn goes(m: &[u16], from: u16, to: u16) -> bool
    requires { length m.now ≡ message_width }
    ensures { result ≡ all holds (goes_from m.now from to) }
{
    m[SOURCE] == from && m[DESTINATION] == to
}

// A seller's signature at a position, so far as it is over a mark. Signatures are compared part by part: one `==` of the whole
// slows an honest run by a tenth (docs/SPEED.md).
pub fn is_signed_by_seller(m: &[u16], k: usize, seller: Seller, mark: Mark) -> bool
    requires { k + invoice_signed_width ≤ length m.now }
    ensures { result ≡ all holds (seller_signed m.now k seller mark) }
{
    m[k] == seller.0 && mark_is(m, k + 1, mark)
}

// A buyer's signature at a position.
pub fn is_signed_by_buyer(m: &[u16], k: usize, buyer: Buyer, slip: Slip, mark: Mark) -> bool
    requires { k + buyer_signed_width ≤ length m.now }
    ensures { result ≡ all holds (buyer_signed m.now k buyer slip mark) }
{
    m[k] == buyer.0 && slip_is(m, k + 1, slip) && mark_is(m, k + 1 + SLIP_WIDTH, mark)
}
