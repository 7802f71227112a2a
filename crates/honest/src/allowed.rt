// The conditions of the honest steps: a step whose condition does not hold is refused with 6. Step 1 is always allowed, and 38 has the
// condition of step 3. Messages are slices, since the public ones promise what they
// do of any slices of 48 numbers.
ghost use Rattle.std.specs.Prelude.{◌≡◌, length};
ghost use Rattle.honest.specs.Together.{for_house, own_initiate, own_invoice};
ghost use Rattle.messages.specs.Layout.{message_width};
ghost use Rattle.messages.specs.Tests.{all};
ghost use Rattle.rules.specs.Honest.{ask_claims, holds, invoice_claims, order_mark, pay_claims, rebuilt, reply_claims};

use crate::claims::{goes, is_signed_by_buyer, is_signed_by_seller, mark_is, slip_is};
use messages::layout::{
    BODY, DESTINATION, INITIATE_ACCOUNT, INVOICE_SIGNED, MAKER, MARK_BUYER, PAYMENT_SIGNED,
    REQUEST_BUYER_SIGNED, REQUEST_SIGNED, REQUEST_SLIP, SOURCE,
};
use messages::parts::{
    Buyer, HOUSE, Hashed, MARK_WIDTH, Mark, Seller, Slip, hashed_at, mark_at, owner, same_mark,
    slip_at,
};

pub fn may_invoice(seller: Seller, initiate: &[u16]) -> bool
    requires { length initiate.now ≡ message_width }
    ensures { result ≡ all holds (invoice_claims seller initiate.now) }
{
    initiate[DESTINATION] == seller.0
}

// The mark that a buyer expects for an Initiate of his.
pub fn order_mark(buyer: Buyer, initiate: &[u16]) -> Mark
    requires { length initiate.now ≡ message_width }
    ensures { result ≡ order_mark buyer initiate.now }
{
    let hashed = hashed_at(initiate, BODY);
    Mark {
        seller: Seller(initiate[DESTINATION]),
        buyer,
        hashed,
    }
}

// The Initiate is the buyer's own.
fn is_own_initiate(buyer: Buyer, initiate: &[u16]) -> bool
    requires { length initiate.now ≡ message_width }
    ensures { result ≡ all holds (own_initiate buyer initiate.now) }
{
    initiate[MAKER] == buyer.0
        && initiate[SOURCE] == buyer.0
        && initiate[INITIATE_ACCOUNT] == buyer.0
}

pub fn may_pay(buyer: Buyer, initiate: &[u16], invoice: &[u16]) -> bool
    requires { (length initiate.now ≡ message_width) × (length invoice.now ≡ message_width) }
    ensures { result ≡ all holds (pay_claims buyer initiate.now invoice.now) }
{
    let seller = Seller(initiate[DESTINATION]);
    let mark = order_mark(buyer, initiate);
    is_own_initiate(buyer, initiate)
        && goes(invoice, seller.0, buyer.0)
        && mark_is(invoice, BODY, mark)
        && is_signed_by_seller(invoice, INVOICE_SIGNED, seller, mark)
}

// The Invoice is the seller's own, and its mark is for the buyer to whom it went.
fn is_own_invoice(seller: Seller, invoice: &[u16]) -> bool
    requires { length invoice.now ≡ message_width }
    ensures { result ≡ all holds (own_invoice seller invoice.now) }
{
    invoice[MAKER] == seller.0
        && invoice[SOURCE] == seller.0
        && invoice[BODY] == seller.0
        && invoice[MARK_BUYER] == invoice[DESTINATION]
}

pub fn may_ask(seller: Seller, invoice: &[u16], payment: &[u16]) -> bool
    requires { (length invoice.now ≡ message_width) × (length payment.now ≡ message_width) }
    ensures { result ≡ all holds (ask_claims seller invoice.now payment.now) }
{
    let buyer = Buyer(invoice[DESTINATION]);
    let slip = slip_at(payment, BODY);
    let mark = mark_at(invoice, BODY);
    is_own_invoice(seller, invoice)
        && goes(payment, buyer.0, seller.0)
        && is_signed_by_buyer(payment, PAYMENT_SIGNED, buyer, slip, mark)
}

// The mark that a slip is for, if this seller asks.
fn rebuilt_mark(seller: Seller, slip: Slip) -> Mark
    ensures { result ≡ rebuilt seller slip }
{
    let drawn = slip.drawn;
    let account = slip.account;
    let hashed = Hashed { drawn, account };
    Mark {
        seller,
        buyer: owner(account),
        hashed,
    }
}

// The request goes to the house, and the house can read its slip.
fn is_for_house(request: &[u16]) -> bool
    requires { length request.now ≡ message_width }
    ensures { result ≡ all holds (for_house request.now) }
{
    request[DESTINATION] == HOUSE.0 && request[REQUEST_SLIP] == HOUSE.0
}

pub fn may_reply(request: &[u16]) -> bool
    requires { length request.now ≡ message_width }
    ensures { result ≡ all holds (reply_claims request.now) }
{
    let seller = Seller(request[SOURCE]);
    let mark = mark_at(request, BODY);
    let slip = slip_at(request, REQUEST_SLIP);
    let buyer = owner(slip.account);
    is_for_house(request)
        && same_mark(slip.mark, mark)
        && same_mark(mark, rebuilt_mark(seller, slip))
        && is_signed_by_seller(request, REQUEST_SIGNED, seller, mark)
        && slip_is(request, REQUEST_SIGNED + 1 + MARK_WIDTH, slip)
        && is_signed_by_buyer(request, REQUEST_BUYER_SIGNED, buyer, slip, mark)
}
