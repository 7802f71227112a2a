// The messages that the honest steps add. Those they are made from are slices of 48 numbers, as in `allowed`.
ghost use Rattle.std.specs.Prelude.{◌≡◌, ◌<◌, length};
ghost use Rattle.messages.specs.Layout.{message_width};
ghost use Rattle.rules.specs.Honest.{asked as asked_by, code_for, invoiced as invoiced_by, paid as paid_by, replied as replied_by, started as started_by};

use crate::allowed::order_mark;
use building::build::{auth_request, auth_response, initiate, invoice, payment};
use messages::layout::{BODY, DESTINATION, MESSAGE_WIDTH, PAYMENT_SIGNED, REQUEST_SLIP, SOURCE};
use messages::parts::{
    Account, Buyer, Drawn, Gateway, HOUSE, Hashed, Mark, Place, Seller, Slip, hashed_at, mark_at,
    slip_at,
};
use messages::signed::{BuyerSigned, InvoiceSigned, ReplySigned, RequestSigned, buyer_signed_at};

pub fn started(buyer: Buyer, seller: Seller, new: Place) -> [u16; MESSAGE_WIDTH]
    requires { new.0 < 65536 }
    ensures { result ≡ started_by buyer seller new }
{
    let drawn = Drawn {
        drawer: buyer,
        draw: new.0 as u16,
    };
    let hashed = Hashed {
        drawn,
        account: Account(buyer.0),
    };
    initiate(buyer, buyer, seller, hashed)
}

pub fn invoiced(seller: Seller, initiate: &[u16]) -> [u16; MESSAGE_WIDTH]
    requires { length initiate.now ≡ message_width }
    ensures { result ≡ invoiced_by seller initiate.now }
{
    let buyer = Buyer(initiate[SOURCE]);
    let hashed = hashed_at(initiate, BODY);
    let mark = Mark {
        seller,
        buyer,
        hashed,
    };
    let signed = InvoiceSigned {
        signer: seller,
        mark,
    };
    invoice(seller, seller, buyer, mark, signed)
}

// Step 3 pays under the house's key, step 38 under the false gateway's.
pub fn paid(key: Gateway, buyer: Buyer, initiate: &[u16]) -> [u16; MESSAGE_WIDTH]
    requires { length initiate.now ≡ message_width }
    ensures { result ≡ paid_by key buyer initiate.now }
{
    let mark = order_mark(buyer, initiate);
    let drawn = mark.hashed.drawn;
    let slip = Slip {
        key,
        mark,
        account: Account(buyer.0),
        drawn,
    };
    let signed = BuyerSigned {
        signer: buyer,
        slip,
        mark,
    };
    payment(buyer, buyer, Seller(initiate[DESTINATION]), slip, signed)
}

pub fn asked(seller: Seller, invoice: &[u16], payment: &[u16]) -> [u16; MESSAGE_WIDTH]
    requires { (length invoice.now ≡ message_width) × (length payment.now ≡ message_width) }
    ensures { result ≡ asked_by seller invoice.now payment.now }
{
    let mark = mark_at(invoice, BODY);
    let slip = slip_at(payment, BODY);
    let signed = RequestSigned {
        signer: seller,
        mark,
        slip,
    };
    auth_request(
        seller,
        seller,
        HOUSE,
        mark,
        slip,
        signed,
        buyer_signed_at(payment, PAYMENT_SIGNED),
    )
}

// 1 is yes, 2 is no, the number that stands in the reply: bit b of the answers is set when account b is good.
fn code_for(answers: u16, account: Account) -> u16
    ensures { result ≡ code_for answers account }
{
    let b = account.0;
    if b <= 15 && (answers >> b) & 1 == 1 {
        1
    } else {
        2
    }
}

pub fn replied(answers: u16, request: &[u16]) -> [u16; MESSAGE_WIDTH]
    requires { length request.now ≡ message_width }
    ensures { result ≡ replied_by answers request.now }
{
    let mark = mark_at(request, BODY);
    let code = code_for(answers, slip_at(request, REQUEST_SLIP).account);
    let signed = ReplySigned {
        signer: HOUSE,
        code,
        mark,
    };
    auth_response(HOUSE, HOUSE, Seller(request[SOURCE]), code, signed)
}
