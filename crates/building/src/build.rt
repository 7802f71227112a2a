// The five kinds of message, each from its maker, source, destination and parts. Unused positions are 0. Each has parts of its own, so that the five
// functions are no copies of one another.
ghost use Rattle.std.specs.Prelude.{[], ◌∷◌, ◌≡◌};
ghost use Rattle.messages.specs.Layout.{a_payment, an_auth_request, an_auth_response, an_initiate, an_invoice, filled, kind_number, message_width};

use crate::put::{
    put_buyer_signed, put_hashed, put_invoice_signed, put_mark, put_reply_signed,
    put_request_signed, put_slip,
};
use messages::kind::Kind;
use messages::layout::{
    BODY, DESTINATION, INVOICE_SIGNED, KIND, MAKER, MESSAGE_WIDTH, PAYMENT_SIGNED, REPLY_SIGNED,
    REQUEST_BUYER_SIGNED, REQUEST_SIGNED, REQUEST_SLIP, SOURCE,
};
use messages::parts::{Buyer, Gateway, Hashed, Mark, Seller, Slip};
use messages::signed::{BuyerSigned, InvoiceSigned, ReplySigned, RequestSigned};

fn opened(kind: Kind, maker: u16, source: u16, destination: u16) -> [u16; MESSAGE_WIDTH]
    ensures { result ≡ filled message_width 0 (kind_number kind ∷ maker ∷ source ∷ destination ∷ []) }
{
    let mut m = [0u16; MESSAGE_WIDTH];
    m[KIND] = kind as u16;
    m[MAKER] = maker;
    m[SOURCE] = source;
    m[DESTINATION] = destination;
    m
}

pub fn initiate(
    maker: Buyer,
    source: Buyer,
    destination: Seller,
    hashed: Hashed,
) -> [u16; MESSAGE_WIDTH]
    ensures { result ≡ an_initiate maker source destination hashed }
{
    let mut m = opened(Kind::Initiate, maker.0, source.0, destination.0);
    put_hashed(&mut m, BODY, hashed);
    m
}

pub fn invoice(
    maker: Seller,
    source: Seller,
    destination: Buyer,
    mark: Mark,
    signed: InvoiceSigned,
) -> [u16; MESSAGE_WIDTH]
    ensures { result ≡ an_invoice maker source destination mark signed }
{
    let mut m = opened(Kind::Invoice, maker.0, source.0, destination.0);
    put_mark(&mut m, BODY, mark);
    put_invoice_signed(&mut m, INVOICE_SIGNED, signed);
    m
}

pub fn payment(
    maker: Buyer,
    source: Buyer,
    destination: Seller,
    slip: Slip,
    signed: BuyerSigned,
) -> [u16; MESSAGE_WIDTH]
    ensures { result ≡ a_payment maker source destination slip signed }
{
    let mut m = opened(Kind::Payment, maker.0, source.0, destination.0);
    put_slip(&mut m, BODY, slip);
    put_buyer_signed(&mut m, PAYMENT_SIGNED, signed);
    m
}

pub fn auth_request(
    maker: Seller,
    source: Seller,
    destination: Gateway,
    mark: Mark,
    slip: Slip,
    signed: RequestSigned,
    buyer_signed: BuyerSigned,
) -> [u16; MESSAGE_WIDTH]
    ensures { result ≡ an_auth_request maker source destination mark slip signed buyer_signed }
{
    let mut m = opened(Kind::AuthRequest, maker.0, source.0, destination.0);
    put_mark(&mut m, BODY, mark);
    put_slip(&mut m, REQUEST_SLIP, slip);
    put_request_signed(&mut m, REQUEST_SIGNED, signed);
    put_buyer_signed(&mut m, REQUEST_BUYER_SIGNED, buyer_signed);
    m
}

pub fn auth_response(
    maker: Gateway,
    source: Gateway,
    destination: Seller,
    code: u16,
    signed: ReplySigned,
) -> [u16; MESSAGE_WIDTH]
    ensures { result ≡ an_auth_response maker source destination code signed }
{
    let mut m = opened(Kind::AuthResponse, maker.0, source.0, destination.0);
    m[BODY] = code;
    put_reply_signed(&mut m, REPLY_SIGNED, signed);
    m
}
