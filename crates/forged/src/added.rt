// The outsider's messages, a function for each kind.
ghost use Rattle.std.specs.Prelude.{◌≡◌, ℕ};
ghost use Rattle.arguments.specs.Ready.{Ready};
ghost use Rattle.forged.specs.Each.{Each};
ghost use Rattle.forged.specs.Outside.{buyer_signature_in, forged_in, gathered_in, slip_given};
ghost use Rattle.messages.specs.declared.kind.Kind.TheVariants.{AuthRequest, AuthResponse, Initiate, Invoice, Payment};
ghost use Rattle.record.specs.Table.{messages, room_of};

use crate::copied::Forgery;
use arguments::items::{buyer_signed_in, slip_in};
use building::build::{auth_request, auth_response, initiate, invoice, payment};
use messages::layout::{BODY, INVOICE_SIGNED, MESSAGE_WIDTH, REPLY_SIGNED, REQUEST_SIGNED};
use messages::parts::{
    Account, Buyer, Drawn, FALSE_GATEWAY, HOUSE, Hashed, Mark, Seller, Slip, hashed_at, mark_at,
};
use messages::signed::{
    BuyerSigned, InvoiceSigned, ReplySigned, RequestSigned, invoice_signed_at, reply_signed_at,
    request_signed_at,
};
use rules::codes::{Argument, Item};

// What every kind is made from.
#[derive(Clone, Copy)]
pub struct Gathered {
    pub seller: Seller,
    pub account: Account,
    pub drawn: Drawn,
    pub buyer: Buyer,
    pub hashed: Hashed,
    pub mark: Mark,
}

fn gather(step: &Forgery) -> Gathered
    ensures { Each step.now (λ R s. result ≡ gathered_in R s) }
{
    let seller = Seller(step.number(Argument::S));
    let account = step.account();
    let drawn = step.drawn();
    let buyer = step.buyer(account);
    let hashed = step
        .given_message(Item::H)
        .map_or(Hashed { drawn, account }, |m| hashed_at(m, BODY));
    let built = Mark {
        seller,
        buyer,
        hashed,
    };
    let mark = step
        .given_message(Item::M)
        .map_or(built, |m| mark_at(m, BODY));
    Gathered {
        seller,
        account,
        drawn,
        buyer,
        hashed,
        mark,
    }
}

// Without e, a slip is built under key 1.
fn gathered_slip(step: &Forgery, g: Gathered) -> Slip
    ensures { Each step.now (λ R s. g ≡ gathered_in R s → result ≡ slip_given R s) }
{
    let built = Slip {
        key: HOUSE,
        mark: g.mark,
        account: g.account,
        drawn: g.drawn,
    };
    step.given_message(Item::E).map_or(built, slip_in)
}

// The buyer's signature of a Payment and of an Auth-Request. A missing signature is made by 0.
fn signed_by_buyer(step: &Forgery, mark: Mark, slip: Slip) -> BuyerSigned
    ensures { Each step.now (λ R s. mark ≡ (gathered_in R s).mark → slip ≡ slip_given R s → result ≡ buyer_signature_in R s) }
{
    let built = BuyerSigned {
        signer: Buyer(0),
        slip,
        mark,
    };
    step.given_message(Item::P).map_or(built, buyer_signed_in)
}

// The five kinds. The maker is the outsider; where no gateway is named it is gateway 1. Table, row and step come apart, as
// these public functions promise what they do of the three.

pub fn forge_initiate(t: &[u16], row: &[Argument], s: &[u16]) -> [u16; MESSAGE_WIDTH]
    requires { Ready (room_of t.now) t.now row.now s.now }
    ensures { (n : ℕ) → Ready n t.now row.now s.now → result ≡ forged_in Initiate (messages n t.now) s.now }
{
    let g = gather(&Forgery { t, row, s });
    initiate(Buyer(0), g.buyer, g.seller, g.hashed)
}

pub fn forge_invoice(t: &[u16], row: &[Argument], s: &[u16]) -> [u16; MESSAGE_WIDTH]
    requires { Ready (room_of t.now) t.now row.now s.now }
    ensures { (n : ℕ) → Ready n t.now row.now s.now → result ≡ forged_in Invoice (messages n t.now) s.now }
{
    let step = Forgery { t, row, s };
    let g = gather(&step);
    let built = InvoiceSigned {
        signer: Seller(0),
        mark: g.mark,
    };
    let signed = step
        .given_message(Item::V)
        .map_or(built, |m| invoice_signed_at(m, INVOICE_SIGNED));
    invoice(Seller(0), g.seller, g.buyer, g.mark, signed)
}

pub fn forge_payment(t: &[u16], row: &[Argument], s: &[u16]) -> [u16; MESSAGE_WIDTH]
    requires { Ready (room_of t.now) t.now row.now s.now }
    ensures { (n : ℕ) → Ready n t.now row.now s.now → result ≡ forged_in Payment (messages n t.now) s.now }
{
    let step = Forgery { t, row, s };
    let g = gather(&step);
    let slip = gathered_slip(&step, g);
    let signed = signed_by_buyer(&step, g.mark, slip);
    payment(Buyer(0), g.buyer, g.seller, slip, signed)
}

pub fn forge_request(t: &[u16], row: &[Argument], s: &[u16]) -> [u16; MESSAGE_WIDTH]
    requires { Ready (room_of t.now) t.now row.now s.now }
    ensures { (n : ℕ) → Ready n t.now row.now s.now → result ≡ forged_in AuthRequest (messages n t.now) s.now }
{
    let step = Forgery { t, row, s };
    let g = gather(&step);
    let mark = g.mark;
    let slip = gathered_slip(&step, g);
    let built = RequestSigned {
        signer: Seller(0),
        mark,
        slip,
    };
    let signed = step
        .given_message(Item::Q)
        .map_or(built, |m| request_signed_at(m, REQUEST_SIGNED));
    auth_request(
        Seller(0),
        g.seller,
        HOUSE,
        mark,
        slip,
        signed,
        signed_by_buyer(&step, mark, slip),
    )
}

pub fn forge_response(t: &[u16], row: &[Argument], s: &[u16]) -> [u16; MESSAGE_WIDTH]
    requires { Ready (room_of t.now) t.now row.now s.now }
    ensures { (n : ℕ) → Ready n t.now row.now s.now → result ≡ forged_in AuthResponse (messages n t.now) s.now }
{
    let step = Forgery { t, row, s };
    let g = gather(&step);
    let code = step.number(Argument::C);
    let built = ReplySigned {
        signer: FALSE_GATEWAY,
        code,
        mark: g.mark,
    };
    let signed = step
        .given_message(Item::G)
        .map_or(built, |m| reply_signed_at(m, REPLY_SIGNED));
    auth_response(FALSE_GATEWAY, HOUSE, g.seller, code, signed)
}
