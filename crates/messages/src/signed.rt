// The four signatures: who signed, and the parts that were signed, read at a position of a message.
ghost use Rattle.std.specs.Prelude.{◌≡◌, ◌+◌, ◌≤◌, length};
ghost use Rattle.messages.specs.Signed.{
  invoice_signed_at,
  invoice_signed_width,
  buyer_signed_at,
  buyer_signed_width,
  request_signed_at,
  request_signed_width,
  reply_signed_at,
  reply_signed_width,
};

use crate::parts::{Buyer, Gateway, MARK_WIDTH, Mark, SLIP_WIDTH, Seller, Slip, mark_at, slip_at};

pub const INVOICE_SIGNED_WIDTH: usize = 1 + MARK_WIDTH;

pub const BUYER_SIGNED_WIDTH: usize = 1 + SLIP_WIDTH + MARK_WIDTH;

pub const REQUEST_SIGNED_WIDTH: usize = 1 + MARK_WIDTH + SLIP_WIDTH;

pub const REPLY_SIGNED_WIDTH: usize = 2 + MARK_WIDTH;

// By a seller, over the mark of an Invoice.
#[derive(Clone, Copy, PartialEq, Eq)]
pub struct InvoiceSigned {
    pub signer: Seller,
    pub mark: Mark,
}

// By a buyer, over the slip of a Payment and the mark.
#[derive(Clone, Copy, PartialEq, Eq)]
pub struct BuyerSigned {
    pub signer: Buyer,
    pub slip: Slip,
    pub mark: Mark,
}

// By a seller, over the mark and the slip of an Auth-Request.
#[derive(Clone, Copy)]
pub struct RequestSigned {
    pub signer: Seller,
    pub mark: Mark,
    pub slip: Slip,
}

// By a gateway, over the code of an Auth-Response and the mark. The code is a number, since a message that is read may hold any.
#[derive(Clone, Copy)]
pub struct ReplySigned {
    pub signer: Gateway,
    pub code: u16,
    pub mark: Mark,
}

// Each of these four reads other fields, so that they are no copies of one another.
pub fn invoice_signed_at(m: &[u16], k: usize) -> InvoiceSigned
    requires { k + invoice_signed_width ≤ length m.now }
    ensures { result ≡ invoice_signed_at m.now k }
{
    let mark = mark_at(m, k + 1);
    InvoiceSigned {
        signer: Seller(m[k]),
        mark,
    }
}

pub fn buyer_signed_at(m: &[u16], k: usize) -> BuyerSigned
    requires { k + buyer_signed_width ≤ length m.now }
    ensures { result ≡ buyer_signed_at m.now k }
{
    let slip = slip_at(m, k + 1);
    let mark = mark_at(m, k + 1 + SLIP_WIDTH);
    BuyerSigned {
        signer: Buyer(m[k]),
        slip,
        mark,
    }
}

pub fn request_signed_at(m: &[u16], k: usize) -> RequestSigned
    requires { k + request_signed_width ≤ length m.now }
    ensures { result ≡ request_signed_at m.now k }
{
    let mark = mark_at(m, k + 1);
    let slip = slip_at(m, k + 1 + MARK_WIDTH);
    RequestSigned {
        signer: Seller(m[k]),
        mark,
        slip,
    }
}

pub fn reply_signed_at(m: &[u16], k: usize) -> ReplySigned
    requires { k + reply_signed_width ≤ length m.now }
    ensures { result ≡ reply_signed_at m.now k }
{
    let mark = mark_at(m, k + 2);
    ReplySigned {
        signer: Gateway(m[k]),
        code: m[k + 1],
        mark,
    }
}
