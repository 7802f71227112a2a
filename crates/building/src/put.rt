// Parts and signatures written into a message at a position.
ghost use Rattle.std.specs.Prelude.{◌≡◌, ◌+◌, ◌≤◌, length};
ghost use Rattle.messages.specs.Parts.{drawn_width, hashed_width, mark_width, slip_width};
ghost use Rattle.building.specs.Put.{
  put_buyer_signed,
  put_drawn,
  put_hashed,
  put_invoice_signed,
  put_mark,
  put_reply_signed,
  put_request_signed,
  put_slip,
};
ghost use Rattle.messages.specs.Signed.{buyer_signed_width, invoice_signed_width, reply_signed_width, request_signed_width};

use messages::parts::{DRAWN_WIDTH, Drawn, Hashed, MARK_WIDTH, Mark, SLIP_WIDTH, Slip};
use messages::signed::{BuyerSigned, InvoiceSigned, ReplySigned, RequestSigned};

// Each of these eight writes other fields, so that they are no copies of one another.
pub fn put_drawn(m: &mut [u16], k: usize, x: Drawn)
    requires { k + drawn_width ≤ length m.old }
    ensures { m.new ≡ put_drawn m.old k x }
{
    m[k] = x.drawer.0;
    m[k + 1] = x.draw;
}

pub fn put_hashed(m: &mut [u16], k: usize, x: Hashed)
    requires { k + hashed_width ≤ length m.old }
    ensures { m.new ≡ put_hashed m.old k x }
{
    put_drawn(m, k, x.drawn);
    m[k + DRAWN_WIDTH] = x.account.0;
}

pub fn put_mark(m: &mut [u16], k: usize, x: Mark)
    requires { k + mark_width ≤ length m.old }
    ensures { m.new ≡ put_mark m.old k x }
{
    m[k] = x.seller.0;
    m[k + 1] = x.buyer.0;
    put_hashed(m, k + 2, x.hashed);
}

pub fn put_slip(m: &mut [u16], k: usize, x: Slip)
    requires { k + slip_width ≤ length m.old }
    ensures { m.new ≡ put_slip m.old k x }
{
    m[k] = x.key.0;
    put_mark(m, k + 1, x.mark);
    let rest = k + 1 + MARK_WIDTH;
    m[rest] = x.account.0;
    put_drawn(m, rest + 1, x.drawn);
}

pub fn put_invoice_signed(m: &mut [u16], k: usize, x: InvoiceSigned)
    requires { k + invoice_signed_width ≤ length m.old }
    ensures { m.new ≡ put_invoice_signed m.old k x }
{
    m[k] = x.signer.0;
    put_mark(m, k + 1, x.mark);
}

pub fn put_buyer_signed(m: &mut [u16], k: usize, x: BuyerSigned)
    requires { k + buyer_signed_width ≤ length m.old }
    ensures { m.new ≡ put_buyer_signed m.old k x }
{
    m[k] = x.signer.0;
    put_slip(m, k + 1, x.slip);
    put_mark(m, k + 1 + SLIP_WIDTH, x.mark);
}

pub fn put_request_signed(m: &mut [u16], k: usize, x: RequestSigned)
    requires { k + request_signed_width ≤ length m.old }
    ensures { m.new ≡ put_request_signed m.old k x }
{
    m[k] = x.signer.0;
    put_mark(m, k + 1, x.mark);
    put_slip(m, k + 1 + MARK_WIDTH, x.slip);
}

pub fn put_reply_signed(m: &mut [u16], k: usize, x: ReplySigned)
    requires { k + reply_signed_width ≤ length m.old }
    ensures { m.new ≡ put_reply_signed m.old k x }
{
    m[k] = x.signer.0;
    m[k + 1] = x.code;
    put_mark(m, k + 2, x.mark);
}
