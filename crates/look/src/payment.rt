// The four messages of a payment, by its mark, and which of them have been seen.
ghost use Rattle.std.specs.Prelude.{[], ◌∷◌, ◌++◌, ◌≡◌};
ghost use Rattle.look.specs.Looked.{seen_of, wanted_by};
ghost use Rattle.record.specs.Table.{Record};
ghost use Rattle.rules.specs.Report.{its_initiate, its_invoice, its_payment, its_request, its_slip};

use crate::look::Seen;
use building::build::{auth_request, initiate, invoice, payment};
use messages::layout::MESSAGE_WIDTH;
use messages::parts::{HOUSE, Mark, Slip};
use messages::signed::{BuyerSigned, InvoiceSigned, RequestSigned};

// The slip under key 1 for a mark.
fn its_slip(mark: Mark) -> Slip
    ensures { result ≡ its_slip mark }
{
    let account = mark.hashed.account;
    let drawn = mark.hashed.drawn;
    Slip {
        key: HOUSE,
        mark,
        account,
        drawn,
    }
}

pub fn its_initiate(mark: Mark) -> [u16; MESSAGE_WIDTH]
    ensures { result ≡ its_initiate mark }
{
    initiate(mark.buyer, mark.buyer, mark.seller, mark.hashed)
}

pub fn its_invoice(mark: Mark) -> [u16; MESSAGE_WIDTH]
    ensures { result ≡ its_invoice mark }
{
    let signer = mark.seller;
    invoice(
        signer,
        signer,
        mark.buyer,
        mark,
        InvoiceSigned { signer, mark },
    )
}

pub fn its_payment(mark: Mark) -> [u16; MESSAGE_WIDTH]
    ensures { result ≡ its_payment mark }
{
    let signer = mark.buyer;
    let slip = its_slip(mark);
    let signed = BuyerSigned { signer, slip, mark };
    payment(signer, signer, mark.seller, slip, signed)
}

pub fn its_request(mark: Mark) -> [u16; MESSAGE_WIDTH]
    ensures { result ≡ its_request mark }
{
    let seller = mark.seller;
    let buyer = mark.buyer;
    let slip = its_slip(mark);
    let signed = RequestSigned {
        signer: seller,
        mark,
        slip,
    };
    let signed_by_buyer = BuyerSigned {
        signer: buyer,
        slip,
        mark,
    };
    auth_request(seller, seller, HOUSE, mark, slip, signed, signed_by_buyer)
}

// All four.
#[derive(Drop)]
pub struct Wanted {
    initiate: [u16; MESSAGE_WIDTH],
    invoice: [u16; MESSAGE_WIDTH],
    payment: [u16; MESSAGE_WIDTH],
    request: [u16; MESSAGE_WIDTH],
}

impl Wanted {
    pub fn new(mark: Mark) -> Wanted
        ensures { result ≡ wanted_by mark }
    {
        Wanted {
            initiate: its_initiate(mark),
            invoice: its_invoice(mark),
            payment: its_payment(mark),
            request: its_request(mark),
        }
    }

    // What has been seen becomes what has been seen with one message more.
    pub fn note(&self, seen: &mut Seen, m: &[u16])
        ensures { (R : Record) → seen.old ≡ seen_of self.now R → seen.new ≡ seen_of self.now (R ++ (m.now ∷ [])) }
    {
        seen.initiated |= m == self.initiate.as_slice();
        seen.invoiced |= m == self.invoice.as_slice();
        seen.paid |= m == self.payment.as_slice();
        seen.asked |= m == self.request.as_slice();
    }
}
