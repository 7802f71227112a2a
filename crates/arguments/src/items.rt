// What the message at a place yields, by its kind. A message is a slice, since `yields`, `slip_in`, `drawn_in` and `buyer_signed_in` promise
// what they do of any slice of 48 numbers.
ghost use Rattle.std.specs.Prelude.{◌&&◌, ◌≡◌, ◌≤◌, eqb, length};
ghost use Rattle.messages.specs.Layout.{body, kind_of, message_width};
ghost use Rattle.messages.specs.declared.kind.Kind.TheVariants.{Initiate};
ghost use Rattle.messages.specs.Parts.{drawn_at};
ghost use Rattle.rules.specs.Items.{buyer_signed_in, drawn_in, has_slip, is_kind, readable, slip_in};
ghost use Rattle.arguments.specs.Offers.{among, bits, kinds_of, offers};

use messages::kind::Kind;
use messages::layout::{BODY, KIND, PAYMENT_SIGNED, REQUEST_BUYER_SIGNED, REQUEST_SLIP};
use messages::parts::{Drawn, FALSE_GATEWAY, Slip, drawn_at, slip_at};
use messages::signed::{BuyerSigned, buyer_signed_at};
use rules::codes::{Argument, Item};

// Kinds of message, bit k for kind k. A slip stands in a Payment or an Auth-Request.
const IN_INITIATE: u16 = 0b000010;

const IN_INVOICE: u16 = 0b000100;

const IN_REQUEST: u16 = 0b010000;

const IN_RESPONSE: u16 = 0b100000;

const IN_SLIP: u16 = 0b011000;

const IN_INVOICE_OR_REQUEST: u16 = 0b010100;

const IN_INITIATE_OR_SLIP: u16 = 0b011010;

pub fn slip_in(m: &[u16]) -> Slip
    requires { length m.now ≡ message_width }
    ensures { result ≡ slip_in m.now }
{
    if m[KIND] == Kind::Payment as u16 {
        return slip_at(m, BODY);
    }
    slip_at(m, REQUEST_SLIP)
}

pub fn drawn_in(m: &[u16]) -> Drawn
    requires { length m.now ≡ message_width }
    ensures { result ≡ drawn_in m.now }
{
    if m[KIND] == Kind::Initiate as u16 {
        return drawn_at(m, BODY);
    }
    let slip = slip_in(m);
    slip.drawn
}

pub fn buyer_signed_in(m: &[u16]) -> BuyerSigned
    requires { length m.now ≡ message_width }
    ensures { result ≡ buyer_signed_in m.now }
{
    if m[KIND] == Kind::Payment as u16 {
        return buyer_signed_at(m, PAYMENT_SIGNED);
    }
    buyer_signed_at(m, REQUEST_BUYER_SIGNED)
}

fn has_slip(m: &[u16]) -> bool
    requires { length m.now ≡ message_width }
    ensures { result ≡ has_slip m.now }
{
    m[KIND] == Kind::Payment as u16 || m[KIND] == Kind::AuthRequest as u16
}

// A slip under key 0, which the outsider can read.
fn is_readable(m: &[u16]) -> bool
    requires { length m.now ≡ message_width }
    ensures { result ≡ readable m.now }
{
    has_slip(m) && slip_in(m).key == FALSE_GATEWAY
}

// An Initiate whose draw is the outsider's own.
fn is_own_initiate(m: &[u16]) -> bool
    requires { length m.now ≡ message_width }
    ensures { result ≡ (is_kind Initiate m.now && eqb (drawn_at m.now body).drawer.0 0) }
{
    m[KIND] == Kind::Initiate as u16 && drawn_at(m, BODY).drawer.0 == 0
}

// The kinds of message in which an item may stand. Each arm is a number, of which the compiler makes a table that it reads in place; of a
// test in each arm it would make a jump, which the processor often guesses wrong.
fn kinds(item: Item) -> u16
    ensures { result ≡ bits (kinds_of item) }
{
    match item {
        Item::H => IN_INITIATE,
        Item::M => IN_INVOICE_OR_REQUEST,
        Item::E | Item::P => IN_SLIP,
        Item::R => IN_INITIATE_OR_SLIP,
        Item::V => IN_INVOICE,
        Item::Q => IN_REQUEST,
        Item::G => IN_RESPONSE,
    }
}

fn stands_in(item: Item, m: &[u16]) -> bool
    requires { length m.now ≡ message_width }
    ensures { result ≡ among (kinds_of item) (kind_of m.now) }
{
    let Ok(kind) = Kind::try_from(m[KIND]) else {
        return false;
    };
    (kinds(item) >> kind as u16) & 1 == 1
}

// Whether a message yields what an argument asks of it.
pub fn yields(argument: Argument, m: &[u16]) -> bool
    requires { length m.now ≡ message_width }
    ensures { result ≡ offers argument m.now }
{
    match argument {
        Argument::The(kind) => m[KIND] == kind as u16,
        Argument::At(Item::R) => is_own_initiate(m) || is_readable(m),
        Argument::At(item) => stands_in(item, m),
        Argument::A => is_readable(m),
        _ => false,
    }
}
