// The parties, each a sort of its own, and the parts that messages are made of, read from a message. Two parts are compared by `==`,
// and that this compares each of their numbers is promised by the functions at the end.
ghost use Rattle.std.specs.Prelude.{◌≡◌, ◌+◌, ◌≤◌, length};
ghost use Rattle.messages.specs.Parts.{
  drawn_at,
  drawn_width,
  hashed_at,
  hashed_width,
  mark_at,
  mark_width,
  owner_of,
  same_drawn,
  same_hashed,
  same_mark,
  same_slip,
  slip_at,
  slip_width,
};

pub const DRAWN_WIDTH: usize = 2;

pub const HASHED_WIDTH: usize = DRAWN_WIDTH + 1;

pub const MARK_WIDTH: usize = 2 + HASHED_WIDTH;

pub const SLIP_WIDTH: usize = 1 + MARK_WIDTH + 1 + DRAWN_WIDTH;

// Buyer 3, seller 3, account 3 and place 3 are four different things.
#[derive(Clone, Copy, PartialEq, Eq)]
pub struct Buyer(pub u16);

#[derive(Clone, Copy, PartialEq, Eq)]
pub struct Seller(pub u16);

#[derive(Clone, Copy, PartialEq, Eq)]
pub struct Gateway(pub u16);

#[derive(Clone, Copy, PartialEq, Eq)]
pub struct Account(pub u16);

#[derive(Clone, Copy, PartialEq, Eq)]
pub struct Place(pub usize);

// Gateway 1 is the house, gateway 0 the outsider's false one.
pub const HOUSE: Gateway = Gateway(1);

pub const FALSE_GATEWAY: Gateway = Gateway(0);

// Who drew a random number, and the number.
#[derive(Clone, Copy, PartialEq, Eq)]
pub struct Drawn {
    pub drawer: Buyer,
    pub draw: u16,
}

// A hashed account.
#[derive(Clone, Copy, PartialEq, Eq)]
pub struct Hashed {
    pub drawn: Drawn,
    pub account: Account,
}

// The hash of Common.
#[derive(Clone, Copy, PartialEq, Eq)]
pub struct Mark {
    pub seller: Seller,
    pub buyer: Buyer,
    pub hashed: Hashed,
}

// What only the gateway with this key can read.
#[derive(Clone, Copy, PartialEq, Eq)]
pub struct Slip {
    pub key: Gateway,
    pub mark: Mark,
    pub account: Account,
    pub drawn: Drawn,
}

// A buyer's account bears the buyer's number.
pub fn owner(account: Account) -> Buyer
    ensures { result ≡ owner_of account }
{
    Buyer(account.0)
}

// Each of these four reads other fields, so that they are no copies of one another. A part is read at a position of a message, as the definitions
// read it.
pub fn drawn_at(m: &[u16], k: usize) -> Drawn
    requires { k + drawn_width ≤ length m.now }
    ensures { result ≡ drawn_at m.now k }
{
    Drawn {
        drawer: Buyer(m[k]),
        draw: m[k + 1],
    }
}

pub fn hashed_at(m: &[u16], k: usize) -> Hashed
    requires { k + hashed_width ≤ length m.now }
    ensures { result ≡ hashed_at m.now k }
{
    let drawn = drawn_at(m, k);
    Hashed {
        drawn,
        account: Account(m[k + DRAWN_WIDTH]),
    }
}

pub fn mark_at(m: &[u16], k: usize) -> Mark
    requires { k + mark_width ≤ length m.now }
    ensures { result ≡ mark_at m.now k }
{
    let hashed = hashed_at(m, k + 2);
    Mark {
        seller: Seller(m[k]),
        buyer: Buyer(m[k + 1]),
        hashed,
    }
}

pub fn slip_at(m: &[u16], k: usize) -> Slip
    requires { k + slip_width ≤ length m.now }
    ensures { result ≡ slip_at m.now k }
{
    let mark = mark_at(m, k + 1);
    let rest = k + 1 + MARK_WIDTH;
    let drawn = drawn_at(m, rest + 1);
    Slip {
        key: Gateway(m[k]),
        mark,
        account: Account(m[rest]),
        drawn,
    }
}

pub fn same_drawn(drawn: Drawn, other: Drawn) -> bool
    ensures { result ≡ same_drawn drawn other }
{
    drawn == other
}

pub fn same_hashed(hashed: Hashed, other: Hashed) -> bool
    ensures { result ≡ same_hashed hashed other }
{
    hashed == other
}

pub fn same_mark(mark: Mark, other: Mark) -> bool
    ensures { result ≡ same_mark mark other }
{
    mark == other
}

pub fn same_slip(slip: Slip, other: Slip) -> bool
    ensures { result ≡ same_slip slip other }
{
    slip == other
}
