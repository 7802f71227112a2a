// Where the parts of each kind of message stand. A position is the sum of the widths before it, so that a wider part moves
// all that follows.
use crate::parts::{DRAWN_WIDTH, MARK_WIDTH, SLIP_WIDTH};
use crate::signed::{BUYER_SIGNED_WIDTH, REQUEST_SIGNED_WIDTH};

// What every kind begins with.
pub const KIND: usize = 0;

pub const MAKER: usize = 1;

pub const SOURCE: usize = 2;

pub const DESTINATION: usize = 3;

// The first part after that: an Initiate's hashed account, an Invoice's or an Auth-Request's mark, a Payment's slip, an
// Auth-Response's code.
pub const BODY: usize = 4;

// An Initiate's account, and the buyer of an Invoice's or an Auth-Request's mark.
pub const INITIATE_ACCOUNT: usize = BODY + DRAWN_WIDTH;

pub const MARK_BUYER: usize = BODY + 1;

pub const INVOICE_SIGNED: usize = BODY + MARK_WIDTH;

pub const PAYMENT_SIGNED: usize = BODY + SLIP_WIDTH;

pub const REQUEST_SLIP: usize = BODY + MARK_WIDTH;

pub const REQUEST_SIGNED: usize = REQUEST_SLIP + SLIP_WIDTH;

pub const REQUEST_BUYER_SIGNED: usize = REQUEST_SIGNED + REQUEST_SIGNED_WIDTH;

pub const REPLY_SIGNED: usize = BODY + 1;

pub const MESSAGE_WIDTH: usize = REQUEST_BUYER_SIGNED + BUYER_SIGNED_WIDTH;
