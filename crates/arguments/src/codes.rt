// Which arguments each code takes.
ghost use Rattle.std.specs.Prelude.{◌≡◌, ◌≤◌};
ghost use Rattle.rules.specs.Codes.{known, most_code, row_of};

use messages::kind::Kind;
use rules::codes::{Argument, Item};
use rules::steps::STEP_WIDTH;

// Codes are 1 to 38, and a step has six arguments after its code.
const MOST_CODE: usize = 38;

pub const MOST_ARGUMENTS: usize = STEP_WIDTH - 1;

// The words of the table: places of a message of a kind are written out, the others are document 01's letters, and O is an argument that
// a code does not have.
const B: Argument = Argument::B;

const S: Argument = Argument::S;

const C: Argument = Argument::C;

const A: Argument = Argument::A;

const H: Argument = Argument::At(Item::H);

const M: Argument = Argument::At(Item::M);

const E: Argument = Argument::At(Item::E);

const R: Argument = Argument::At(Item::R);

const V: Argument = Argument::At(Item::V);

const Q: Argument = Argument::At(Item::Q);

const P: Argument = Argument::At(Item::P);

const G: Argument = Argument::At(Item::G);

const INITIATE: Argument = Argument::The(Kind::Initiate);

const INVOICE: Argument = Argument::The(Kind::Invoice);

const PAYMENT: Argument = Argument::The(Kind::Payment);

const REQUEST: Argument = Argument::The(Kind::AuthRequest);

const O: Argument = Argument::Unused;

// What each of the six arguments of a step is, a row for each code from 1.
static ARGUMENTS: [[Argument; MOST_ARGUMENTS]; MOST_CODE] = [
    [B, S, O, O, O, O],
    [S, INITIATE, O, O, O, O],
    [B, INITIATE, INVOICE, O, O, O],
    [S, INVOICE, PAYMENT, O, O, O],
    [REQUEST, O, O, O, O, O],
    [B, S, H, O, O, O],
    [S, A, R, O, O, O],
    [S, B, M, V, O, O],
    [S, B, H, V, O, O],
    [S, A, R, V, O, O],
    [S, B, M, O, O, O],
    [S, B, H, O, O, O],
    [S, A, R, O, O, O],
    [B, S, E, P, O, O],
    [S, A, R, M, P, O],
    [S, A, R, P, O, O],
    [B, S, E, M, O, O],
    [B, S, E, H, O, O],
    [S, E, A, R, O, O],
    [S, A, R, M, O, O],
    [S, A, R, O, O, O],
    [S, M, E, Q, P, O],
    [S, B, H, E, Q, P],
    [S, A, R, Q, P, O],
    [S, M, E, P, O, O],
    [S, B, H, E, P, O],
    [S, A, R, P, O, O],
    [S, M, E, Q, O, O],
    [S, B, H, E, Q, O],
    [S, A, R, Q, O, O],
    [S, M, E, O, O, O],
    [S, B, H, E, O, O],
    [S, A, R, O, O, O],
    [S, C, G, O, O, O],
    [S, C, M, O, O, O],
    [S, B, C, H, O, O],
    [S, C, A, R, O, O],
    [B, INITIATE, INVOICE, O, O, O],
];

// Refusal 2.
pub fn is_known(code: u16) -> bool
    ensures { result ≡ known code }
{
    (1..=MOST_CODE).contains(&(code as usize))
}

// The row of a code.
#[tactic(auto, using(crate::proofs::Takes::table_row))]
pub fn row_of(code: usize) -> &'static [Argument]
    requires { (1 ≤ code) × (code ≤ most_code) }
    ensures { result.now ≡ (row_of code).takes }
{
    &ARGUMENTS[code - 1]
}
