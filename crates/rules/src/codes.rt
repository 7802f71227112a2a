// What the arguments of a step are, by document 01's letters, as capitals. The definitions and the code's table of steps are made of these.
use messages::kind::Kind;

// What the outsider takes from a message at a place: H hashed account, M mark, E slip, R drawer and draw, V invoice signature,
// Q seller's request signature, P buyer's signature, G gateway signature.
#[derive(Clone, Copy, PartialEq, Eq, Debug)]
pub enum Item {
    H,
    M,
    E,
    R,
    V,
    Q,
    P,
    G,
}

// Unused is an argument that a code does not have, B a buyer, S a seller, C a response code. The rest are places: of a message of a kind, of
// one that yields an item, or (A) of one that yields an account, where 0 is the outsider's own.
#[derive(Clone, Copy, PartialEq, Eq, Debug)]
pub enum Argument {
    Unused,
    B,
    S,
    C,
    A,
    The(Kind),
    At(Item),
}
