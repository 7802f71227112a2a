// What a forged step gives is copied from the messages that it names; what it does not give is built as document 01 says.
ghost use Rattle.arguments.specs.Ready.{Ready};
ghost use Rattle.record.specs.Table.{room_of};

use arguments::given::find;
use arguments::items::{drawn_in, slip_in};
use messages::parts::{Account, Buyer, Drawn, Place, owner};
use record::table::message;
use rules::codes::{Argument, Item};

// A forged step, the row of its code, and the table that the places of its arguments lie in.
#[derive(Clone, Copy)]
pub struct Forgery<'a> {
    pub t: &'a [u16],
    pub row: &'a [Argument],
    pub s: &'a [u16],
    ghost ready: { Ready (room_of t.now) t.now row.now s.now },
}

impl<'a> Forgery<'a> {
    ghost use Rattle.std.specs.Prelude.{◌≡◌, IfSome, length};
    ghost use Rattle.forged.specs.Each.{Each};
    ghost use Rattle.forged.specs.Outside.{Offers, account_in, buyer_in, drawn_given, number_in};
    ghost use Rattle.messages.specs.Layout.{message_width};

    // The number that the step gives for an argument, 0 if it gives none.
    pub fn number(&self, argument: Argument) -> u16
        ensures { result ≡ number_in argument self.now.s.now }
    {
        find(argument, self.row, self.s).unwrap_or(0)
    }

    // The message at the place that the step gives for an item, if it gives one.
    pub fn given_message(&self, item: Item) -> Option<&'a [u16]>
        ensures whole { IfSome result (λ m. length m.now ≡ message_width) }
        ensures offered { Each self.now (λ R s. Offers item R s result) }
    {
        let p = find(Argument::At(item), self.row, self.s)?;
        Some(message(self.t, Place(p as usize)))
    }

    // a: 0 is the outsider's own.
    pub fn account(&self) -> Account
        ensures { Each self.now (λ R s. result ≡ account_in R s) }
    {
        let p = self.number(Argument::A);
        if p == 0 {
            return Account(0);
        }
        slip_in(message(self.t, Place(p as usize))).account
    }

    // r: without it he draws 0 himself.
    pub fn drawn(&self) -> Drawn
        ensures { Each self.now (λ R s. result ≡ drawn_given R s) }
    {
        let built = Drawn {
            drawer: Buyer(0),
            draw: 0,
        };
        self.given_message(Item::R).map_or(built, drawn_in)
    }

    // Without B, the buyer is the owner of a.
    pub fn buyer(&self, account: Account) -> Buyer
        ensures { result ≡ buyer_in account self.now.s.now }
    {
        match find(Argument::B, self.row, self.s) {
            Some(x) => Buyer(x),
            None => owner(account),
        }
    }
}
