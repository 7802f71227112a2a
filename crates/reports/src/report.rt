// The report on a reply: whether the four messages of its payment stand earlier in the record. One look through the record.
ghost use Rattle.std.specs.Prelude.{[], ◌∷◌, ◌≡◌, ◌*◌, ◌≤◌, eqb, length};
ghost use Rattle.messages.specs.Layout.{message_width};
ghost use Rattle.messages.specs.Tests.{every};
ghost use Rattle.record.specs.Table.{Record, messages};
ghost use Rattle.look.specs.Looked.{seen_in};
ghost use Rattle.reports.specs.Numbers.{report_number, verdict_number};
ghost use Rattle.reports.specs.ReplyAt.{reply_at};
ghost use Rattle.rules.specs.Report.{house_reply, outside, report as report_of, report_on};

use look::look::{Seen, look};
use messages::kind::Kind;
use messages::layout::{KIND, MAKER, REPLY_SIGNED};
use messages::parts::{HOUSE, Mark, Place};
use messages::signed::reply_signed_at;
use record::table::{is_lawful_record, is_whole, message, room};
use refusals::Refusal;

// What is said of a payment: all is as agreed, buyer and seller are both the outsider, or something is missing.
#[derive(Clone, Copy, PartialEq, Eq, Debug)]
pub enum Verdict {
    Agreed = 20,
    Outside = 21,
    Missing = 22,
}

impl From<Verdict> for u8 {
    ghost from_gives = { λ verdict number. number ≡ verdict_number verdict };

    fn from(verdict: Verdict) -> u8 {
        verdict as u8
    }
}

// Buyer and seller are both the outsider.
fn is_outside(mark: Mark) -> bool
    ensures { result ≡ outside mark }
{
    mark.buyer.0 == 0 && mark.seller.0 == 0
}

fn is_agreed(mark: Mark, seen: Seen) -> bool
    ensures { result ≡ every (eqb mark.hashed.account.0 mark.buyer.0 ∷ seen.initiated ∷ seen.invoiced ∷ seen.paid ∷ seen.asked ∷ []) }
{
    mark.hashed.account.0 == mark.buyer.0
        && seen.initiated
        && seen.invoiced
        && seen.paid
        && seen.asked
}

fn verdict_on(mark: Mark, seen: Seen) -> Verdict
    ensures { (R : Record) → seen ≡ seen_in mark R → verdict_number result ≡ report_on R mark }
{
    if is_outside(mark) {
        Verdict::Outside
    } else if is_agreed(mark, seen) {
        Verdict::Agreed
    } else {
        Verdict::Missing
    }
}

// On a payment by what stands in the first messages of a table that are known to be lawful, as after a run.
pub fn report_on(t: &[u16], earlier: usize, mark: Mark) -> Verdict
    requires { earlier * message_width ≤ length t.now }
    ensures { verdict_number result ≡ report_on (messages earlier t.now) mark }
{
    let seen = look(t, earlier, earlier, true, mark).unwrap();
    verdict_on(mark, seen)
}

pub fn is_house_reply(m: &[u16]) -> bool
    requires { length m.now ≡ message_width }
    ensures { result ≡ house_reply m.now }
{
    m[KIND] == Kind::AuthResponse as u16 && m[MAKER] == HOUSE.0
}

// The reply that a place is asked about: how many messages are earlier, and the mark of its payment.
#[derive(Clone, Copy, PartialEq, Eq)]
pub struct Reply {
    pub earlier: usize,
    pub mark: Mark,
}

fn reply_at(t: &[u16], n: usize, place: Place) -> Result<Reply, Refusal>
    requires { n * message_width ≤ length t.now }
    ensures { result ≡ reply_at n t.now place }
{
    if !(1..=n).contains(&place.0) {
        return Err(Refusal::Place);
    }
    let m = message(t, place);
    if !is_house_reply(m) {
        return Err(Refusal::Item);
    }
    let mark = reply_signed_at(m, REPLY_SIGNED).mark;
    Ok(Reply {
        earlier: place.0 - 1,
        mark,
    })
}

// The reply is read first, so that one look serves refusal 1 and the report. Refusal 1 comes before those of the place.
pub fn report(t: &[u16], n: usize, place: Place) -> Result<Verdict, Refusal>
    ensures { report_number result ≡ report_of n t.now place }
{
    if !is_whole(t) || room(t) < n {
        return Err(Refusal::Record);
    }
    match reply_at(t, n, place) {
        Ok(reply) => {
            let seen = look(t, n, reply.earlier, false, reply.mark).ok_or(Refusal::Record)?;
            Ok(verdict_on(reply.mark, seen))
        }
        Err(refusal) if is_lawful_record(t, n) => Err(refusal),
        Err(_) => Err(Refusal::Record),
    }
}
