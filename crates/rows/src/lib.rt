// The lines of a list that was played: a line for each step, then, by place, a line for each house reply.
#![tactic(auto)]

ghost use Rattle.std.specs.Prelude.{◌++◌, ◌≡◌, ◌*◌, ◌+◌, ◌<◌, ◌≤◌, length};
ghost use Rattle.messages.specs.Layout.{message_width};
ghost use Rattle.record.specs.Table.{messages, most_room};
ghost use Rattle.printing.specs.Put.{Put};
ghost use Rattle.rows.specs.Rows.{count_by, line_after, most_printed, reply_lines, step_lines};
ghost use Rattle.printing.specs.Widths.{reply_widest, step_widest};
ghost use Rattle.rules.specs.Run.{most_steps};

use messages::layout::REPLY_SIGNED;
use messages::parts::Place;
use messages::signed::reply_signed_at;
use printing::put::Printed;
use record::table::message;
use reports::report::{is_house_reply, report_on};

// How many messages there are after a step of this number, with n before it. The number is a verdict byte, as hosts in C get it: 0 is accepted.
fn count_after(n: u16, number: u8) -> u16
    requires { n < 65535 }
    ensures { result ≡ count_by n number }
{
    if number == 0 { n + 1 } else { n }
}

// By the number of each step. Here and below there are at most `most_steps` numbers and `most_room` places, as the public `put_results` asks.
fn put_steps(printed: &mut Printed<'_>, numbers: &[u8])
    requires few { length numbers.now ≤ most_steps }
    requires room { printed.old.at + length numbers.now * step_widest ≤ length printed.old.out.now }
    ensures same_table { printed.new.out.ghost_name ≡ printed.old.out.ghost_name }
    ensures put { Put printed.old.out.now printed.old.at (step_lines numbers.now) (length numbers.now * step_widest) printed.new.out.now printed.new.at }
{
    let mut n = 0;
    for (i, &number) in numbers.iter().enumerate() {
        n = count_after(n, number);
        let place = if number == 0 { n } else { 0 };
        printed.step_line((i + 1) as u16, number as u16, place);
    }
}

// The line of the message after the first p, if it is a house reply.
fn put_reply(printed: &mut Printed<'_>, t: &[u16], p: usize)
    requires named { ((p + 1) * message_width ≤ length t.now) × (p < most_room) }
    requires room { printed.old.at + reply_widest ≤ length printed.old.out.now }
    ensures same_table { printed.new.out.ghost_name ≡ printed.old.out.ghost_name }
    ensures put { Put printed.old.out.now printed.old.at (line_after t.now p) reply_widest printed.new.out.now printed.new.at }
{
    let place = p + 1;
    let reply = message(t, Place(place));
    if !is_house_reply(reply) {
        return;
    }
    let signed = reply_signed_at(reply, REPLY_SIGNED);
    let report = u8::from(report_on(t, p, signed.mark));
    let seller = signed.mark.seller.0;
    let buyer = signed.mark.buyer.0;
    printed.reply_line(place as u16, seller, buyer, report as u16);
}

// Of the first n messages of a table.
fn put_replies(printed: &mut Printed<'_>, t: &[u16], n: usize)
    requires there { (n * message_width ≤ length t.now) × (n ≤ most_room) }
    requires room { printed.old.at + n * reply_widest ≤ length printed.old.out.now }
    ensures same_table { printed.new.out.ghost_name ≡ printed.old.out.ghost_name }
    ensures put { Put printed.old.out.now printed.old.at (reply_lines (messages n t.now)) (n * reply_widest) printed.new.out.now printed.new.at }
{
    for p in 0..n {
        put_reply(printed, t, p);
    }
}

// After a run that left n messages in a table, by the number of each step.
pub fn put_results(out: &mut [u8], numbers: &[u8], t: &[u16], n: usize) -> usize
    requires { (most_printed ≤ length out.old) × (length numbers.now ≤ most_steps) × (n * message_width ≤ length t.now) × (n ≤ most_room) }
    ensures { Put out.old 0 (step_lines numbers.now ++ reply_lines (messages n t.now)) most_printed out.new result }
{
    let mut printed = Printed { out, at: 0 };
    put_steps(&mut printed, numbers);
    put_replies(&mut printed, t, n);
    printed.at
}
