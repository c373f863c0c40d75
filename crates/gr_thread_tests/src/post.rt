ghost use Rattle.std.specs.Prelude.{◌≡◌, ◌≤◌, ◌<◌, ◌^◌, IfSome};
ghost use Rattle.gr_post.specs.Passes.{sender_of, taker_of};

use gr_post::{Courier, Inbox, InboxList, Mail, SendPass, SendPassList, TakePass};
use gr_value::Shared;
use gr_vector::{Report, Vector};
use std::alloc::Global;
use std::sync::Wait;
use std::test::Fail;

mod crowd;

// A mail with a number.
fn mail(alloc: Global, at: u64) -> Option<Mail> {
    let Ok(vector) = Vector::new(alloc) else {
        return None;
    };
    let report = Report {
        member: 1,
        at,
        own: 0,
        to: 0,
        vector: Shared::new(alloc, vector).ok()?,
    };
    Some(Mail::Report {
        shard: 0,
        report: Shared::new(alloc, report).ok()?,
    })
}

// The number of a mail, and 0 of an `End`.
fn number_of(mail: &Mail) -> u64 {
    match mail {
        Mail::Report { report, .. } => report.get().at,
        _ => 0,
    }
}

// An inbox with one sender.
fn inbox_with_one(alloc: Global, capacity: u32) -> Option<(Inbox, SendPass, TakePass)>
    requires { (1 ≤ capacity) × (capacity ≤ 4096) }
    ensures { IfSome result (λ made. (made.1 ≡ sender_of made.0.table 0) × (made.2 ≡ taker_of made.0.table 1)) }
{
    let Ok((inbox, mut passes, taker)) = Inbox::new(alloc, capacity, 1) else {
        return None;
    };
    let pass = passes.pop()?;
    Some((inbox, pass, taker))
}

// The numbers of all mails in an inbox, and of no more than so many.
fn take_all<R: Wait + Sync>(
    rt: &R,
    alloc: Global,
    inbox: &Inbox,
    taker: TakePass,
    most: usize,
) -> Option<Vec<u64>>
    requires { taker.table ≡ inbox.now.table }
{
    let mut taker = taker;
    let mut numbers = Vec::new(alloc);
    for _ in 0..most {
        match inbox.take(rt, &mut taker) {
            None => return Some(numbers),
            Some(mail) => {
                if numbers.push(number_of(&mail)).is_err() {
                    return None;
                }
            }
        }
    }
    None
}

#[test]
fn a_full_inbox_hands_the_mail_back(rt: HostRuntime) -> Result<(), Fail> {
    let Some((inbox, mut pass, mut taker)) = inbox_with_one(rt.alloc(), 1) else {
        panic!(rt; "no memory")
    };
    let (Some(first), Some(second)) = (mail(rt.alloc(), 1), mail(rt.alloc(), 2)) else {
        panic!(rt; "no memory")
    };
    let sent = inbox.send(&rt, &mut pass, first).is_ok();
    let back = match inbox.send(&rt, &mut pass, second) {
        Ok(()) => 0,
        Err(full) => number_of(&full.mail),
    };
    let taken = match inbox.take(&rt, &mut taker) {
        None => 0,
        Some(mail) => number_of(&mail),
    };
    let none = inbox.take(&rt, &mut taker).is_none();
    assert_eq!(rt; (sent, back, taken, none), (true, 2, 1, true));
    assert_eq!(rt; (pass.number(), pass.refused(), taker.sender()), (0, 1, 0));
    inbox.meet(&mut taker, pass);
    Ok(())
}

// What two members take of the mails from 1 on, each of which goes to those whose bits are set.
fn delivered<R: Wait + Sync>(
    rt: &R,
    alloc: Global,
    sender: u8,
    trouble: u32,
    posts: &[u8],
) -> Option<[Vec<u64>; 2]>
    requires sender { (1 ≤ sender) × (sender ≤ 72) }
    requires trouble { trouble < 2 ^ 31 }
{
    let (first, first_pass, first_taker) = inbox_with_one(alloc, 16)?;
    let (second, second_pass, second_taker) = inbox_with_one(alloc, 16)?;
    let Ok(mut passes) = SendPassList::new(alloc) else {
        return None;
    };
    let Ok(mut inboxes) = InboxList::new(alloc) else {
        return None;
    };
    let (Ok(()), Ok(())) = (passes.push(first_pass), passes.push(second_pass)) else {
        return None;
    };
    let (Ok(()), Ok(())) = (inboxes.push(first), inboxes.push(second)) else {
        return None;
    };
    let Ok(mut courier) = Courier::new(alloc, sender, trouble, passes) else {
        return None;
    };
    for at in 0..posts.len() {
        let one = mail(alloc, at as u64 + 1)?;
        let to = posts[at].min(3);
        let Ok(()) = courier.post(alloc, &one, to) else {
            return None;
        };
    }
    let Ok(()) = courier.last() else {
        return None;
    };
    courier.flush(rt, &inboxes);
    Some([
        take_all(rt, alloc, inboxes.get(0)?, first_taker, 17)?,
        take_all(rt, alloc, inboxes.get(1)?, second_taker, 17)?,
    ])
}

// Each mail draws a number for each of its members, in their order, from where the sender and the trouble
// begin, and comes before what is due behind it.
#[test]
fn mails_go_by_the_trouble_plan(rt: HostRuntime) -> Result<(), Fail> {
    // the sender, the trouble, the members of each mail, and the numbers that are taken, of which an End has 0
    let cases: [(u8, u32, &[u8], [&[u64]; 2]); 8] = [
        (1, 7, &[2; 4], [&[0], &[1, 1, 2, 3, 4, 0]]),
        (1, 0, &[2; 8], [&[0], &[1, 2, 3, 4, 5, 6, 7, 8, 0]]),
        (1, 1, &[2; 8], [&[0], &[3, 3, 5, 6, 6, 7, 8, 8, 1, 2, 4, 0]]),
        (1, 7, &[2; 8], [&[0], &[1, 1, 2, 3, 6, 7, 7, 4, 5, 8, 0]]),
        (
            1,
            2147483646,
            &[2; 8],
            [&[0], &[1, 2, 2, 4, 4, 5, 8, 3, 6, 7, 0]],
        ),
        (2, 0, &[1, 2, 3], [&[1, 3, 0], &[2, 3, 0]]),
        (
            65,
            5,
            &[3, 3, 2, 2, 1, 3, 3, 3],
            [&[5, 1, 2, 6, 7, 8, 0], &[2, 2, 4, 7, 8, 1, 3, 6, 0]],
        ),
        (
            17,
            1,
            &[3, 3, 2, 3, 3, 3, 3],
            [
                &[7, 7, 1, 5, 2, 4, 6, 0],
                &[1, 1, 3, 4, 4, 5, 7, 7, 2, 6, 0],
            ],
        ),
    ];
    for (sender, trouble, posts, numbers) in cases {
        assert!(rt; 1 <= sender && sender <= 72);
        assert!(rt; trouble < 2147483648);
        let Some(taken) = delivered(&rt, rt.alloc(), sender, trouble, posts) else {
            panic!(rt; "no memory")
        };
        assert!(rt; taken[0].as_slice() == numbers[0]);
        assert!(rt; taken[1].as_slice() == numbers[1]);
    }
    Ok(())
}
