ghost use Rattle.std.specs.Prelude.{◌≡◌, ◌<◌, ◌^◌, IfOk};
ghost use Rattle.gr_post.specs.Plan.{first_number, fate};

use crate::mail::Mail;
use gr_value::{Copied, Memory};
use std::alloc::Global;

/// A mail that is held back: it is released with so many mails more, and with 0 only at the end.
#[derive(Drop)]
pub struct Held {
    pub mail: Mail,
    pub left: u8,
}

/// What becomes of a mail for one member. `Last` releases all that is held back, and an `End` behind it.
#[derive(Drop)]
pub enum Fate {
    Once(Mail),
    Twice(Mail, Mail),
    Hold(Held),
    Last,
}

// The number with which a courier begins. Without trouble every number is 0.
pub(crate) fn first_number(trouble: u32, sender: u8) -> u32
    requires { trouble < 2 ^ 31 }
    ensures { result ≡ first_number trouble sender }
{
    if trouble == 0 {
        0
    } else {
        1 + (trouble + 7919 * u32::from(sender)) % 2147483646
    }
}

impl Fate {
    // What becomes of a mail by the number that was drawn for it.
    pub(crate) fn of(alloc: Global, mail: &Mail, number: u32) -> Result<Fate, Memory>
        ensures { IfOk result (λ made. made ≡ fate mail.now number) }
    {
        let copy = mail.copy(alloc)?;
        match number % 4 {
            0 => Ok(Fate::Once(copy)),
            1 => Ok(Fate::Twice(copy, mail.copy(alloc)?)),
            2 => Ok(Fate::Hold(Held {
                mail: copy,
                left: (1 + number / 4 % 8) as u8,
            })),
            _ => Ok(Fate::Hold(Held {
                mail: copy,
                left: 0,
            })),
        }
    }
}
