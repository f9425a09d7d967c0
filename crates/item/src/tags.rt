// A tag: making one and reading its number, which is its body too.
ghost use Rattle.std.specs.Prelude.{◌≡◌, ◌≤◌};

use crate::items::Item;
use protocol::Refusal;

const LAST_TAG: u64 = 999_999;

/// An item of one number, from 1 to 999,999.
#[derive(Clone, Copy, Debug, PartialEq, Eq)]
pub struct Tag {
    number: u32,
    ghost first: { 1 ≤ number },
    ghost last: { number ≤ 999999 },
}

impl Tag {
    ghost use Rattle.item.specs.Tags.{tagged};

    /// The tag of a number. Refused (9) unless it is from 1 to 999,999.
    pub fn new(number: u64) -> Result<Tag, Refusal>
        ensures { result ≡ tagged number }
    {
        if !(1..=LAST_TAG).contains(&number) {
            return Err(Refusal::ValueOutOfRange);
        }
        Ok(Tag {
            number: number as u32,
        })
    }

    /// The number, 1 to 999,999.
    pub fn number(&self) -> u64
        ensures { result ≡ self.now.number }
    {
        u64::from(self.number)
    }
}

impl Item for Tag {
    ghost use Rattle.item.specs.Tags.{tag_body, tag_in};
    ghost use Rattle.item.specs.Bodies.{tag_faithful};

    ghost unpacked = { tag_in };

    ghost ok = { λ _. Unit {0} };

    ghost packed = { tag_body };

    ghost faithful = { tag_faithful };

    fn unpack(body: u64) -> Option<Tag> {
        Tag::new(body).ok()
    }

    fn pack(&self) -> u64 {
        self.number()
    }
}
