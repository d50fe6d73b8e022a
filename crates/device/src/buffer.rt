// The number of a buffer, 0 to 15, checked once.
ghost use Rattle.std.specs.Prelude.{◌≡◌, ◌≤◌};
ghost use Rattle.device.specs.Words.{numbered, buffer_answer};

use super::refusal::InputRefusal;

#[derive(Clone, Copy)]
pub struct BufferNumber {
    number: u8,
    ghost few: { number ≤ 15 },
}

// The buffer of that number, refused by number 2 where it is over 15.
impl TryFrom<u8> for BufferNumber {
    type Error = InputRefusal;

    ghost try_from_gives = { λ number result. numbered (λ b. b.number) result ≡ buffer_answer number };

    fn try_from(number: u8) -> Result<BufferNumber, InputRefusal> {
        if number > 15 {
            return Err(InputRefusal::BufferOver15);
        }
        Ok(BufferNumber { number })
    }
}

impl From<BufferNumber> for u8 {
    ghost from_gives = { λ buffer number. (number ≡ buffer.number) × (number ≤ 15) };

    fn from(buffer: BufferNumber) -> u8 {
        buffer.number
    }
}
