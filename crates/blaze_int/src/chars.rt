//! `char` as a key type. The ranks leave out the surrogates, which are not `char`s.
ghost use Rattle.std.specs.Prelude.{◌≡◌, ◌-◌, ◌^◌, pos};
ghost use Rattle.std.proofs.Common.{lit≤};
ghost use Rattle.blaze_int.specs.Chars.{char_index, char_rank, char_of_rank, char-ranked};
ghost use Rattle.blaze_int.specs.Unsigned.{unsigned-room};

use crate::integer::Integer;
use std::ops::RangeInclusive;

/// Returns the number of `char`s below `c`.
fn index(c: char) -> u32
    ensures { result ≡ char_index c }
{
    let code = c as u32;
    if code < 0xD800 { code } else { code - 0x800 }
}

impl Integer for char {
    type SafeLen = u32;

    ghost rank = { char_rank };

    ghost of_rank = { char_of_rank };

    ghost low = { pos 0 };

    ghost high = { pos 1112063 };

    fn in_hand(self) {}

    fn min_value() -> char {
        char::MIN
    }

    fn max_value() -> char {
        char::MAX
    }

    fn add_one(self) -> char {
        if self == '\u{D7FF}' {
            '\u{E000}'
        } else {
            char::from_u32(self as u32 + 1).unwrap()
        }
    }

    fn sub_one(self) -> char {
        if self == '\u{E000}' {
            '\u{D7FF}'
        } else {
            char::from_u32(self as u32 - 1).unwrap()
        }
    }

    fn safe_len(r: &RangeInclusive<char>) -> u32 {
        index(*r.end()) - index(*r.start()) + 1
    }

    ghost ranked = { char-ranked };

    ghost has_room = { unsigned-room 1112063 (2 ^ 32 - 1) (lit≤ tt) };
}
