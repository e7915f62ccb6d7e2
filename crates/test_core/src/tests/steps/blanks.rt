//! Runs of each whitespace byte: each length, each byte after, and the end of the input.
ghost use Rattle.std.specs.Prelude.{◌<◌, ◌≤◌};

use jiter_steps::whitespace::past_blanks;
use std::test::*;

// The same byte throughout, except one at an index.
fn text_of(blank: u8, place: usize, other: u8) -> [u8; 64]
    requires { place < 64 }
{
    let mut text = [blank; 64];
    text[place] = other;
    text
}

// The whitespace from an index on ends at another, whether another byte is there, with or without more
// after it, or the input ends there.
fn is_passed(blank: u8, from: usize, end: usize, other: u8) -> bool
    requires { (from ≤ end) × (end < 64) }
{
    let text = text_of(blank, end, other);
    past_blanks(&text, from) == end
        && past_blanks(&text[..end + 1], from) == end
        && past_blanks(&text[..end], from) == end
}

#[test]
fn runs_of_each_length_end_before_each_byte(rt: HostRuntime) {
    for blank in [b' ', b'\t', b'\n', b'\r'] {
        for other in [b'x', b'"', 0x1f, 0x21, 0x80] {
            for length in 0..41 {
                assert!(rt; is_passed(blank, 0, length, other));
                assert!(rt; is_passed(blank, 3, 3 + length, other));
            }
        }
    }
}
