// The words of what the printing program prints: numbers, fields, laxities, what gives a bound, and ticks. Each function puts a
// text behind what stands in `out`; what the texts are stands in specs/Words.antt, and the room that they ask for in
// specs/Room.antt.
#![tactic(auto)]

ghost use Rattle.std.specs.Prelude.{◌+◌, ◌^◌, ◌<◌, ◌≤◌, ◌≡◌, ◌++◌, length, unsigned_abs};
ghost use Rattle.arrayvec.specs.ArrayVec.{array_vec_len};
ghost use Rattle.words.specs.Room.{word_room, number_room, field_room, laxity_room, given_by_room, tick_room};
ghost use Rattle.words.specs.Words.{decimal, numbered, signed_decimal, given_by, tick_word};

use arrayvec::ArrayVec;
use rules::{Laxity, Section};

pub fn put_text<const CAP: usize>(out: &mut ArrayVec<u8, CAP>, text: &[u8])
    requires { array_vec_len out.old + length text.now ≤ CAP }
    ensures { out.new.items ≡ out.old.items ++ text.now }
{
    out.try_extend_from_slice(text).unwrap();
}

// The digits of a number. One or two are put at once: a trace has as many words as ticks.
#[tactic(auto, using(crate::proofs::Decimal::decimal_is_written, crate::proofs::Decimal::decimal_one, crate::proofs::Decimal::decimal_two))]
fn put_digits<const CAP: usize>(out: &mut ArrayVec<u8, CAP>, n: u64)
    requires { array_vec_len out.old + length (decimal n) ≤ CAP }
    ensures put { out.new.items ≡ out.old.items ++ decimal n }
    ensures exact { array_vec_len out.new ≡ array_vec_len out.old + length (decimal n) }
{
    match n {
        0..=9 => out.push(b'0' + n as u8),
        10..=99 => {
            out.push(b'0' + (n / 10) as u8);
            out.push(b'0' + (n % 10) as u8);
        }
        _ => {
            let mut digits = itoa::Buffer::new();
            put_text(out, digits.format(n).as_bytes());
        }
    }
}

// A number of 32 bits has at most ten digits.
#[tactic(auto, using(crate::proofs::Decimal::number_few))]
pub fn put_number<const CAP: usize>(out: &mut ArrayVec<u8, CAP>, n: u32)
    requires { array_vec_len out.old + number_room ≤ CAP }
    ensures put { out.new.items ≡ out.old.items ++ decimal n }
    ensures upper_bound { array_vec_len out.new ≤ array_vec_len out.old + number_room }
{
    put_digits(out, n.into());
}

// A word and the number behind it, of at most five digits.
#[tactic(auto, using(crate::proofs::Decimal::word_few), unfolding(crate::specs::Words::numbered))]
pub fn put_field<const CAP: usize>(out: &mut ArrayVec<u8, CAP>, name: &[u8], n: u16)
    requires name_len_bound { length name.now ≤ word_room }
    requires field_room_in_bounds { array_vec_len out.old + field_room ≤ CAP }
    ensures put { out.new.items ≡ out.old.items ++ numbered name.now n }
    ensures upper_bound { array_vec_len out.new ≤ array_vec_len out.old + field_room }
    ensures few { array_vec_len out.new ≤ array_vec_len out.old + length name.now + 5 }
{
    put_text(out, name);
    put_digits(out, n.into());
}

// The minus is put by hand, and not by itoa's text of a signed number: the edit minus_as_space is of this line.
#[tactic(auto, using(crate::proofs::Decimal::laxity_short), unfolding(crate::specs::Words::signed_decimal))]
pub fn put_laxity<const CAP: usize>(out: &mut ArrayVec<u8, CAP>, x: Laxity)
    requires { array_vec_len out.old + length (signed_decimal x) ≤ CAP }
    ensures put { out.new.items ≡ out.old.items ++ signed_decimal x }
    ensures exact { array_vec_len out.new ≡ array_vec_len out.old + length (signed_decimal x) }
    ensures upper_bound { unsigned_abs x.ticks < 2 ^ 32 → array_vec_len out.new ≤ array_vec_len out.old + laxity_room }
{
    if x.ticks < 0 {
        out.push(b'-');
    }
    put_digits(out, x.ticks.unsigned_abs());
}

// What gives a bound: a section, by rank and lock step, or nothing.
#[tactic(auto, unfolding(crate::specs::Words::given_by))]
pub fn put_given_by<const CAP: usize>(out: &mut ArrayVec<u8, CAP>, by: Option<Section>)
    requires { array_vec_len out.old + given_by_room ≤ CAP }
    ensures put { out.new.items ≡ out.old.items ++ given_by by }
    ensures upper_bound { array_vec_len out.new ≤ array_vec_len out.old + given_by_room }
{
    let Some(Section { rank, step }) = by else {
        return put_text(out, b" by -");
    };
    put_field(out, b" by ", rank.into());
    put_field(out, b"/", step.into());
}

// One word of the trace line, with the space before it. It is of a byte and not of a `Runner`: bytes are what a run leaves
// behind and what `tick_word` is said of, 255 where it was idle and 254 where stuck.
#[tactic(auto, unfolding(crate::specs::Words::tick_word))]
pub fn put_runner<const CAP: usize>(out: &mut ArrayVec<u8, CAP>, x: u8)
    requires { array_vec_len out.old + (1 + number_room) ≤ CAP }
    ensures put { out.new.items ≡ out.old.items ++ tick_word x }
    ensures upper_bound { array_vec_len out.new ≤ array_vec_len out.old + tick_room }
{
    out.push(b' ');
    match x {
        255 => out.push(b'-'),
        254 => out.push(b'!'),
        rank => put_number(out, rank.into()),
    }
}
