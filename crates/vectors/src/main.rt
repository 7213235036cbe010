// Named sheets, and what `check` answers for each, or the bounds and laxities of its tasks. Standard input has them as
//     NAME = HEX ;    what `check` answers
//     NAME ? HEX ;    the bound and the laxity of each task
// where HEX is any pairs of hexadecimal digits, over several lines where it is long, and '#' before a name starts a comment.
#![tactic(auto)]

ghost use Rattle.std.specs.Prelude.{◌+◌, ◌<◌, ◌≤◌, length, IfSome};
ghost use Rattle.std.specs.Iterator.{at_most};

use arrayvec::ArrayVec;
use wire::{Shown, TAKEN};

// What stands before the first such byte, and what behind it; all and nothing where there is none.
fn split(s: &[u8], wanted: u8) -> (&[u8], &[u8])
    ensures { length result.0.now + length result.1.now ≤ length s.now }
{
    match s.iter().position(|b| *b == wanted) {
        Some(at) => (&s[..at], &s[at + 1..]),
        None => (s, &[]),
    }
}

// The parts of an input: a line's end, a comment up to its line's end, or a vector up to its ';'.
#[derive(Drop)]
struct Parts<'a>(&'a [u8]);

impl<'a> Iterator for Parts<'a> {
    type Item = &'a [u8];

    ghost remaining = { λ parts. at_most (length parts.0.now) };

    fn next(&mut self) -> Option<&'a [u8]> {
        let (first, behind) = self.0.split_first()?;
        let (text, rest) = match first {
            b'\n' => (&[][..], behind),
            b'#' => split(behind, b'\n'),
            _ => split(behind, b';'),
        };
        let part = &self.0[..1 + text.len()];
        self.0 = rest;
        Some(part)
    }
}

// The value of a hexadecimal digit. `to_digit` would take upper case too, which is passed over here.
fn digit(b: u8) -> Option<u8>
    ensures { IfSome result (λ d. d < 16) }
{
    match b {
        b'0'..=b'9' => Some(b - b'0'),
        b'a'..=b'f' => Some(b - b'a' + 10),
        _ => None,
    }
}

// The bytes that pairs of digits stand for, put behind those that stand there, as far as there is room; a longest sheet has less.
fn bytes_of(hex: &[u8], bytes: &mut ArrayVec<u8, 4096>) {
    let mut high = None;
    for digit in hex.iter().filter_map(|b| digit(*b)) {
        match high.take() {
            None => high = Some(digit),
            Some(high) => {
                let _ = bytes.try_push(16 * high + digit);
            }
        }
    }
}

fn print_check(rt: &impl Print, name: &[u8], sheet: &[u8]) {
    let _ = rt.write_all(name);
    let _ = match simulator::check(sheet) {
        Ok(head) => println!(rt; ": accepted {}", Shown(&head)),
        Err(refusal) => println!(rt; ": {refusal}"),
    };
}

// Nothing where the sheet is turned away.
fn print_analysis(rt: &impl Print, name: &[u8], sheet: &[u8]) {
    let (Ok(head), Ok(bounds), Ok(laxities)) = (
        simulator::check(sheet),
        simulator::bounds(sheet),
        simulator::laxities(sheet),
    ) else {
        return;
    };
    let tasks = bounds.iter().zip(&laxities).take(usize::from(head.n));
    for (rank, (bound, laxity)) in tasks.enumerate() {
        let by = Shown(&bound.by);
        let _ = rt.write_all(name);
        let _ = println!(rt;
            ": rank {rank} bound {} laxity {} by {by}",
            bound.ticks, laxity.ticks
        );
    }
}

fn without_last(s: &[u8]) -> &[u8] {
    s.split_last().map_or(s, |(_, front)| front)
}

// A vector. Its name ends before the space in front of the mark.
fn answer(rt: &impl Print, part: &[u8]) {
    if let [b'\n' | b'#', ..] = part {
        return;
    }
    let checks = part.contains(&b'=');
    let (name, hex) = split(part, if checks { b'=' } else { b'?' });
    let name = without_last(name);
    let mut sheet = ArrayVec::new();
    bytes_of(hex, &mut sheet);
    if checks {
        print_check(rt, name, &sheet);
    } else {
        print_analysis(rt, name, &sheet);
    }
}

fn main(rt: HostRuntime) {
    let mut space = [0; TAKEN];
    for part in Parts(input::read_full(&mut rt.stdin(), &mut space)) {
        answer(&rt, part);
    }
}
