// One public call, asked on anything. Standard input: the call's number (a byte), two numbers, the length of the buffer that is
// lent, and the sheet's length (16 bits each, big-endian), and the sheet; what is missing is zero. The buffer is marked, and
// what stands in it afterwards is printed too. workbench/README.md has the format, and what is printed.
// A further call is a function that prints its answer and a line in `ask`. The two forms of the tick are asked by `one_tick`.
#![tactic(auto)]

use rules::State;
use wire::{Bytes, Shown, TAKEN, answer_of, print_each};

fn check(rt: &impl Print, sheet: &[u8]) {
    let head = answer_of(rt, simulator::check(sheet));
    let _ = rt.println(Shown(&head));
}

fn ceilings(rt: &impl Print, sheet: &[u8]) {
    let ceilings = answer_of(rt, simulator::ceilings(sheet));
    print_each(rt, "ceilings", &ceilings, |ceiling| *ceiling);
}

fn bounds(rt: &impl Print, sheet: &[u8]) {
    let bounds = answer_of(rt, simulator::bounds(sheet));
    print_each(rt, "bounds", &bounds, |bound| bound.ticks);
    print_each(rt, "by", &bounds, |bound| Shown(&bound.by));
}

fn laxities(rt: &impl Print, sheet: &[u8]) {
    let laxities = answer_of(rt, simulator::laxities(sheet));
    print_each(rt, "laxities", &laxities, |laxity| laxity.ticks);
    print_each(rt, "by", &laxities, |laxity| Shown(&laxity.by));
}

fn print_state(rt: &impl Print, st: &State) {
    let _ = rt.print(Shown(st));
}

// Every byte of the buffer is 170 before, which no runner byte is.
fn run(rt: &impl Print, sheet: &[u8], horizon: u16, room: u16) {
    let mut space = [170; 65536];
    let buffer = &mut space[..usize::from(room)];
    let st = answer_of(rt, simulator::run(sheet, horizon, buffer));
    print_state(rt, &st);
    print_each(rt, "buffer", buffer, |byte| *byte);
}

// The calls by the format's numbers, of which only this match knows: an enum would name each call once more.
fn ask(rt: &impl Print, call: u8, first: u16, room: u16, sheet: &[u8]) {
    match call {
        1 => check(rt, sheet),
        2 => ceilings(rt, sheet),
        3 => bounds(rt, sheet),
        4 => laxities(rt, sheet),
        5 => run(rt, sheet, first, room),
        6 => print_state(rt, &simulator::start()),
        _ => {
            let _ = println!(rt; "no such call");
        }
    }
}

fn main(rt: HostRuntime) {
    let mut space = [0; TAKEN];
    let mut input = Bytes::new(input::read_full(&mut rt.stdin(), &mut space));
    let call = input.byte();
    let first = input.word();
    let _second = input.word();
    let room = input.word();
    let length = input.word();
    ask(&rt, call, first, room, input.take(length));
}
