// One tick of a state that is handed in, in both forms: by value, and in place. For states that no run from the start reaches,
// and for what becomes of a state whose tick is turned away.
// Standard input: a 16-bit length and a sheet of that length, then a state of 359 bytes, all big-endian; what is missing is
// zero. workbench/README.md has the format, and what is printed.
#![tactic(auto)]

use rules::{AfterTick, Refusal, Runner, State};
use wire::{Bytes, Shown, TAKEN, answer_of};

fn print_told(rt: &impl Print, told: Result<Runner, Refusal>, st: &State) {
    let runner = answer_of(rt, told.map(u8::from));
    let state = Shown(st);
    let _ = print!(rt; "runner {runner}\n{state}");
}

fn main(rt: HostRuntime) {
    let mut space = [0; TAKEN];
    let mut input = Bytes::new(input::read_full(&mut rt.stdin(), &mut space));
    let length = input.word();
    let sheet = input.take(length);
    let mut st = input.state();

    let AfterTick { told, state } = simulator::tick(sheet, st);
    print_told(&rt, told, &state);
    let _ = println!(rt; "in place");
    let told = simulator::tick_in_place(sheet, &mut st);
    print_told(&rt, told, &st);
}
