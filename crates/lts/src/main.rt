// The printing program: a 16-bit big-endian horizon and then a sheet from standard input, and what they print to standard
// output. What that is stands in specs/Text.antt of crate text.
#![tactic(auto)]

ghost use Rattle.std.specs.Prelude.{◌+◌, ◌≤◌, ◌≡◌, ◌++◌, length, OnOk, OnErr, IfErr};
ghost use Rattle.arrayvec.specs.ArrayVec.{array_vec_len};
ghost use Rattle.rules.specs.Coded.{numbers};
ghost use Rattle.text.specs.Room.{report_room};
ghost use Rattle.text.specs.Text.{printed, printed_run, refusal_line};

use arrayvec::ArrayVec;
use rules::Refusal;

// At most so many bytes are taken.
const TAKEN: usize = 3163;

// A byte for each tick of the longest run.
const TICKS: usize = 60000;

// Room for the longest report, so that it is written at once, and some to spare.
const ROOM: usize = 244096;

// What a horizon and a sheet that are accepted print.
#[tactic(auto, using(text::proofs::Printed::of_answers))]
fn put_accepted(
    out: &mut ArrayVec<u8, ROOM>,
    h: u16,
    sheet: &[u8],
    trace: &mut [u8; TICKS],
) -> Result<(), Refusal>
    requires { array_vec_len out.old + report_room 60000 ≤ ROOM }
    ensures ok { OnOk result (out.new.items ≡ out.old.items ++ printed_run h sheet.now) }
    ensures err { IfErr result (λ x. printed_run h sheet.now ≡ refusal_line (numbers x)) }
    ensures unchanged { OnErr result (out.new ≡ out.old) }
{
    let st = simulator::run(sheet, h, trace)?;
    let head = simulator::check(sheet)?;
    let bounds = &simulator::bounds(sheet)?;
    let laxities = &simulator::laxities(sheet)?;
    let n = usize::from(head.n);
    text::put_report(
        out,
        &st,
        &bounds[..n],
        &laxities[..n],
        &trace[..usize::from(h)],
    );
    Ok(())
}

// What a horizon and a sheet print.
fn put_run(out: &mut ArrayVec<u8, ROOM>, h: u16, sheet: &[u8], trace: &mut [u8; TICKS])
    requires { array_vec_len out.old + report_room 60000 ≤ ROOM }
    ensures { out.new.items ≡ out.old.items ++ printed_run h sheet.now }
{
    if let Err(refusal) = put_accepted(out, h, sheet, trace) {
        text::put_refusal_line(out, refusal);
    }
}

// What an input prints.
#[tactic(auto, using(std::proofs::lemmas::Grind::common_steps, text::proofs::Printed::printed_short, text::proofs::Printed::printed_long))]
fn put_printed(out: &mut ArrayVec<u8, ROOM>, input: &[u8], trace: &mut [u8; TICKS])
    requires input_len_bound { length input.now ≤ 3163 }
    requires report_room_in_bounds { array_vec_len out.old + report_room 60000 ≤ ROOM }
    ensures { out.new.items ≡ out.old.items ++ printed input.now }
{
    let [high, low, sheet @ ..] = input else {
        return text::put_refusal_line(out, Refusal::Short);
    };
    put_run(out, u16::from_be_bytes([*high, *low]), sheet, trace);
}

// A write that fails, as to a full disk or a closed pipe, ends the program quietly.
fn main(rt: HostRuntime) {
    let mut space = [0; TAKEN];
    let mut trace = [0; TICKS];
    let mut out = ArrayVec::<u8, ROOM>::new();
    let input = input::read_full(&mut rt.stdin(), &mut space);
    put_printed(&mut out, input, &mut trace);
    let _ = rt.write_all(&out);
}
