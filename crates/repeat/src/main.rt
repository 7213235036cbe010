// Many whole runs of one sheet, to time them: standard input has a 16-bit repeat count and then what the printing program
// reads, a 16-bit horizon and a sheet. Prints the switches of all runs together.
#![tactic(auto)]

// The switches of so many runs of one sheet.
fn repeated(times: u16, horizon: u16, sheet: &[u8], trace: &mut [u8]) -> u64 {
    let mut switches = 0u64;
    for _ in 0..times {
        if let Ok(st) = simulator::run(sheet, horizon, trace) {
            switches += u64::from(st.switches);
        }
    }
    switches
}

fn switches_of(input: &[u8], trace: &mut [u8]) -> u64 {
    let [t1, t0, h1, h0, sheet @ ..] = input else {
        return 0;
    };
    let times = u16::from_be_bytes([*t1, *t0]);
    let horizon = u16::from_be_bytes([*h1, *h0]);
    repeated(times, horizon, sheet, trace)
}

fn main(rt: HostRuntime) {
    // the count, the horizon and the longest sheet
    let mut space = [0; 3165];
    // a byte for each tick of the longest run
    let mut trace = [0; 60000];
    let input = input::read_full(&mut rt.stdin(), &mut space);
    let switches = switches_of(input, &mut trace);
    let _ = rt.println(switches);
}
