// The lines of what the printing program prints. Each function puts a text behind what stands in `out`; what the texts are
// stands in specs/Text.antt, and the room that they ask for in specs/Room.antt. They are put together by hand and not by
// `write!`, which does not promise that it answers Ok where there is room, as `lts::put_printed` has to.
#![tactic(auto)]

ghost use Rattle.std.specs.Prelude.{◌+◌, ◌*◌, ◌≤◌, ◌≡◌, ◌++◌, length};
ghost use Rattle.arrayvec.specs.ArrayVec.{array_vec_len};
ghost use Rattle.rules.specs.Coded.{numbers};
ghost use Rattle.text.specs.Room.{bound_at, laxity_at, head_line_room, jobs_room, times_room, analysis_room, task_line_room, trace_line_room, report_room, refusal_line_room};
ghost use Rattle.text.specs.Text.{head_line, jobs, times, analysis, task_line, task_lines, trace_line, report, refusal_line};

use arrayvec::ArrayVec;
use rules::{Bound, Counts, Laxity, Refusal, State};
use words::{put_field, put_given_by, put_laxity, put_number, put_runner, put_text};

#[tactic(auto, unfolding(crate::specs::Text::head_line))]
fn put_head_line<const CAP: usize>(out: &mut ArrayVec<u8, CAP>, ticks: u16, switches: u16)
    requires { array_vec_len out.old + head_line_room ≤ CAP }
    ensures put { out.new.items ≡ out.old.items ++ head_line ticks switches }
    ensures upper_bound { array_vec_len out.new ≤ array_vec_len out.old + head_line_room }
{
    put_field(out, b"ticks ", ticks);
    put_field(out, b" switches ", switches);
    out.push(b'\n');
}

#[tactic(auto, using(std::proofs::Common::append_assoc), unfolding(crate::specs::Text::jobs, crate::specs::Text::times))]
fn put_counts<const CAP: usize>(out: &mut ArrayVec<u8, CAP>, c: Counts)
    requires { array_vec_len out.old + jobs_room + times_room ≤ CAP }
    ensures put { out.new.items ≡ out.old.items ++ jobs c ++ times c }
    ensures upper_bound { array_vec_len out.new ≤ array_vec_len out.old + jobs_room + times_room }
{
    put_field(out, b" releases ", c.releases);
    put_field(out, b" done ", c.completions);
    put_field(out, b" missed ", c.misses);
    put_field(out, b" ran ", c.ran);
    put_field(out, b" blocked ", c.blocked);
    put_field(out, b" worst ", c.worst);
}

#[tactic(auto, using(words::proofs::Decimal::laxity_few), unfolding(crate::specs::Text::analysis))]
fn put_analysis<const CAP: usize>(out: &mut ArrayVec<u8, CAP>, bound: Bound, laxity: Laxity)
    requires { array_vec_len out.old + analysis_room ≤ CAP }
    ensures put { out.new.items ≡ out.old.items ++ analysis bound laxity }
    ensures upper_bound { array_vec_len out.new ≤ array_vec_len out.old + analysis_room }
{
    put_field(out, b" bound ", bound.ticks);
    put_text(out, b" laxity ");
    put_laxity(out, laxity);
}

#[tactic(auto, using(std::proofs::Common::append_assoc), unfolding(crate::specs::Text::most, crate::specs::Text::task_line))]
fn put_task_line<const CAP: usize>(
    out: &mut ArrayVec<u8, CAP>,
    i: u32,
    c: Counts,
    bound: Bound,
    laxity: Laxity,
)
    requires { array_vec_len out.old + task_line_room ≤ CAP }
    ensures put { out.new.items ≡ out.old.items ++ task_line i c bound laxity }
    ensures upper_bound { array_vec_len out.new ≤ array_vec_len out.old + task_line_room }
{
    put_number(out, i);
    put_counts(out, c);
    put_analysis(out, bound, laxity);
    put_field(out, b" most ", c.most);
    put_given_by(out, bound.by);
    out.push(b'\n');
}

// A line for each rank that has a bound and a laxity here.
#[tactic(auto, using(std::proofs::lemmas::Grind::common_steps, crate::proofs::Lines::no_lines, crate::proofs::Lines::lines_more), unfolding(rules::specs::Record::record_at))]
fn put_task_lines<const CAP: usize>(
    out: &mut ArrayVec<u8, CAP>,
    st: &State,
    bounds: &[Bound],
    laxities: &[Laxity],
)
    requires n_bound { length bounds.now ≤ 16 }
    requires one_each { length laxities.now ≡ length bounds.now }
    requires task_line_room_in_bounds { array_vec_len out.old + task_line_room * 16 ≤ CAP }
    ensures put { out.new.items ≡ out.old.items ++ task_lines (length bounds.now) st.now (bound_at bounds.now) (laxity_at laxities.now) }
    ensures upper_bound { array_vec_len out.new ≤ array_vec_len out.old + task_line_room * 16 }
{
    for i in 0..bounds.len() {
        put_task_line(out, i as u32, st.tasks[i].counts, bounds[i], laxities[i]);
    }
}

// A word for each byte of a trace.
#[tactic(auto, unfolding(crate::specs::Text::trace_line))]
fn put_trace_line<const CAP: usize>(out: &mut ArrayVec<u8, CAP>, trace: &[u8])
    requires { array_vec_len out.old + trace_line_room (length trace.now) ≤ CAP }
    ensures put { out.new.items ≡ out.old.items ++ trace_line trace.now }
    ensures upper_bound { array_vec_len out.new ≤ array_vec_len out.old + trace_line_room (length trace.now) }
{
    put_text(out, b"trace");
    for &x in trace {
        put_runner(out, x);
    }
    out.push(b'\n');
}

// All that an accepted run prints: its record, the bounds and laxities of its tasks, and its trace.
#[tactic(auto, unfolding(crate::specs::Text::report))]
pub fn put_report<const CAP: usize>(
    out: &mut ArrayVec<u8, CAP>,
    st: &State,
    bounds: &[Bound],
    laxities: &[Laxity],
    trace: &[u8],
)
    requires n_bound { length bounds.now ≤ 16 }
    requires one_each { length laxities.now ≡ length bounds.now }
    requires report_room_in_bounds { array_vec_len out.old + report_room (length trace.now) ≤ CAP }
    ensures { out.new.items ≡ out.old.items ++ report (length bounds.now) st.now (bound_at bounds.now) (laxity_at laxities.now) trace.now }
{
    put_head_line(out, st.t, st.switches);
    put_task_lines(out, st, bounds, laxities);
    put_trace_line(out, trace);
}

// All that a refusal prints.
#[tactic(auto, unfolding(crate::specs::Text::refusal_line))]
pub fn put_refusal_line<const CAP: usize>(out: &mut ArrayVec<u8, CAP>, x: Refusal)
    requires { array_vec_len out.old + refusal_line_room ≤ CAP }
    ensures { out.new.items ≡ out.old.items ++ refusal_line (numbers x) }
{
    put_field(out, b"refused ", x.number().into());
    put_field(out, b" task ", x.rank().into());
    put_field(out, b" step ", x.step().into());
    out.push(b'\n');
}
