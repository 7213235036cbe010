// What the test programs share: numbers and states taken off the front of bytes, and answers written as lines.
// workbench/README.md has the formats.
#![tactic(auto)]

ghost use Rattle.std.specs.Prelude.{◌≡◌, ℕ, List, take, drop};
ghost use Rattle.std.specs.Result.{ResultUnwrapsOrElse};
ghost use Rattle.rules.specs.Reading.{byte, word};

use rules::{Counts, Head, Job, LastJob, Refusal, Section, State, TaskRecord};
use std::marker::Model;
use std::{array, fmt};

// At most so many bytes of an input are taken; no test asks for more.
pub const TAKEN: usize = 65536;

// Bytes, seen as those that have not been taken yet. Behind their end all are zero.
#[derive(Drop)]
pub struct Bytes<'a> {
    rest: &'a [u8],
}

impl<'a> Model for Bytes<'a> {
    ghost Value = { List ℕ };

    ghost view = { λ bytes. bytes.rest.now };
}

impl<'a> Bytes<'a> {
    pub fn new(bytes: &'a [u8]) -> Bytes<'a>
        ensures { result ≡ bytes.now }
    {
        Bytes { rest: bytes }
    }

    // So many bytes, fewer where the bytes end.
    pub fn take(&mut self, count: u16) -> &'a [u8]
        ensures taken { result.now ≡ take count self.old }
        ensures rest { self.new ≡ drop count self.old }
    {
        let count = usize::from(count).min(self.rest.len());
        let (taken, rest) = self.rest.split_at(count);
        self.rest = rest;
        taken
    }

    #[tactic(auto, unfolding(rules::specs::Reading::byte))]
    pub fn byte(&mut self) -> u8
        ensures value { result ≡ byte self.old 0 }
        ensures rest { self.new ≡ drop 1 self.old }
    {
        match self.take(1) {
            [byte] => *byte,
            _ => 0,
        }
    }

    // Big-endian.
    #[tactic(auto, unfolding(rules::specs::Reading::byte, rules::specs::Reading::word))]
    pub fn word(&mut self) -> u16
        ensures value { result ≡ word self.old 0 }
        ensures rest { self.new ≡ drop 2 self.old }
    {
        u16::from_be_bytes([self.byte(), self.byte()])
    }

    fn job(&mut self) -> Job {
        Job {
            pending: self.byte() != 0,
            position: self.byte(),
            left: self.word(),
            release: self.word(),
            present: self.word(),
        }
    }

    // The counts stand in the order of their row.
    fn counts(&mut self) -> Counts {
        Counts::from(array::from_fn(|_| self.word()))
    }

    fn record(&mut self) -> TaskRecord {
        TaskRecord {
            job: self.job(),
            counts: self.counts(),
        }
    }

    fn last(&mut self) -> LastJob {
        LastJob {
            rank: self.byte(),
            release: self.word(),
        }
    }

    pub fn state(&mut self) -> State {
        State {
            t: self.word(),
            switches: self.word(),
            last: self.last(),
            tasks: array::from_fn(|_| self.record()),
        }
    }
}

// How the formats show a value.
#[derive(Clone, Copy)]
pub struct Shown<'a, T>(pub &'a T);

impl fmt::Display for Shown<'_, Head> {
    fn fmt<W: fmt::Write>(&self, f: &mut fmt::Formatter<W>) -> fmt::Result {
        let Head {
            n,
            semaphores,
            mode,
        } = *self.0;
        write!(f, "tasks {n} semaphores {semaphores} mode {mode}")
    }
}

impl fmt::Display for Shown<'_, Job> {
    fn fmt<W: fmt::Write>(&self, f: &mut fmt::Formatter<W>) -> fmt::Result {
        let Job {
            pending,
            position,
            left,
            release,
            present,
        } = *self.0;
        let pending = u8::from(pending);
        write!(
            f,
            "pending {pending} position {position} left {left} release {release} present {present}"
        )
    }
}

impl fmt::Display for Shown<'_, Counts> {
    fn fmt<W: fmt::Write>(&self, f: &mut fmt::Formatter<W>) -> fmt::Result {
        let Counts {
            releases,
            completions,
            misses,
            ran,
            blocked,
            worst,
            most,
        } = *self.0;
        write!(
            f,
            "releases {releases} done {completions} missed {misses} ran {ran} blocked {blocked} worst {worst} most {most}"
        )
    }
}

impl fmt::Display for Shown<'_, State> {
    fn fmt<W: fmt::Write>(&self, f: &mut fmt::Formatter<W>) -> fmt::Result {
        let State {
            t,
            switches,
            last: LastJob { rank, release },
            tasks,
        } = self.0;
        writeln!(f, "t {t} switches {switches} last {rank} {release}")?;
        for (i, TaskRecord { job, counts }) in tasks.iter().enumerate() {
            let job = Shown(job);
            let counts = Shown(counts);
            writeln!(f, "{i} {job} {counts}")?;
        }
        Ok(())
    }
}

// What gives a bound: rank and lock step, or nothing.
impl fmt::Display for Shown<'_, Option<Section>> {
    fn fmt<W: fmt::Write>(&self, f: &mut fmt::Formatter<W>) -> fmt::Result {
        match *self.0 {
            Some(Section { rank, step }) => write!(f, "{rank}/{step}"),
            None => write!(f, "-"),
        }
    }
}

// A line with a name and how each value is shown. A write that fails is passed over, as in the printing program.
pub fn print_each<'a, T, D: fmt::Display + Drop, F: Fn(&'a T) -> D>(
    rt: &impl Print,
    name: &str,
    values: &'a [T],
    shown: F,
)
    requires { F.IsAlwaysCallable shown }
{
    let _ = print!(rt; "{name}");
    for value in values {
        let _ = print!(rt; " {}", shown(value));
    }
    let _ = println!(rt);
}

// What a call answers; where it is turned away, the refusal's line is printed, and the answer is all zero.
pub fn answer_of<T: Default + Drop>(rt: &impl Print, told: Result<T, Refusal>) -> T
    ensures { ResultUnwrapsOrElse told T.is_default result }
{
    if let Err(refusal) = &told {
        let _ = println!(rt; "{refusal}");
    }
    told.unwrap_or_default()
}
