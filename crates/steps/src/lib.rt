// The tests on a step of a sheet: 11 on the step alone, 12 on where it stands. The sections that are open are kept as the reader
// goes, in a nest: specs/Nesting.antt.
#![tactic(auto)]

ghost use Rattle.std.specs.Prelude.{◌≡◌, ◌↔◌, [], ◌∷◌, ◌≤◌, true, false, not, length, reverse, IsSome, IfSome};
ghost use Rattle.rules.specs.Words.{◌≤?◌};
ghost use Rattle.rules.specs.Sheet.{is_lock, held_on_top};
ghost use Rattle.rules.specs.Reading.{known, step_of, misplaced_in};
ghost use Rattle.rules.specs.Laws.{StepLimits};
ghost use Rattle.table.specs.Steps.{meant};
ghost use Rattle.steps.specs.Nesting.{Distinct, open_behind, open_with};

use std::marker::Model;
use table::Step;

#[cfg(test)]
mod tests;

// 11: the step of a kind and a value, unless its kind is unknown or its value out of range.
#[tactic(auto, using(std::proofs::lemmas::Bool::Decides::nat_tests), unfolding(rules::specs::Reading::known, rules::specs::Reading::step_of, rules::specs::Words::within))]
pub fn known_step(m: u8, kind: u8, value: u16) -> Option<Step>
    ensures variant { IsSome result ↔ (known m kind value ≡ true) }
    ensures value { IfSome result (λ step. meant step ≡ step_of kind value) }
    ensures limits { IfSome result (λ step. StepLimits m (meant step)) }
{
    match (kind, value) {
        (1, 1..=1000) => Some(Step::Run(value)),
        (2, s) if s < u16::from(m) => Some(Step::Lock(s)),
        (3, s) if s < u16::from(m) => Some(Step::Unlock(s)),
        _ => None,
    }
}

// The sections that are open: their semaphores, the newest last, how many, and whether a lock stands right before. Behind them
// each place is 0.
#[derive(Clone, Copy)]
pub struct Nest {
    held: [u16; 4],
    depth: usize,
    locked: bool,
}

impl Model for Nest {
    ghost use Rattle.std.specs.Prelude.{◌≡◌, ◌≤◌, ◌-◌, ◌++◌, length, take, drop, reverse, replicate};
    ghost use Rattle.steps.specs.Nesting.{Open};
    ghost use Rattle.steps.specs.Places.{same_places, same_depth};

    ghost Value = { Open };

    ghost view = { λ n. record { held = reverse (take n.depth n.held); locked = n.locked } };

    ghost invariant = { λ n. (length n.held ≡ 4) × (n.depth ≤ 4) × (drop n.depth n.held ≡ replicate (4 - n.depth) 0) };

    ghost inverse = { λ o. record {
      held = reverse o.held ++ replicate (4 - length o.held) 0;
      depth = length o.held;
      locked = o.locked;
    } };

    ghost inverse_ok = { λ n h i. record {
      held = same_places n.held n.depth h.0 h.1 h.2 i;
      depth = same_depth n.held n.depth h.0 h.1 i;
      locked = n.locked;
    } };
}

impl Nest {
    // That of no steps.
    pub fn new() -> Nest
        ensures { result ≡ open_behind [] }
    {
        Nest {
            held: [0; 4],
            depth: 0,
            locked: false,
        }
    }

    // That of some semaphores, the newest last, and whether a lock stands right before.
    pub fn of(held: &[u16], locked: bool) -> Nest
        requires { length held.now ≤ 4 }
        ensures { result ≡ record { held = reverse held.now; locked = locked } }
    {
        let mut places = [0; 4];
        places[..held.len()].copy_from_slice(held);
        Nest {
            held: places,
            depth: held.len(),
            locked,
        }
    }

    // The semaphores, the newest last.
    fn semaphores(&self) -> &[u16]
        ensures { reverse result.now ≡ self.now.held }
    {
        &self.held[..self.depth]
    }

    // Four sections are open.
    fn is_full(&self) -> bool
        ensures { result ≡ (4 ≤? length self.now.held) }
    {
        4 <= self.depth
    }

    // 12: lock of a semaphore already held, fifth level, unlock of any but the newest held, unlock directly after a lock.
    pub fn is_misplaced(&self, step: Step) -> bool
        ensures { result ≡ misplaced_in self.now.held self.now.locked (meant step) }
    {
        match step {
            Step::Run(_) => false,
            Step::Lock(s) => self.is_full() || self.semaphores().contains(&s),
            Step::Unlock(s) => self.semaphores().last().copied() != Some(s) || self.locked,
        }
    }

    // Behind a step that is well placed.
    pub fn enter(&mut self, step: Step)
        requires { misplaced_in self.old.held self.old.locked (meant step) ≡ false }
        ensures value { self.new ≡ open_with self.old (meant step) }
        ensures apart { Distinct self.old.held
            → (self.new ≡ record { held = held_on_top self.old.held (meant step ∷ []); locked = is_lock (meant step) }) × Distinct self.new.held }
    {
        self.locked = step.is_lock();
        match step {
            Step::Run(_) => {}
            Step::Lock(s) => {
                self.held[self.depth] = s;
                self.depth += 1;
            }
            Step::Unlock(_) => {
                self.depth -= 1;
                self.held[self.depth] = 0;
            }
        }
    }

    // No section is open.
    pub fn is_closed(&self) -> bool
        ensures { result ≡ not (1 ≤? length self.now.held) }
    {
        self.depth == 0
    }
}
