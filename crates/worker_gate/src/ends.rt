//! The two ends of a deque: its owner's, and the one at which another worker steals. Each keeps the results of the tasks that it took.
ghost use Rattle.std.specs.Prelude.{◌≡◌, ℕ, ◌+◌, ◌-◌, ◌^◌, ◌<◌, ◌≤◌, [], ◌∷◌, ◌++◌, map, length, true, false, IfOk, OnOk};
ghost use Rattle.crossbeam_deque.specs.Handles.{view, IsPassOf, stealer_deque, worker_flavor, worker_view, worker_deque, SameWorker};
ghost use Rattle.worker_gate.specs.Accounts.{account, weigh};
ghost use Rattle.worker_gate.specs.Results.{AllGave, places};

use crate::account::{Account, EachOnce, Part, Puts, Steals, Takes};
use crate::job::{Gate, Job};
use crate::task::{Answer, Batch, Task};
use crossbeam_deque::{Pass, Steal, Stealer, Worker};
use std::alloc::{AllocError, Global};

/// Takes a task of its own and runs it. It answers false where there is none.
pub fn take_one<J: Job, K: Batch<J>, G: Gate>(
    deque: &mut Worker<Task<J, K>, Global, Account, EachOnce>,
    answers: &mut Vec<Answer<J::Done>>,
    gate: &G,
    pass: u32,
) -> Result<bool, AllocError>
    requires told { (p : ℕ) → G.told pass p → K.told p }
    requires fifo { worker_flavor deque.old ≡ 0 }
    requires part { 0 < (worker_view deque.old).parts }
    requires kept { (worker_view deque.old).taken ≡ places answers.old.items }
    requires gave { AllGave K.jobs J.gives K.told answers.old.items }
    ensures same { SameWorker deque.old deque.new }
    ensures view { worker_view deque.new ≡ account (worker_view deque.old).parts (worker_view deque.old).put (places answers.new.items) }
    ensures gave { AllGave K.jobs J.gives K.told answers.new.items }
    ensures more { IfOk result (λ b. b ≡ true → (worker_view deque.old).parts ≡ 1024 → (length answers.new.items ≡ length answers.old.items + 1) × (length answers.new.items ≤ length (worker_view deque.old).put)) }
    ensures none { IfOk result (λ b. b ≡ false → (worker_view deque.old).parts ≡ 1024 → (h : ℕ → ℕ) → weigh h (worker_view deque.old).put ≡ weigh h (places answers.new.items)) }
{
    answers.reserve(1)?;
    match deque.pop_as::<Takes>() {
        Some(task) => {
            answers.push_reserved(task.run(gate, pass));
            Ok(true)
        }
        None => Ok(false),
    }
}

/// The owner's end of a deque, and the results of the tasks that it took there.
#[derive(Drop)]
pub struct OwnDeque<J: Job, K: Batch<J>> {
    pub deque: Worker<Task<J, K>, Global, Account, EachOnce>,
    pub answers: Vec<Answer<J::Done>>,
    ghost fifo: { worker_flavor deque ≡ 0 },
    ghost kept: { (worker_view deque).taken ≡ places answers.items },
}

/// A pass of a deque for another worker, and the results of the tasks that it stole there.
#[derive(Drop)]
pub struct StealPass<J: Job, K: Batch<J>> {
    pub stealer: Stealer<Task<J, K>, Global, Account, EachOnce>,
    pub pass: Pass<Task<J, K>, Account>,
    pub answers: Vec<Answer<J::Done>>,
    ghost of_deque: { IsPassOf (stealer_deque stealer) pass },
    ghost kept: { view pass ≡ account 1 [] (places answers.items) },
}

impl<J: Job, K: Batch<J>> OwnDeque<J, K> {
    /// A deque with room for so many tasks.
    pub fn new(alloc: Global, room: usize) -> Result<OwnDeque<J, K>, AllocError>
        ensures { IfOk result (λ o. (worker_view o.deque ≡ account 1024 [] []) × (o.answers.items ≡ [])) }
    {
        let deque = Worker::fifo_as(alloc, room)?;
        Ok(OwnDeque {
            deque,
            answers: Vec::new(alloc),
        })
    }

    /// Puts a task at the back.
    pub fn put(&mut self, task: Task<J, K>) -> Result<(), AllocError>
        requires { 0 < (worker_view self.old.deque).parts }
        ensures same { (worker_deque self.new.deque ≡ worker_deque self.old.deque) × (self.new.answers.items ≡ self.old.answers.items) }
        ensures put { OnOk result (worker_view self.new.deque ≡ account (worker_view self.old.deque).parts ((worker_view self.old.deque).put ++ task.at ∷ []) (places self.old.answers.items)) }
    {
        match self.deque.push_as::<Puts>(task) {
            Ok(()) => Ok(()),
            Err(_) => Err(AllocError),
        }
    }

    /// A pass for another worker.
    pub fn steal_pass(&mut self, alloc: Global) -> Result<StealPass<J, K>, AllocError>
        requires { 1 < (worker_view self.old.deque).parts }
        ensures same { (worker_deque self.new.deque ≡ worker_deque self.old.deque) × (self.new.answers.items ≡ self.old.answers.items) }
        ensures put { (worker_view self.new.deque).put ≡ (worker_view self.old.deque).put }
        ensures part { OnOk result ((worker_view self.new.deque).parts + 1 ≡ (worker_view self.old.deque).parts) }
        ensures steal_pass { IfOk result (λ r. (stealer_deque r.stealer ≡ worker_deque self.old.deque) × (r.answers.items ≡ [])) }
    {
        let stealer = self.deque.stealer()?;
        let pass = self.deque.another::<Part>();
        Ok(StealPass {
            stealer,
            pass,
            answers: Vec::new(alloc),
        })
    }

    /// Takes a task of its own and runs it. It answers false where there is none.
    pub fn step<G: Gate>(&mut self, gate: &G, pass: u32) -> Result<bool, AllocError>
        requires told { (p : ℕ) → G.told pass p → K.told p }
        requires part { 0 < (worker_view self.old.deque).parts }
        requires gave { AllGave K.jobs J.gives K.told self.old.answers.items }
        ensures same { worker_deque self.new.deque ≡ worker_deque self.old.deque }
        ensures view { worker_view self.new.deque ≡ account (worker_view self.old.deque).parts (worker_view self.old.deque).put (places self.new.answers.items) }
        ensures gave { AllGave K.jobs J.gives K.told self.new.answers.items }
        ensures more { IfOk result (λ b. b ≡ true → (worker_view self.old.deque).parts ≡ 1024 → (length self.new.answers.items ≡ length self.old.answers.items + 1) × (length self.new.answers.items ≤ length (worker_view self.old.deque).put)) }
        ensures none { IfOk result (λ b. b ≡ false → (worker_view self.old.deque).parts ≡ 1024 → (h : ℕ → ℕ) → weigh h (worker_view self.old.deque).put ≡ weigh h (places self.new.answers.items)) }
    {
        take_one(&mut self.deque, &mut self.answers, gate, pass)
    }

    /// Takes and runs its own tasks, until there is none, or `most` of them, or memory runs out.
    pub fn take_all<G: Gate>(&mut self, most: usize, gate: &G, pass: u32)
        requires told { (p : ℕ) → G.told pass p → K.told p }
        requires part { 0 < (worker_view self.old.deque).parts }
        requires gave { AllGave K.jobs J.gives K.told self.old.answers.items }
        ensures same { worker_deque self.new.deque ≡ worker_deque self.old.deque }
        ensures view { worker_view self.new.deque ≡ account (worker_view self.old.deque).parts (worker_view self.old.deque).put (places self.new.answers.items) }
        ensures gave { AllGave K.jobs J.gives K.told self.new.answers.items }
    {
        for _ in 0..most {
            if self.step(gate, pass) != Ok(true) {
                break;
            }
        }
    }

    /// Takes the other workers' passes back.
    pub fn absorb(&mut self, other: StealPass<J, K>) -> Result<(), AllocError>
        requires deque { stealer_deque other.stealer ≡ worker_deque self.old.deque }
        requires part { 0 < (worker_view self.old.deque).parts }
        requires gave { AllGave K.jobs J.gives K.told self.old.answers.items × AllGave K.jobs J.gives K.told other.answers.items }
        ensures same { worker_deque self.new.deque ≡ worker_deque self.old.deque }
        ensures view { OnOk result (worker_view self.new.deque ≡ account ((worker_view self.old.deque).parts + 1) (worker_view self.old.deque).put (places self.new.answers.items)) }
        ensures gave { AllGave K.jobs J.gives K.told self.new.answers.items }
    {
        let StealPass {
            stealer: _,
            pass,
            mut answers,
        } = other;
        absorb_into(&mut self.deque, &mut self.answers, pass, &mut answers)
    }

    /// Runs what is left, once each pass is back.
    pub fn finish<G: Gate>(&mut self, gate: &G, pass: u32) -> Result<(), AllocError>
        requires told { (p : ℕ) → G.told pass p → K.told p }
        requires parts { (worker_view self.old.deque).parts ≡ 1024 }
        requires gave { AllGave K.jobs J.gives K.told self.old.answers.items }
        ensures gave { AllGave K.jobs J.gives K.told self.new.answers.items }
        ensures all { OnOk result ((h : ℕ → ℕ) → weigh h (worker_view self.old.deque).put ≡ weigh h (places self.new.answers.items)) }
    {
        while self.step(gate, pass)? {}
        Ok(())
    }
}

/// Takes one pass of a deque back, with the results of the tasks that it took.
fn absorb_into<J: Job, K: Batch<J>>(
    deque: &mut Worker<Task<J, K>, Global, Account, EachOnce>,
    answers: &mut Vec<Answer<J::Done>>,
    pass: Pass<Task<J, K>, Account>,
    more: &mut Vec<Answer<J::Done>>,
) -> Result<(), AllocError>
    requires table { IsPassOf (worker_deque deque.old) pass }
    requires part { 0 < (worker_view deque.old).parts }
    requires kept { ((worker_view deque.old).taken ≡ places answers.old.items) × (view pass ≡ account 1 [] (places more.old.items)) }
    requires gave { AllGave K.jobs J.gives K.told answers.old.items × AllGave K.jobs J.gives K.told more.old.items }
    ensures same { SameWorker deque.old deque.new }
    ensures kept { (worker_view deque.new).taken ≡ places answers.new.items }
    ensures view { OnOk result (worker_view deque.new ≡ account ((worker_view deque.old).parts + 1) (worker_view deque.old).put (places answers.new.items)) }
    ensures gave { AllGave K.jobs J.gives K.told answers.new.items }
{
    answers.append(more)?;
    deque.absorb::<Part>(pass);
    Ok(())
}

/// Steals a task and runs it. It answers false where it got none.
pub fn steal_one<J: Job, K: Batch<J>, G: Gate>(
    stealer: &Stealer<Task<J, K>, Global, Account, EachOnce>,
    part: &mut Pass<Task<J, K>, Account>,
    answers: &mut Vec<Answer<J::Done>>,
    gate: &G,
    pass: u32,
) -> bool
    requires told { (p : ℕ) → G.told pass p → K.told p }
    requires table { IsPassOf (stealer_deque stealer.now) part.old }
    requires kept { view part.old ≡ account 1 [] (places answers.old.items) }
    requires gave { AllGave K.jobs J.gives K.told answers.old.items }
    ensures table { IsPassOf (stealer_deque stealer.now) part.new }
    ensures kept { view part.new ≡ account 1 [] (places answers.new.items) }
    ensures gave { AllGave K.jobs J.gives K.told answers.new.items }
    ensures got { result ≡ true → length answers.new.items ≡ length answers.old.items + 1 }
    ensures none { result ≡ false → answers.new.items ≡ answers.old.items }
{
    if answers.reserve(1).is_err() {
        return false;
    }
    match stealer.steal_as::<Steals>(part) {
        Steal::Success(task) => {
            answers.push_reserved(task.run(gate, pass));
            true
        }
        Steal::Empty => false,
        Steal::Retry => false,
    }
}

impl<J: Job, K: Batch<J>> StealPass<J, K> {
    /// Steals a task and runs it. It answers false where it got none.
    pub fn steal<G: Gate>(&mut self, gate: &G, pass: u32) -> bool
        requires told { (p : ℕ) → G.told pass p → K.told p }
        requires gave { AllGave K.jobs J.gives K.told self.old.answers.items }
        ensures same { stealer_deque self.new.stealer ≡ stealer_deque self.old.stealer }
        ensures gave { AllGave K.jobs J.gives K.told self.new.answers.items }
        ensures got { result ≡ true → length self.new.answers.items ≡ length self.old.answers.items + 1 }
        ensures none { result ≡ false → self.new.answers.items ≡ self.old.answers.items }
    {
        steal_one(&self.stealer, &mut self.pass, &mut self.answers, gate, pass)
    }
}
