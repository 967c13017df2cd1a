//! The signals that an actor writes.

ghost use Rattle.std.specs.Prelude.{◌≡◌, ◌≤◌, ◌<◌};
ghost use Rattle.sig_machine.specs.Prelude.{ℕ, length, true};
ghost use Rattle.sig_machine.specs.inner.Own.{AreOwnBelow, WritesOwn, is_own};

use sig_cells::Instruction;
use sig_kernel::Kernel;

/// Signals among which are all that an actor writes: those below `head`, and those from `first` on and below `end`.
#[derive(Clone, Copy)]
pub(crate) struct Own {
    pub(crate) head: usize,
    pub(crate) first: usize,
    pub(crate) end: usize,
}

impl Own {
    /// Whether a signal is among them.
    #[inline(always)]
    pub(crate) fn has(self, signal: usize) -> bool
        ensures { result ≡ is_own self signal }
    {
        signal < self.head || self.first <= signal && signal < self.end
    }

    /// These and one more.
    #[inline(always)]
    pub(crate) fn with(self, signal: u32) -> Own
        ensures here { is_own result signal ≡ true }
        ensures others { (x : ℕ) → is_own self x ≡ true → is_own result x ≡ true }
        ensures below { (count : ℕ) → signal < count → AreOwnBelow count self → AreOwnBelow count result }
    {
        let signal = signal as usize;
        if self.has(signal) {
            return self;
        }
        if self.first < self.end {
            Own {
                head: self.head,
                first: least(self.first, signal),
                end: greatest(self.end, signal + 1),
            }
        } else {
            Own {
                head: self.head,
                first: signal,
                end: signal + 1,
            }
        }
    }

    /// These, and the cell that an instruction writes, where it is that of a signal.
    fn with_target(self, target: u32, signals: usize) -> Own
        ensures here { target < signals → is_own result target ≡ true }
        ensures others { (x : ℕ) → is_own self x ≡ true → is_own result x ≡ true }
        ensures below { AreOwnBelow signals self → AreOwnBelow signals result }
    {
        if (target as usize) < signals {
            self.with(target)
        } else {
            self
        }
    }
}

/// The lesser of two numbers.
pub(crate) fn least(a: usize, b: usize) -> usize
    ensures left { result ≤ a }
    ensures right { result ≤ b }
    ensures greatest { (n : ℕ) → n < a → n < b → n < result }
{
    if a < b { a } else { b }
}

/// The greater of two numbers.
pub(crate) fn greatest(a: usize, b: usize) -> usize
    ensures left { a ≤ result }
    ensures right { b ≤ result }
    ensures least { (n : ℕ) → a ≤ n → b ≤ n → result ≤ n }
{
    if a < b { b } else { a }
}

/// The inputs and outputs of a kernel, and all signals that instructions write.
pub(crate) fn own_of(kernel: &Kernel, instructions: &[Instruction]) -> Own
    ensures below { AreOwnBelow (length kernel.now.signals) result }
    ensures targets { WritesOwn result (length kernel.now.signals) instructions.now }
{
    let signals = kernel.signals.as_slice().len();
    let head = least(kernel.inputs as usize + kernel.outputs as usize, signals);
    own_with(head, signals, instructions)
}

/// So many first ones of these signals, and all that instructions write.
fn own_with(head: usize, signals: usize, instructions: &[Instruction]) -> Own
    requires { head ≤ signals }
    ensures below { AreOwnBelow signals result }
    ensures targets { WritesOwn result signals instructions.now }
{
    let mut own = Own {
        head,
        first: head,
        end: head,
    };
    for place in 0..instructions.len() {
        own = own.with_target(instructions[place].target, signals);
    }
    own
}
