//! What picks among the choices of an access, and how a run asks it.
ghost use Rattle.std.specs.Prelude.{◌≡◌, ℕ, Bool, false, ◌<◌, ◌≤◌, IsTrue};
ghost use Rattle.message_memory.specs.Memory.{IsClosedView, HasSmallTimestamps};
ghost use Rattle.message_memory.specs.Step.{IsLegal, IsProper};
ghost use Rattle.message_memory.specs.Candidates.{IsAtomic};
ghost use Rattle.values_undef.specs.Access.{leaves_choice};
ghost use Rattle.chooser.specs.Chosen.{IsChosen, chooser_after};

use message_memory::{MessageMemory, laws};
use values_undef::{Access, Choice};
use views::View;

/// What picks one of so many choices. It means an answer and a next state, of its state, a thread
/// and the number of choices; nothing else has a say in them.
pub trait Chooser {
    /// Whether it picks for the thread.
    ghost serves: { Self → ℕ → Bool };

    /// The number of the choice that it picks, of its state, the thread and the number of choices.
    ghost answer: { Self → ℕ → ℕ → ℕ };

    /// Its state after that.
    ghost next: { Self → ℕ → ℕ → Self };

    /// Picks one of `count` choices for a thread that it serves, and tells its number, from 0. It
    /// serves the same threads after it.
    fn pick(&mut self, thread: u32, count: u64) -> u64
        requires served { IsTrue (serves self.old thread) }
        requires some { 1 ≤ count }
        ensures answer { result ≡ answer self.old thread count }
        ensures next { self.new ≡ next self.old thread count }
        ensures below { result < count }
        ensures serves { (i : ℕ) → serves self.new i ≡ serves self.old i };
}

/// The choice of an access of a thread with this view. For an access to an atomic location the
/// chooser is asked once, with the number of candidates, and the candidate of its answer is taken.
/// For every other the chooser is not asked, and the choice is `Plain`. The choice is legal while no
/// access has failed.
///
/// The conditions are that the chooser serves the thread, and those of the memory's `candidates`:
/// the view is closed in the memory, the access is proper for it, and no timestamp is past 2^60.
pub fn choose<M: MessageMemory, C: Chooser>(
    ch: &mut C,
    m: &M,
    thread: u32,
    view: &View,
    a: &Access,
) -> Choice
    requires served { IsTrue (C.serves ch.old thread) }
    requires closed { IsClosedView (M.contents m.now) view.now }
    requires proper { IsProper (M.contents m.now) a.now }
    requires small { HasSmallTimestamps (M.contents m.now) }
    ensures choice { IsChosen C.answer (M.contents m.now) view.now a.now ch.old thread result }
    ensures chooser { ch.new ≡ chooser_after C.next (M.contents m.now) view.now a.now ch.old thread }
    ensures legal { (M.contents m.now).failed ≡ false → IsLegal (M.contents m.now) view.now a.now result }
    ensures serves { (i : ℕ) → C.serves ch.new i ≡ C.serves ch.old i }
{
    if !leaves_choice(a) {
        laws::choices_have_their_form();
        return Choice::Plain;
    }
    let count = m.candidates(view, a);
    let k = ch.pick(thread, count);
    m.candidate(view, a, k)
}

/// Whether the access leaves a choice: whether it is one to an atomic location.
#[tactic(auto, using(message_memory::proofs::Callers::leaves_atomic, message_memory::proofs::Callers::plain_leaves))]
fn leaves_choice(a: &Access) -> bool
    ensures value { result ≡ leaves_choice a.now }
    ensures atomic { IsTrue result → IsAtomic a.now }
    ensures plain { result ≡ false → IsAtomic a.now → ⊥ }
{
    a.leaves_choice()
}
