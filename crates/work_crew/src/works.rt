// What a work is.
ghost use Rattle.std.specs.Prelude.{◌≡◌, ℕ, ◌+◌, ◌-◌, ◌<◌, List, [], ◌∷◌, ◌++◌, IfOk, OnOk};
ghost use Rattle.work_crew.specs.Hands.{HasDone, MaySplit};

use aria_base::Memory;

/// A work on the places 0, 1, .. of a list. What a worker makes of the places that it runs is kept by
/// its hand. The first hand has all shares; each other one is split off it with one of them, and gives
/// it back where the two are joined.
pub trait Work {
    /// What one worker has made.
    type Hand: Drop + Send;

    /// How many places there are.
    ghost count: { Self → ℕ };

    /// The hand has so many shares, and it and those that were joined to it ran these places.
    ghost did: { Self → Self.Hand → ℕ → List ℕ → Type 0 };

    /// How many places there are.
    fn len(&self) -> u32
        ensures { result ≡ count self.now };

    /// Runs a place, as the worker `who`. It tells the pace of its steps itself.
    fn run(&self, hand: &mut Self::Hand, place: u32, who: u32) -> Result<(), Memory>
        requires place { place < count self.now }
        requires hand { HasDone (did self.now) hand.old }
        ensures { OnOk result ((shares : ℕ) (places : List ℕ) → did self.now hand.old shares places → did self.now hand.new shares (places ++ place ∷ [])) };

    /// A hand for another worker, which has run nothing.
    fn split(&self, hand: &mut Self::Hand) -> Result<Self::Hand, Memory>
        requires hand { MaySplit (did self.now) hand.old }
        ensures parent { OnOk result ((shares : ℕ) → did self.now hand.old shares [] → did self.now hand.new (shares - 1) []) }
        ensures child { IfOk result (λ other. (shares : ℕ) → did self.now hand.old shares [] → did self.now other 1 []) };

    /// Takes the other hand in.
    fn join(&self, hand: &mut Self::Hand, other: Self::Hand) -> Result<(), Memory>
        requires hand { HasDone (did self.now) hand.old }
        requires other { HasDone (did self.now) other }
        ensures { OnOk result ((shares more : ℕ) (places others : List ℕ) → did self.now hand.old shares places → did self.now other more others → did self.now hand.new (shares + more) (places ++ others)) };
}
