// What a heap can hold.
ghost use Rattle.std.specs.Prelude.{◌≡◌, ℕ, Bool, true, false, List};

// A kind of entry with a total order; entries that are level have the same key.
pub trait Entry: Copy {
    // What entries are told apart by, in the order of their leaving.
    ghost key: { Self → List ℕ };

    // Whether the first may leave before the second, or is level with it.
    ghost upto: { Self → Self → Bool };

    fn precedes(&self, other: &Self) -> bool
        ensures { result ≡ upto self.now other.now };

    ghost total: { (x y : Self) → upto x y ≡ false → upto y x ≡ true };

    ghost chain: { (x y z : Self) → upto x y ≡ true → upto y z ≡ true → upto x z ≡ true };

    ghost level: { (x y : Self) → upto x y ≡ true → upto y x ≡ true → key x ≡ key y };
}
