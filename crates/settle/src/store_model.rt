//! The `StoreModel` trait: what contracts say of a store.
ghost use Rattle.std.specs.Prelude.{ℕ, Bool};
ghost use Rattle.model.specs.Content.{Content};

/// What contracts say of a store: its content, how its device has behaved, and what a crash may
/// leave.
pub trait StoreModel {
    // The rows as finite maps, and the clock's row.
    ghost content: { Self → Content };

    // The store is honest, and no failure has shut it.
    ghost IsUsable: { Self → Type 0 };

    // The device has returned only what was written to it.
    ghost HasHonestDevice: { Self → Type 0 };

    // What a crash at this moment may leave.
    ghost IsCrashState: { Self → Content → Type 0 };

    // A group of commits that began with this content has not ended. If one of its calls has failed,
    // the store is not usable until the group ends.
    ghost IsInGroup: { Self → Content → Type 0 } = { λ _ _. ⊥ };

    // An implementation's own fact about one call; the flag says whether it returned `Storage`.
    ghost IsStep: { Self → Self → Bool → Type 0 } = { λ _ _ _. Unit {0} };

    // How many device failures calls have returned.
    ghost failed: { Self → ℕ };

    // How often the device has failed or refused, whether or not a call returned it.
    ghost faults: { Self → ℕ };
}
