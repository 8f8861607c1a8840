//! The law of functions in one table of nodes.

ghost use Rattle.std.specs.Prelude.{◌≡◌, ℕ, Bool};
ghost use Rattle.func_core.specs.Trees.{eval};
ghost use Rattle.func_shared.specs.Shares.{shared_tree, SharedHolds};
ghost use Rattle.func_shared.specs.declared.shared.SharedFunctions.{SharedFunctions};

/// Equal functions have one number.
pub fn equal_functions_have_one_number()
    ensures { (functions : SharedFunctions) (m n : ℕ) → SharedHolds functions m
        → SharedHolds functions n → ((point : ℕ → Bool)
        → eval (shared_tree functions m) point ≡ eval (shared_tree functions n) point) → m ≡ n }
{}
